// The kinds of expressions, and their numbers in a record.
ghost use Rattle.std.specs.Prelude.{◌≡◌};
ghost use Rattle.expressions.specs.Kinds.{number_of, Numbered};

use thiserror::Error;

// What an expression is.
#[derive(Clone, Copy, PartialEq, Eq, Debug)]
pub enum Kind {
    // No route.
    Nothing,
    // The empty route alone.
    Stay,
    // One step.
    Step,
    // The routes of both parts.
    Sum,
    // A route of the left part, and then one of the right.
    Then,
    // Routes of the part, any number of times, one after the other.
    Repeat,
}

impl Kind {
    // The number by which a record has this kind, 0 to 5.
    pub fn number(self) -> u32
        ensures { result ≡ number_of self }
    {
        self as u32
    }
}

// A number that no kind has.
#[derive(Clone, Copy, PartialEq, Eq, Debug, Error)]
#[error("no kind of expression has the number {0}")]
pub struct NoKind(pub u32);

impl TryFrom<u32> for Kind {
    type Error = NoKind;

    ghost try_from_gives = { Numbered };

    fn try_from(number: u32) -> Result<Kind, NoKind> {
        match number {
            0 => Ok(Kind::Nothing),
            1 => Ok(Kind::Stay),
            2 => Ok(Kind::Step),
            3 => Ok(Kind::Sum),
            4 => Ok(Kind::Then),
            5 => Ok(Kind::Repeat),
            _ => Err(NoKind(number)),
        }
    }
}
