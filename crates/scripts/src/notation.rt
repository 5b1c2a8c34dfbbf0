// How numbers, and the five algebras with their values, are read from a word and printed.
use algebras::{Cost, Depth, Marking, Marks, Phase, Reach};
use bits::Ones;
use kleene::Algebra;
use std::fmt;
use std::str::FromStr;

// A number that fits its type, of decimal digits alone.
pub(crate) fn number<N: FromStr>(word: &str) -> Option<N>
where
    N::Err: Drop,
{
    if word.bytes().all(|b| b.is_ascii_digit()) {
        word.parse().ok()
    } else {
        None
    }
}

// `0x` and 1 to 16 hexadecimal digits.
fn hexadecimal(word: &str) -> Option<u64> {
    let digits = word.strip_prefix("0x")?;
    if digits.len() <= 16 && digits.bytes().all(|b| b.is_ascii_hexdigit()) {
        u64::from_str_radix(digits, 16).ok()
    } else {
        None
    }
}

// How scripts write an algebra and its values.
pub(crate) trait Notation: Algebra {
    // What the algebra is called.
    const NAME: &'static str;

    // The value that a word stands for.
    fn read(word: &str) -> Option<Self::Value>;

    // Prints a value as a script has it.
    fn write<W: fmt::Write>(value: Self::Value, f: &mut fmt::Formatter<W>) -> fmt::Result;

    // Prints what the algebra is called where its values are listed.
    fn title<W: fmt::Write>(&self, f: &mut fmt::Formatter<W>) -> fmt::Result {
        f.write_str(Self::NAME)
    }
}

// A value of an algebra, printed as a script has it.
#[derive(Drop)]
pub(crate) struct Shown<A: Notation>(pub A::Value);

impl<A: Notation> fmt::Display for Shown<A> {
    fn fmt<W: fmt::Write>(&self, f: &mut fmt::Formatter<W>) -> fmt::Result {
        A::write(self.0, f)
    }
}

// `yes` or `no`.
impl Notation for Reach {
    const NAME: &'static str = "reach";

    fn read(word: &str) -> Option<bool> {
        match word {
            "yes" => Some(true),
            "no" => Some(false),
            _ => None,
        }
    }

    fn write<W: fmt::Write>(value: bool, f: &mut fmt::Formatter<W>) -> fmt::Result {
        f.write_str(if value { "yes" } else { "no" })
    }
}

// A number up to 4,294,967,295.
impl Notation for Cost {
    const NAME: &'static str = "cost";

    fn read(word: &str) -> Option<u32> {
        number(word)
    }

    fn write<W: fmt::Write>(value: u32, f: &mut fmt::Formatter<W>) -> fmt::Result {
        write!(f, "{value}")
    }
}

// A number up to 255.
impl Notation for Depth {
    const NAME: &'static str = "depth";

    fn read(word: &str) -> Option<u8> {
        number(word)
    }

    fn write<W: fmt::Write>(value: u8, f: &mut fmt::Formatter<W>) -> fmt::Result {
        write!(f, "{value}")
    }
}

// `none`, or what is set and what is passed on with a `/` between.
impl Notation for Marks {
    const NAME: &'static str = "marks";

    fn read(word: &str) -> Option<Option<Marking>> {
        if word == "none" {
            return Some(None);
        }
        let (sets, passes) = word.split_once('/')?;
        Some(Some(Marking {
            sets: hexadecimal(sets)?,
            passes: hexadecimal(passes)?,
        }))
    }

    fn write<W: fmt::Write>(value: Option<Marking>, f: &mut fmt::Formatter<W>) -> fmt::Result {
        match value {
            None => f.write_str("none"),
            Some(Marking { sets, passes }) => write!(f, "{sets:#x}/{passes:#x}"),
        }
    }
}

// Phases from 0 to 63 with commas between, or `-` for no phase at all.
impl Notation for Phase {
    const NAME: &'static str = "phase";

    fn read(word: &str) -> Option<u64> {
        if word == "-" {
            return Some(0);
        }
        word.split(',').try_fold(0, |set, phase| {
            Some(set | 1u64.checked_shl(number(phase)?)?)
        })
    }

    fn write<W: fmt::Write>(value: u64, f: &mut fmt::Formatter<W>) -> fmt::Result {
        let mut phases = Ones(value);
        let Some(first) = phases.next() else {
            return f.write_str("-");
        };
        write!(f, "{first}")?;
        for phase in phases {
            write!(f, ",{phase}")?;
        }
        Ok(())
    }

    fn title<W: fmt::Write>(&self, f: &mut fmt::Formatter<W>) -> fmt::Result {
        write!(f, "{} {}", Self::NAME, self.modulus())
    }
}
