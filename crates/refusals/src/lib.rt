// Why a call of the engine is refused, as one enum for every layer.
//
// `Refusal` is the error of every call that can refuse. What the caller is promised of it is its number and the values
// that come with it, as `specs/Refused.antt` lists them.
#![tactic(auto)]

ghost use Rattle.std.specs.Prelude.{◌≡◌};
ghost use Rattle.refusals.specs.Refused.{listed, buffer_number};

use std::fmt;
use thiserror::Error;

// A buffer that a caller lends to the engine.
#[derive(Clone, Copy, PartialEq, Eq, Debug)]
pub enum Buffer {
    Steps = 1,
    Records = 2,
    Heads = 3,
    Row = 4,
    Weights = 5,
    Memo = 6,
    Answers = 7,
    Plan = 8,
}

impl Buffer {
    // The number by which refusals name this buffer, 1 to 8.
    pub fn number(self) -> usize
        ensures { result ≡ buffer_number self }
    {
        self as usize
    }
}

#[derive(Clone, Copy, PartialEq, Eq, Debug, Error)]
pub enum Refusal {
    #[error("a network has 1 to 32 formats")]
    FormatCount,
    // A format's number is not below the number of formats.
    #[error("there is no format of that number, they count from 0")]
    NoSuchFormat,
    // A network has 256 steps, or as many as the step buffer holds.
    #[error("there is no room for another step, a network has at most 256")]
    StepsFull,
    #[error("there is no step of that number, they count from 0 as added")]
    NoSuchStep,
    // The step is retired already, or in force already.
    #[error("retire takes a step in force, restore a retired one")]
    AlreadySo,
    #[error("the buffer of {0} is too short, lend a longer one")]
    TooShort(Buffer),
    #[error("the buffer of {0} is damaged, lend the one that holds this network")]
    Damaged(Buffer),
    // The weight of this step, which is in force, is no member of the algebra.
    #[error("the weight of step {0} is no member of the algebra")]
    NotAMember(usize),
    // A new record would pass this count of records that the store may use.
    #[error("the store is full at {0} records, lend more of them")]
    StoreFull(usize),
    // A modulus lies outside 1 to 60.
    #[error("a modulus is a number from 1 to 60")]
    ModulusRange,
}

impl Refusal {
    // The number of the refusal, 1 to 10. A match, since `as` takes only an enum whose variants have no fields.
    pub fn number(self) -> usize
        ensures { result ≡ (listed self).0 }
    {
        match self {
            Refusal::FormatCount => 1,
            Refusal::NoSuchFormat => 2,
            Refusal::StepsFull => 3,
            Refusal::NoSuchStep => 4,
            Refusal::AlreadySo => 5,
            Refusal::TooShort(_) => 6,
            Refusal::Damaged(_) => 7,
            Refusal::NotAMember(_) => 8,
            Refusal::StoreFull(_) => 9,
            Refusal::ModulusRange => 10,
        }
    }

    // The value that comes with the number, if one does: a buffer's number, a step or a count of records.
    pub fn value(self) -> Option<usize>
        ensures { result ≡ (listed self).1 }
    {
        match self {
            Refusal::TooShort(buffer) => Some(buffer.number()),
            Refusal::Damaged(buffer) => Some(buffer.number()),
            Refusal::NotAMember(step) => Some(step),
            Refusal::StoreFull(count) => Some(count),
            _ => None,
        }
    }
}

// Written out, since no derive prints a variant in lower case.
impl fmt::Display for Buffer {
    fn fmt<W: fmt::Write>(&self, f: &mut fmt::Formatter<W>) -> fmt::Result {
        f.write_str(match *self {
            Buffer::Steps => "steps",
            Buffer::Records => "records",
            Buffer::Heads => "heads",
            Buffer::Row => "row",
            Buffer::Weights => "weights",
            Buffer::Memo => "memo",
            Buffer::Answers => "answers",
            Buffer::Plan => "plan",
        })
    }
}
