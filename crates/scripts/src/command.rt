// The commands of a script, and how the words of a line are read as one.
use crate::Vocabulary;
use crate::notation::{Notation, number};
use algebras::{Cost, Depth, Marking, Marks, Phase, Reach};
use refusals::Buffer;
use std::alloc::{AllocError, Global};

// An algebra, by its name.
#[derive(Clone, Copy)]
pub(crate) enum AlgebraName {
    Reach,
    Cost,
    Depth,
    Marks,
    Phase,
}

// The weight of a step in one algebra.
#[derive(Clone, Copy)]
pub(crate) enum Weight {
    Reach(bool),
    Cost(u32),
    Depth(u8),
    Marks(Option<Marking>),
    Phase(u64),
}

#[derive(Drop)]
pub(crate) enum Command {
    Help(Vocabulary),
    Modulus(u64),
    Weigh(u8, Weight),
    Chain(Vec<u8>),
    Room(Buffer, usize),
    Open(usize),
    Add(usize, usize),
    Retire(usize),
    Restore(usize),
    Steps,
    Seal,
    Reopen,
    Size,
    Records,
    Plan,
    Trace(usize),
    Query(AlgebraName, usize),
}

// The words of a line: what stands before a `#`, cut at blanks.
pub(crate) fn words<'a>(heap: Global, line: &'a str) -> Result<Vec<&'a str>, AllocError> {
    let text = match line.split_once('#') {
        Some((before, _)) => before,
        None => line,
    };
    text.split_whitespace().collect(heap)
}

impl AlgebraName {
    // Not `FromStr`: readers of words answer `None` for any word that does not fit, so its error would be dropped at each use.
    fn read(word: &str) -> Option<AlgebraName> {
        match word {
            Reach::NAME => Some(AlgebraName::Reach),
            Cost::NAME => Some(AlgebraName::Cost),
            Depth::NAME => Some(AlgebraName::Depth),
            Marks::NAME => Some(AlgebraName::Marks),
            Phase::NAME => Some(AlgebraName::Phase),
            _ => None,
        }
    }
}

impl Weight {
    fn read(algebra: AlgebraName, value: &str) -> Option<Weight> {
        // Five arms, since their weights are of five types and no function hands out a `dyn`.
        match algebra {
            AlgebraName::Reach => Reach::read(value).map(Weight::Reach),
            AlgebraName::Cost => Cost::read(value).map(Weight::Cost),
            AlgebraName::Depth => Depth::read(value).map(Weight::Depth),
            AlgebraName::Marks => Marks::read(value).map(Weight::Marks),
            AlgebraName::Phase => Phase::read(value).map(Weight::Phase),
        }
    }
}

// A buffer whose length a script may choose, and the greatest length that it may have.
fn buffer(word: &str) -> Option<(Buffer, usize)> {
    // The names that `Buffer` prints, since a word can be compared with what is printed only through a string on the heap.
    match word {
        "steps" => Some((Buffer::Steps, 512)),
        "records" => Some((Buffer::Records, 262144)),
        "heads" => Some((Buffer::Heads, 4096)),
        "row" => Some((Buffer::Row, 64)),
        "weights" => Some((Buffer::Weights, 512)),
        "memo" => Some((Buffer::Memo, 262144)),
        "answers" => Some((Buffer::Answers, 64)),
        _ => None,
    }
}

fn room(word: &str, length: &str) -> Option<Command> {
    let (buffer, most) = buffer(word)?;
    let length = number(length)?;
    (length <= most).then_some(Command::Room(buffer, length))
}

// A chain of any number of steps.
fn chain(heap: Global, words: &[&str]) -> Result<Option<Command>, AllocError> {
    let mut steps = Vec::new(heap);
    for word in words {
        let Some(step) = number(word) else {
            return Ok(None);
        };
        steps.push(step)?;
    }
    Ok(Some(Command::Chain(steps)))
}

// A command of every vocabulary, with a fixed number of words.
fn drawing(vocabulary: Vocabulary, words: &[&str]) -> Option<Command> {
    match words {
        ["help"] => Some(Command::Help(vocabulary)),
        ["modulus", m] => Some(Command::Modulus(number(m)?)),
        ["weigh", j, algebra, value] => Some(Command::Weigh(
            number(j)?,
            Weight::read(AlgebraName::read(algebra)?, value)?,
        )),
        ["open", n] => Some(Command::Open(number(n)?)),
        ["add", from, to] => Some(Command::Add(number(from)?, number(to)?)),
        ["retire", j] => Some(Command::Retire(number(j)?)),
        ["restore", j] => Some(Command::Restore(number(j)?)),
        ["steps"] => Some(Command::Steps),
        _ => None,
    }
}

// A command of asking alone.
fn asking(words: &[&str]) -> Option<Command> {
    match words {
        ["room", buffer, length] => room(buffer, length),
        ["seal"] => Some(Command::Seal),
        ["reopen"] => Some(Command::Reopen),
        ["size"] => Some(Command::Size),
        ["records"] => Some(Command::Records),
        ["plan"] => Some(Command::Plan),
        ["trace", source] => Some(Command::Trace(number(source)?)),
        ["query", algebra, source] => {
            Some(Command::Query(AlgebraName::read(algebra)?, number(source)?))
        }
        _ => None,
    }
}

// The command of a vocabulary that the words of a line are, if they are one.
pub(crate) fn read(
    heap: Global,
    vocabulary: Vocabulary,
    words: &[&str],
) -> Result<Option<Command>, AllocError> {
    match words {
        ["chain", steps @ ..] => chain(heap, steps),
        _ => match vocabulary {
            Vocabulary::Drawing => Ok(drawing(vocabulary, words)),
            Vocabulary::Asking => Ok(drawing(vocabulary, words).or_else(|| asking(words))),
        },
    }
}
