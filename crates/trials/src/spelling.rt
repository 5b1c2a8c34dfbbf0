// In how many ways expressions spell a list of steps, counted by the rules, record after record.
use crate::lists::LONGEST;
use expressions::{Kind, Record};
use std::alloc::{AllocError, Global};

// The places between the steps of a list, and those at its ends.
const PLACES: usize = LONGEST + 1;

// How often an expression spells each part of a list: the part from one place to another.
#[derive(Clone, Copy)]
struct Ways([[u64; PLACES]; PLACES]);

impl Ways {
    // No part is spelled.
    fn none() -> Ways {
        Ways([[0; PLACES]; PLACES])
    }

    fn get(&self, from: usize, to: usize) -> u64 {
        self.0
            .get(from)
            .and_then(|row| row.get(to))
            .copied()
            .unwrap_or(0)
    }

    fn set(&mut self, from: usize, to: usize, ways: u64) {
        if let Some(part) = self.0.get_mut(from).and_then(|row| row.get_mut(to)) {
            *part = ways;
        }
    }

    // So many ways for each part. No part ends before it begins.
    fn from_fn<F: Fn(usize, usize) -> u64>(ways: F) -> Ways
        requires { F.IsAlwaysCallable ways }
    {
        let mut parts = Ways::none();
        // The counters are the places themselves.
        for from in 0..PLACES {
            for to in from..PLACES {
                parts.set(from, to, ways(from, to));
            }
        }
        parts
    }

    // The empty parts are spelled once.
    fn stay() -> Ways {
        Ways::from_fn(|from, to| u64::from(from == to))
    }

    // The parts that are this step alone are spelled once.
    fn step(list: &[usize], step: usize) -> Ways {
        let mut ways = Ways::none();
        for (from, only) in list.iter().enumerate() {
            if *only == step {
                ways.set(from, from + 1, 1);
            }
        }
        ways
    }

    fn sum(&self, other: &Ways) -> Ways {
        Ways::from_fn(|from, to| self.get(from, to).saturating_add(other.get(from, to)))
    }

    // A part is cut in two at its places from the first on: this spells what is before the cut, the other what is after.
    fn cuts(&self, other: &Ways, first: usize, from: usize, to: usize) -> u64 {
        (first..=to)
            .map(|cut| self.get(from, cut).saturating_mul(other.get(cut, to)))
            .fold(0, |ways: u64, more| ways.saturating_add(more))
    }

    fn then(&self, other: &Ways) -> Ways {
        Ways::from_fn(|from, to| self.cuts(other, from, from, to))
    }

    // An empty part is spelled once. Any other is cut where the first round ends, which is not empty; the later a part begins the
    // earlier it is counted, since the other rounds are a part that begins later.
    fn repeat(&self) -> Ways {
        let mut ways = Ways::stay();
        // The counters are the places themselves: a part is counted from those that were written before it.
        for from in (0..PLACES).rev() {
            for to in from + 1..PLACES {
                ways.set(from, to, self.cuts(&ways, from + 1, from, to));
            }
        }
        ways
    }
}

// The ways of the record of this number, none where there is no such record yet.
fn known_ways(known: &[Ways], number: u32) -> Ways {
    known
        .get(number as usize)
        .copied()
        .unwrap_or_else(Ways::none)
}

// The ways of a record, from those of the lower ones.
fn count(list: &[usize], known: &[Ways], record: Record) -> Ways {
    let left = known_ways(known, record.left);
    let right = known_ways(known, record.right);
    match Kind::try_from(record.kind) {
        Ok(Kind::Stay) => Ways::stay(),
        Ok(Kind::Step) => Ways::step(list, record.left as usize),
        Ok(Kind::Sum) => left.sum(&right),
        Ok(Kind::Then) => left.then(&right),
        Ok(Kind::Repeat) => left.repeat(),
        Ok(Kind::Nothing) | Err(_) => Ways::none(),
    }
}

// In how many ways each record spells the whole list.
pub(crate) fn spell(
    heap: Global,
    records: &[Record],
    list: &[usize],
) -> Result<Vec<u64>, AllocError> {
    let mut known = Vec::new(heap);
    for record in records {
        let ways = count(list, known.as_slice(), *record);
        known.push(ways)?;
    }
    known
        .iter()
        .map(|ways| ways.get(0, list.len()))
        .collect(heap)
}
