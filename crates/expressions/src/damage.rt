// Tests of lent buffers, whatever they hold.
ghost use Rattle.std.specs.Prelude.{◌≡◌, Decides};
ghost use Rattle.expressions.specs.Layout.{in_force, well_formed, linked, names_in_force, record_sound, records_sound, heads_sound, SoundRecords, SoundHeads};

use crate::{Kind, Record, Step};

// Whether step j was added and is in force.
fn in_force(steps: &[Step], j: u32) -> bool
    ensures { result ≡ in_force steps.now j }
{
    steps.get(j as usize).is_some_and(|step| step.in_force)
}

// Whether the kind, left and right of record i keep the layout.
fn well_formed(i: usize, entry: Record) -> bool
    ensures { result ≡ well_formed i entry }
{
    let left = entry.left as usize;
    let right = entry.right as usize;
    if i < 2 {
        return entry.kind as usize == i && left == 0 && right == 0;
    }
    match Kind::try_from(entry.kind) {
        Ok(Kind::Step) => right == 0,
        Ok(Kind::Sum | Kind::Then) => left < i && right < i,
        Ok(Kind::Repeat) => left < i && right == 0,
        Ok(Kind::Nothing | Kind::Stay) | Err(_) => false,
    }
}

// Whether the next of record i is 0, or lower than i.
fn linked(i: usize, entry: Record) -> bool
    ensures { result ≡ linked i entry }
{
    let next = entry.next as usize;
    next == 0 || next < i
}

// Whether a record that names a step names one in force.
fn names_in_force(steps: &[Step], entry: Record) -> bool
    ensures { result ≡ names_in_force steps.now entry }
{
    entry.kind != Kind::Step.number() || in_force(steps, entry.left)
}

// Whether record i is as it should be.
fn record_sound(steps: &[Step], i: usize, entry: Record) -> bool
    ensures { result ≡ record_sound steps.now i entry }
{
    well_formed(i, entry) && linked(i, entry) && names_in_force(steps, entry)
}

// Whether none of the records in use is damaged.
pub fn records_sound(steps: &[Step], records: &[Record]) -> bool
    ensures value { result ≡ records_sound steps.now records.now }
    ensures exact { Decides result (SoundRecords steps.now records.now) }
{
    records
        .iter()
        .enumerate()
        .all(|(i, record)| record_sound(steps, i, *record))
}

// Whether every head is below the count of records.
pub fn heads_sound(count: usize, heads: &[u32]) -> bool
    ensures value { result ≡ heads_sound count heads.now }
    ensures exact { Decides result (SoundHeads count heads.now) }
{
    heads.iter().all(|head| (*head as usize) < count)
}
