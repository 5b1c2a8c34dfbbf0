// Path expressions as records that share equal parts, in memory that the caller lends.
#![tactic(auto)]

mod damage;
mod kind;
mod laws;
mod reading;
mod store;

pub use damage::{heads_sound, records_sound};
pub use kind::{Kind, NoKind};
pub use laws::{readings_mean, ways_mean};
pub use reading::read;
pub use store::Store;

// A conversion step as the step buffer holds it: the format that it leaves, the one where it ends, and whether it is in
// force.
#[derive(Clone, Copy, PartialEq, Eq, Debug, Default)]
pub struct Step {
    pub from: u32,
    pub to: u32,
    pub in_force: bool,
}

// An expression. Its kind is the number of a `Kind`; the left of a step is the step's number, other lefts and rights are numbers
// of lower records. The next is the record after this one in its chain, 0 at the end. All are plain numbers, since a lent buffer
// may hold anything.
#[derive(Clone, Copy, PartialEq, Eq, Debug, Default)]
pub struct Record {
    pub kind: u32,
    pub left: u32,
    pub right: u32,
    pub next: u32,
}

// The number of the expression nothing, which spells no route.
pub const NOTHING: u32 = 0;

// The number of the expression stay, which spells the empty route alone.
pub const STAY: u32 = 1;

// The chains by which equal records are found.
pub const CHAINS: usize = 1024;

// The most records that a store uses.
pub const MOST_RECORDS: usize = 131072;
