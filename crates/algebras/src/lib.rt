// Five Kleene algebras, in which the routes of a network of picture formats are read. They differ in kind (booleans, numbers that
// are held at their greatest, bytes, pairs of marks, sets to a modulus), so each is an implementation of its own.
#![tactic(auto)]

mod cost;
mod depth;
mod marks;
mod phase;
mod reach;

pub use cost::Cost;
pub use depth::Depth;
pub use marks::{Marking, Marks};
pub use phase::Phase;
pub use reach::Reach;
