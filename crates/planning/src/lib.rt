// What sealing a network needs: its components and their order, and elimination in the expression store.
#![tactic(auto)]

mod components;
mod eliminating;
mod listing;
mod rows;
mod table;

pub use components::{Components, list};
pub use listing::{group, order};
pub use rows::Row;
pub use table::Table;
