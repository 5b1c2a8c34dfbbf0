// The language of scripts: what its commands are, how they are read, and what each does and prints.
#![tactic(auto)]

mod command;
mod current;
mod fault;
mod house;
mod listing;
mod notation;
mod readings;
mod rooms;
mod running;
mod session;
#[cfg(test)]
mod tests;
mod vocabulary;

pub use running::run;
pub use session::Session;
pub use vocabulary::Vocabulary;
