// Networks of picture formats and of the steps between them.
#![tactic(auto)]

mod draft;
mod plan;
mod plans;
mod seal;
mod states;

pub use plan::Plan;
pub use seal::steps_sound;
pub use states::{Draft, NotSealed, Sealed};
