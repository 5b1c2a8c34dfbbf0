// What the engine is for: a client that rests on its promises, and small networks that are worked out.
#![tactic(auto)]

mod around;
mod examples;

pub use around::around_a_loop;
pub use examples::worked_examples;
