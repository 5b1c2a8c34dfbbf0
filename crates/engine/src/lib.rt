// The route engine: tracing a sealed network from a format, and querying it in an algebra.
#![tactic(auto)]

mod calls;
mod checks;
mod sweeps;
mod tracer;
mod tracks;

pub use calls::{query, trace};
