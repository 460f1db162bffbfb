//! What passes over the channels of a graph, as text: all of it, or what was sent until a schedule ends.
#![tactic(auto)]

mod laws;
mod lines;
mod traces;

pub use laws::moments_are_beginnings;
pub use traces::{moment, streams};
