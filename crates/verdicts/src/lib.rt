//! The verdict on a graph that a file spells: how the file is read, and what is answered of the graph.
#![tactic(auto)]

mod reading;
mod verifying;

pub use verifying::verify_program;
