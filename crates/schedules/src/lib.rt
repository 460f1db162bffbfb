//! Schedule files: whose turn it is, line by line.
#![tactic(auto)]

mod reading;
mod turns;

pub use reading::schedule;
