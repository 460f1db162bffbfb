//! Graphs as JSON.
#![tactic(auto)]

mod tables;
mod texts;

pub use texts::graph_text;
