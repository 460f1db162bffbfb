//! A thread for every block of a graph, on wires that carry its whole streams.
#![tactic(auto)]

mod gate;
mod hands;
mod nest;
mod run;
mod wires;
mod working;

pub use gate::{Gate, OpenGate};
pub use run::run_graph;
pub use working::{Worked, work};
