//! The graph that JSON spells.
#![tactic(auto)]

mod blocks;
mod channels;
mod graphs;
mod kinds;
mod values;

ghost use Rattle.graph_reading.specs.Form.{TextsAreRead};

pub use graphs::read_graph;
pub use values::GraphFault;

/// The text of each graph is read as that graph.
pub fn texts_are_read()
    ensures { TextsAreRead }
{}
