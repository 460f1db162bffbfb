//! Graphs of blocks and channels, and the whole stream of each channel.
#![tactic(auto)]

mod graphs;
mod order;
mod ports;
mod wiring;

ghost use Rattle.graph.specs.Laws.{StreamsAreGiven, OnlyWholeStreams, CarriedAreWhole, CarriedAreConsistent};

pub use graphs::{Block, Channel, Graph, Kind};
pub use order::forward_order;
pub use wiring::{misfit_block, stray_channel, well_formed};

/// In a well formed graph the whole stream of each channel is the one that its block gives from its whole inputs.
pub fn streams_are_given()
    ensures { StreamsAreGiven }
{}

/// Streams of the channels of a well formed graph, each of which its block gives from those at its inputs, are the whole
/// streams.
pub fn only_whole_streams()
    ensures { OnlyWholeStreams }
{}

/// Streams of the channels of a well formed graph that every block passes on, as its kind says, are the whole streams, and
/// the graph is consistent.
///
/// So whoever knows a stream for each channel, as the one that its label names, need only look at one block at a time.
pub fn carried_streams()
    ensures whole { CarriedAreWhole }
    ensures consistent { CarriedAreConsistent }
{}
