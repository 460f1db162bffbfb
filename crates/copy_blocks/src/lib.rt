//! The blocks that copy tokens or let them go: the repeater, the broadcast and the drain.
#![tactic(auto)]

mod cast_block;
mod drain_block;
mod repeat;

pub use cast_block::Cast;
pub use drain_block::Drain;
pub use repeat::Repeater;
