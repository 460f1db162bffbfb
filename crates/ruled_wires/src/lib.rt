//! Wires: channels that carry a fixed stream of tokens from one thread to another, each under a rule.
//!
//! A wire has two ends. Under any schedule of the two threads, what its channel holds are the tokens of the stream that were
//! sent and not received, in order, alone or in packets; a sender that can't go on puts `Lost` in place of the rest.
#![tactic(auto)]

mod ends;
mod known;
mod laws;
mod message;
mod rule;
mod sending;
mod streams;
mod taking;

pub use ends::{Rx, Tx, wire};
pub use laws::{ends_join, ends_may_cross};
pub use message::{PACKET_MOST, Sent};
pub use sending::flush;
pub use streams::Streams;
