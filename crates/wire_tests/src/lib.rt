//! Tests of wires: that what goes over them goes in packets, which no contract says.
//!
//! They stand in a crate of their own, so that the crates that they test are proved once.
#![tactic(auto)]

#[cfg(test)]
mod packets;
#[cfg(test)]
mod works;
