//! Tests of the machines on a lowered graph: one step at a time, to the end, with a thread for every block, and where memory is
//! refused to one block.
//!
//! They stand in a crate of their own, so that the crates that they test are proved once.
#![tactic(auto)]

#[cfg(test)]
mod product;
#[cfg(test)]
mod stepping;
#[cfg(test)]
mod threads;
