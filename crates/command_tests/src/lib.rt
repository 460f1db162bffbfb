//! Tests of the commands: transcripts of worked cases through the one call over files and sinks in memory, threads that meet at a
//! gate, and the adapters over real files and the standard streams.
//!
//! They stand in a crate of their own, so that the crates that they test are proved once.
#![tactic(auto)]

#[cfg(test)]
mod chains;
#[cfg(test)]
mod channels;
#[cfg(test)]
mod command_lines;
#[cfg(test)]
mod dense_results;
#[cfg(test)]
mod expressions;
#[cfg(test)]
mod faults;
#[cfg(test)]
mod fused;
#[cfg(test)]
mod graphs;
#[cfg(test)]
mod limits;
#[cfg(test)]
mod meeting;
#[cfg(test)]
mod options;
#[cfg(test)]
mod outside;
#[cfg(test)]
mod refusals;
#[cfg(test)]
mod results;
#[cfg(test)]
mod sizes;
#[cfg(test)]
mod threads;
#[cfg(test)]
mod transcripts;
#[cfg(test)]
mod verify;
