//! Tests of the run of a chain.
#![tactic(auto)]

#[cfg(test)]
mod rows;
#[cfg(test)]
mod running;
