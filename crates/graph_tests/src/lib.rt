//! Tests of labels and graphs: what no clause of theirs says, apart from their proofs so that those aren't done twice.
#![tactic(auto)]

#[cfg(test)]
mod building;
#[cfg(test)]
mod faults;
#[cfg(test)]
mod labels;
#[cfg(test)]
mod wiring;
