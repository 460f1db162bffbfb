//! Whether a graph computes the tensor of a program: the rules that its blocks and channels have to meet.
#![tactic(auto)]

mod choices;
mod joins;
mod kinds;
mod labels;
mod laws;
mod merges;
mod names;
mod plans;
mod reductions;
mod rules;
mod terms;
mod verdict;
mod writers;

pub use labels::labels_fault;
pub use laws::{lowered_graph_meets, rules_suffice};
pub use verdict::{Verdict, verify_graph};
pub use writers::writers_fault;
