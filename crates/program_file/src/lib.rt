//! Program files: declarations of tensors and of a result, a statement, and its loops.
#![tactic(auto)]

mod accesses;
mod chains;
mod checks;
mod copies;
mod declarations;
mod faults;
mod files;
mod groups;
mod keywords;
mod names;
mod numbers;
mod programs;
mod statements;
mod sums;

pub use chains::read_chain;
pub use faults::ProgramFault;
pub use programs::read_program;
