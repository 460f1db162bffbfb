//! What a command reads, as parts: the programs of a program file, and the tensors that it declares, as they are stored.
#![tactic(auto)]

mod programs;
mod tensors;

pub use programs::{chain, many_statements, program};
pub use tensors::{storage, storages};
