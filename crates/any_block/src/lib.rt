//! The blocks of every kind as one type.
#![tactic(auto)]

mod assembly;
mod blocks;
mod gathering;

pub use assembly::assemble;
pub use blocks::AnyBlock;
pub use gathering::gather;
