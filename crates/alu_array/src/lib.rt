//! The blocks that change single tokens, or two side by side: the array, the arithmetic unit, the constant and the root.
#![tactic(auto)]

mod alu_block;
mod array_block;
mod change;
mod constant_block;
mod operation;
mod root_block;

pub use alu_block::Alu;
pub use array_block::Array;
pub use constant_block::Constant;
pub use operation::{Op, combine};
pub use root_block::Root;
