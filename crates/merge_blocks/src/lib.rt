//! The blocks that merge two sides by their coordinates, as in the Sparse Abstract Machine: the intersecter and the
//! unioner.
//!
//! A side has a stream of coordinates, which ascend in each fiber, and payloads of the same shape. Both blocks are the same
//! machine, a merger, which takes and puts a row of ports at a time. They differ in one thing: the unioner also puts the
//! coordinates that one side alone has.
#![tactic(auto)]

mod intersect;
mod merger;
mod union_block;

pub use intersect::Intersecter;
pub use union_block::Unioner;
