//! The blocks that keep a result: one level's segments and coordinates, or the values.
//!
//! They are the writers of the Sparse Abstract Machine. Each takes one stream to its end and puts nothing; what it wrote is
//! read from the block without a copy.
#![tactic(auto)]

mod level;
mod value;

pub use level::LevelWriter;
pub use value::ValueWriter;
