//! The blocks that sum over a loop which has result loops inside it: the vector and the matrix reducer.
//!
//! Both keep coordinates with sums in ordered maps, so that what they put ascends.
#![tactic(auto)]

mod matrix;
mod sums;
mod vector;

pub use matrix::MatrixReducer;
pub use vector::VectorReducer;
