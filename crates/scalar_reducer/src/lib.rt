//! The block that sums each fiber of values, under the stream of the loop around it.
//!
//! The enclosing stream decides between one sum over nothing and no sum at all, which the values alone cannot tell.
#![tactic(auto)]

mod scalar;

pub use scalar::ScalarReducer;
