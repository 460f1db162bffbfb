//! Statements in tensor index notation, read from their text by one pass over its bytes.
#![tactic(auto)]

mod levels;
mod reading;
mod state;
mod statement;
mod step;
mod tokens;
mod trees;

pub use reading::read_statement;
pub use statement::{AccessText, ExprText, NoteFault, Statement, TopText};
