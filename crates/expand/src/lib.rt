//! The terms of an expression, and that they mean the same.
#![tactic(auto)]

mod copies;
mod count;
mod equality;
mod faults;
mod laws;
mod programs;
mod scopes;
mod statements;
mod terms;

pub use faults::ExpandFault;
pub use laws::{products_stay, terms_denote};
pub use programs::accepted;
pub use scopes::{bound_vars, has_free, implied_vars};
pub use statements::expand;
