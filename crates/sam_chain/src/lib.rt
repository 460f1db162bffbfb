//! Chains of statements: each statement reads the declared tensors and the results of those before it.
#![tactic(auto)]

mod entries;
mod laws;
mod run;

pub use entries::entries_of;
pub use laws::last_is_printed;
pub use run::ChainRun;
