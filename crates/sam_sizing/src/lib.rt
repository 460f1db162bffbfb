//! The least capacity under which a run of a graph finishes.
#![tactic(auto)]

mod bounds;
mod least;
mod maker;
mod trial;

pub use least::{Least, least_capacity};
pub use maker::Maker;
