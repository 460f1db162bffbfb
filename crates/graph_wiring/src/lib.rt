//! Which rule on its wiring a graph breaks first, and at which block or channel.
#![tactic(auto)]

mod cycles;
mod faults;
mod ports;
mod search;
mod tops;

pub use faults::{WiringFault, wiring_fault};
