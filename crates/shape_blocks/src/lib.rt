//! The blocks that shape a result: the two droppers and the filler.
//!
//! The droppers take away what came to nothing: coordinates without a value, and coordinates whose fiber is empty. The
//! filler brings the fibers of one term beneath the coordinates of a joined stream. The droppers are those of the Sparse
//! Abstract Machine.
#![tactic(auto)]

mod drop_fiber;
mod drop_value;
mod fill;
mod fill_state;

pub use drop_fiber::FiberDropper;
pub use drop_value::ValueDropper;
pub use fill::Filler;
