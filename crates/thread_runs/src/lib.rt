//! Runs of a program's graph with a thread for every block, and the text of what they leave.
#![tactic(auto)]

mod limits;
mod running;

pub use limits::threads_for;
pub use running::run_threads;

/// The most blocks of a graph that runs with a thread for every block.
pub const THREADS_MOST: usize = 256;

/// The capacity of every channel of such a run, where none is given.
pub const RUN_CAPACITY: u32 = 65_536;
