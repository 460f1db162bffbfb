//! The machine on one thread: the blocks of a graph with a queue for each channel, and one event at a time.
#![tactic(auto)]

mod at;
mod ends;
mod laws;
mod line;
mod machine;
mod queue;
mod routes;
mod tap;

pub use laws::{
    all_is_sent, always_part_way, graphs_are_wired, more_room_never_hurts, move_count, one_end,
    queues_are_part, room_suffices,
};
pub use machine::{Capacities, Ending, Machine, Stepped};
pub use tap::{KeepAll, NoTap, Tap};
