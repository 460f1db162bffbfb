//! Runs of a graph that computes a program's tensor, as the words ask for them: the capacities of its channels, the schedule that is played first, and
//! what is answered where the run ends; and how much room a run needs.
#![tactic(auto)]

mod capacities;
mod laws;
mod results;
mod running;
mod setup;
mod sizing;

pub use laws::{
    ample_room_finishes, runs_to_one_answer, runs_to_some_answer, sizes_to_one_answer,
    sufficing_is_sized, unlimited_finishes,
};
pub use results::{print_result, program_result};
pub use running::run_program;
pub use setup::{Setup, given_capacities, run_setup};
pub use sizing::size_program;
