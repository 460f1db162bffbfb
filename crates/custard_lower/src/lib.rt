//! The lowering of a program to a graph of blocks, after Custard, the compiler of the Sparse Abstract Machine.
#![tactic(auto)]

mod drafts;
mod fans;
mod laws;
mod lowering;
mod nests;
mod plans;
mod programs;
mod reductions;
mod trees;
mod unions;
mod values;
mod wiring;

pub use drafts::{Draft, Made};
pub use laws::labels_are_allowed;
pub use lowering::{rooted, with_writers};
pub use nests::Nest;
pub use plans::NumberedPlan;
pub use programs::lower;
pub use reductions::{Levels, free_loops};
pub use trees::{PrunedTrees, TermTrees};
pub use values::Valued;
pub use wiring::graph_of;
