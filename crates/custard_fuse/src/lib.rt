//! The fused lowering: terms are united at the scanners, level by level, and not as finished terms.
#![tactic(auto)]

mod fusing;
mod laws;
mod programs;
mod sharing;

pub use laws::{fused_graph_carries, fused_rules_hold};
pub use programs::fuse;
