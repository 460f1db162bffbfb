//! What passes over the channels of a lowered graph: each channel's label names a tree and what is told of each prefix.
#![tactic(auto)]

mod labels;
mod texts;

pub use labels::{Attr, Label, Side, Tree};
pub use texts::label_text;
