//! Which labels the channels at a block may have over a program, and that its streams are then those of its labels.
#![tactic(auto)]

mod allowed;
mod kinds;
mod plans;

pub use allowed::{ports_are_filled, rules_hold, test_is_exact};
pub use kinds::{
    addition_laws, array_law, constant_law, copy_laws, dropper_laws, fill_law, intersect_law,
    product_law, reducer_laws, repeat_law, root_law, scan_law, union_law, writer_laws,
};
pub use plans::{Access, Plan, term_plan};
