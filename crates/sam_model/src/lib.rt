//! Programs, tensors and their entries; in `specs/`, what a program denotes.
#![tactic(auto)]

mod acceptance;
mod expressions;
mod program;
mod tensors;

pub use acceptance::{
    are_below, are_dimensions, ascending, distinct, distinct_names, fits_by_terms, has_access,
    is_in, is_named, is_order, is_taken, item_at, reduces, statement_fits, term_has,
};
pub use expressions::{Expr, Top};
pub use program::{Chain, Factor, Program, Term};
pub use tensors::{Entries, Format, Tensor, Written};
