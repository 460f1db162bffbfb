//! What every crate of the product speaks of: lists, limits, faults and their texts.
#![tactic(auto)]

mod faults;
mod lists;
mod texts;

pub use faults::{Fault, NoteKind, ProgramKind, Rule, TnsKind, Waiting, status};
pub use lists::{Items, Name, Nums};
pub use texts::{fault_text, waiting_lines};

/// The most bytes of one file.
pub const FILE_MOST: usize = 67_108_864;

/// The most entries of one tensor file.
pub const ENTRIES_MOST: usize = 4_194_304;

/// The most stored prefixes of one length in one tensor.
pub const POSITIONS_MOST: u64 = 16_777_216;

/// The greatest dimension; the least is 1.
pub const DIMENSION_MOST: u64 = 2_147_483_647;

/// The most variables of a statement, and dimensions of a tensor.
pub const VARIABLES_MOST: usize = 8;

/// The most statements of a program file.
pub const STATEMENTS_MOST: usize = 8;

/// The most factors of a term, literals included.
pub const FACTORS_MOST: usize = 8;

/// The most terms of a statement.
pub const TERMS_MOST: usize = 16;

/// The greatest capacity of a channel; the least is 1.
pub const CAPACITY_MOST: u32 = 1_048_576;

/// The greatest number of the generated workload; the least is 1.
pub const LARGE_MOST: u32 = 262_144;
