//! Lines, words, names and decimals of a text of bytes.
#![tactic(auto)]

mod bytes;
mod decimals;
mod lines;
mod numbers;
mod places;
mod words;

pub use bytes::{is_blank, is_digit, is_letter, is_name, is_name_byte};
pub use decimals::{digits_at, first_decimal};
pub use lines::{Line, Lines};
pub use numbers::{NumFault, read_u64};
pub use places::{line_at, word_at};
pub use words::{first_word, is_skipped};
