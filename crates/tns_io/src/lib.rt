//! Tensor files in, results out: reads the entries of a `.tns` file, and writes the text of a result.
#![tactic(auto)]

mod closing;
mod entries;
mod faults;
mod fields;
mod paths;
mod plain;
mod results;
mod values;

pub use closing::close_result;
pub use entries::read_tns;
pub use faults::{CloseFault, TnsFault};
pub use paths::Walk;
pub use results::{append_number, append_signed, coordinate_of, result_text};
