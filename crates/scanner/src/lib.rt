//! The block that reads a level of a stored tensor: beneath each reference it puts the children there.
#![tactic(auto)]

mod scan;
mod scan_state;

pub use scan::Scanner;
