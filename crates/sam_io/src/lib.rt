//! The outside: files by their names, sinks of bytes, and the two calls that read and write a
//! whole text.
//!
//! What is above this crate speaks to the outside by the traits [`Files`] and [`Sink`] alone.
//! [`MemFiles`] and [`MemSink`] keep it in memory, with calls that fail by number; [`SysFiles`]
//! and [`SysSink`] are the real files and the standard streams.
#![tactic(auto)]

mod memory;
mod outside;
mod system;
mod whole;

pub use memory::{MemFiles, MemSink};
pub use outside::{Failed, Files, Opened, Sink};
pub use system::{SysFiles, SysSink};
pub use whole::{ReadEnd, read_whole, write_whole};
