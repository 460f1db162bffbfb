//! The words of a command line, read by `clap` as one simple command: a command with its subject, and what its options say.
#![tactic(auto)]

mod asking;
mod line;
mod numbers;

pub use asking::{Command, Lowering, Options, Refusal, read_words};

/// The largest number that names a channel.
const CHANNEL_MOST: u32 = 4_294_967_295;
