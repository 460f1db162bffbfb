//! The program: it makes the real files and streams, and hands the system's words to the one call that does the work.
#![tactic(auto)]

use block_threads::OpenGate;
use sam_cmd::sam;
use sam_io::{SysFiles, SysSink};
use std::env;
use std::io::ErrorKind;
use std::process::ExitCode;

/// The exit status where there is no memory for the words.
const NO_MEMORY: u8 = 9;

/// The exit status where the system refuses to give the words as text; no other answer has it.
const NO_WORDS: u8 = 12;

fn main(rt: HostRuntime) -> ExitCode {
    let mut args = match env::args(&rt) {
        Ok(args) => args,
        Err(error) if error.kind() == ErrorKind::OutOfMemory => return ExitCode::from(NO_MEMORY),
        Err(_) => return ExitCode::from(NO_WORDS),
    };
    let _own_name = args.next();
    let words: Vec<String> = match args.collect(rt.alloc()) {
        Ok(words) => words,
        Err(_) => return ExitCode::from(NO_MEMORY),
    };
    let mut files = SysFiles::new(rt);
    let mut out = SysSink::output(rt.stdout());
    let mut err = SysSink::error(rt.stderr());
    let status = sam(
        &rt,
        rt.alloc(),
        &words,
        &mut files,
        &mut out,
        &mut err,
        &OpenGate,
    );
    ExitCode::from(status)
}
