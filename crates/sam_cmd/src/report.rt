//! What is written of an answer on standard output, and said of a fault on standard error.

ghost use Rattle.std.specs.Prelude.{◌≡◌, ◌≢◌};
ghost use Rattle.sam_io.specs.Spans.{sink_span};
ghost use Rattle.sam_cmd.specs.Answers.{Said, ReportsFault, Gives};

use sam_base::{Fault, Name, fault_text, status};
use sam_io::{Sink, write_whole};
use std::alloc::Global;

/// Writes a text; that it can't be written changes no answer.
fn say<E: Sink>(err: &mut E, text: &[u8])
    ensures { Said (sink_span E.Sink err.old err.new) text.now }
{
    let _ = write_whole(err, text);
}

/// Says the fault, or that there is no memory for its text, and answers the exit status.
fn report<E: Sink>(alloc: Global, fault: &Fault, err: &mut E) -> u8
    ensures { ReportsFault fault.now (sink_span E.Sink err.old err.new) result }
{
    match fault_text(alloc, fault) {
        Ok(text) => {
            say(err, text.as_bytes());
            status(fault)
        }
        Err(_) => {
            say(err, b"sam: out of memory\n");
            9
        }
    }
}

/// Writes the text, or says the fault, and answers the exit status.
pub fn give<O: Sink, E: Sink>(
    alloc: Global,
    answer: &Result<Name, Fault>,
    out: &mut O,
    err: &mut E,
) -> u8
    ensures gives { Gives answer.now (sink_span O.Sink out.old out.new) (sink_span E.Sink err.old err.new) result }

    // no call at all was made on them, and not only nothing written
    ensures quiet { result ≡ 0 → err.new ≡ err.old }
    ensures untouched { result ≢ 0 → result ≢ 7 → out.new ≡ out.old }
{
    match answer {
        Ok(text) => match write_whole(out, text.as_bytes()) {
            Ok(()) => 0,
            Err(_) => {
                say(err, b"sam: write fault\n");
                7
            }
        },
        Err(fault) => report(alloc, fault, err),
    }
}
