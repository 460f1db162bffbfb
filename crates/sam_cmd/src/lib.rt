//! The commands: their words, their answers and what they write.
//!
//! One call does all that the program does. Its contract says which answer it gives and why, and what it leaves on the
//! two sinks. Another does the same without a thread, for every command but `run`.
#![tactic(auto)]

ghost use Rattle.std.specs.Prelude.{◌≡◌, ◌≢◌, map, string_bytes};
ghost use Rattle.sam_io.specs.Spans.{files_span, sink_span};
ghost use Rattle.sam_cmd.specs.Commands.{answer_part, serial_part};
ghost use Rattle.sam_cmd.specs.Answers.{Answered};

mod answer;
mod asked;
mod chain;
mod check;
mod chosen;
mod laws;
mod lower;
mod moment;
mod report;
mod size;
mod step;
mod streams;
mod threads;
mod verify;
mod workload;

use answer::answer;
use asked::asked_command;
use block_threads::Gate;
pub use laws::{
    plain_graphs_are_verified, run_completes, run_denotes, size_completes, step_completes,
    step_denotes, verify_completes,
};
use report::give;
use sam_io::{Files, Sink};
use std::alloc::Global;
use std::sync::Wait;
use std::thread::Threads;
use threads::run;
use words::Command;

/// Runs a command, and answers its exit status.
///
/// - `check FILE` reads a program file, and writes `accepted` and a newline.
/// - `lower FILE` reads a program file of one statement, and writes the graph that the program is lowered to, as JSON.
/// - `streams FILE` reads the files of all its tensors too, runs the graph over them, and writes the whole stream of each
///   channel.
/// - `step FILE` writes the tensor that the statement denotes: the sum of products over all index tuples, modulo 2^64, at the
///   coordinates of its pattern. Of several statements each is computed over the tensors of the files and the results of those
///   before it, and the last one's tensor is written. Its options are `--capacity n`, how many tokens each channel may hold, `--of c=n,c=n`, the
///   same of single channels, and `--schedule FILE`, whose turn it is before the run goes on by itself. A run in which no block
///   can move and one isn't finished answers the blocks that wait.
/// - `moment FILE` reads what `step` reads, with the same options, and writes what was sent on each channel when the schedule
///   ends.
/// - `run FILE` writes the same tensor as `step`, computed with a thread for every block. Its option is `--capacity n`, how many
///   messages each channel may hold. A graph of more than 256 blocks is refused.
/// - `size FILE` reads what `streams` reads, and writes the least capacity under which a run of the graph finishes, given to every
///   channel alike, and for each block that waits with one less a line that says on which channel. Where the largest capacity is
///   too small, it answers the blocks that wait under it.
/// - `verify FILE GRAPH` reads a graph's JSON too, and writes `verified` and a newline where the graph meets the rules on graphs; then it
///   computes the tensor of the program, whoever made it. Else it answers the first rule that the graph breaks, and where.
/// - `large N` makes the workload of that number, runs its graph, and writes how many entries the result has, the sum of their
///   values and the number of events.
///
/// `check`, `step` and `run` take a file of several statements, `step` with no other option than `--capacity`, which is then that of
/// each graph; where another command or option speaks of one graph, a second statement is refused once the file is accepted.
///
/// Every command but `check`, `verify` and `large` takes the flag `--fused`: the graph is the one whose terms are united at the scanners, for the same
/// tensor.
///
/// The contract says which other answers there are and when each comes. No proof says that `run` ends: with too small a capacity
/// it may wait for ever, and `step --capacity` tells before whether one is large enough. Nothing but `run` waits. The gate is told
/// of what the works of blocks do.
pub fn sam<F: Files, O: Sink, E: Sink, G: Gate + Sync, R: Threads + Wait + Sync>(
    rt: &R,
    alloc: Global,
    words: &[String],
    files: &mut F,
    out: &mut O,
    err: &mut E,
    gate: &G,
) -> u8
    ensures answered { Answered (answer_part (map string_bytes words.now)) (files_span F.Files files.old files.new)
        (sink_span O.Sink out.old out.new) (sink_span E.Sink err.old err.new) result }

    // no call at all was made on them, and not only nothing written
    ensures quiet { result ≡ 0 → err.new ≡ err.old }
    ensures untouched { result ≢ 0 → result ≢ 7 → out.new ≡ out.old }
{
    let command = match asked_command(alloc, words) {
        Ok(command) => command,
        Err(fault) => return give(alloc, &Err(fault), out, err),
    };
    match &command {
        Command::Run {
            program,
            lowering,
            capacity,
        } => {
            let text = run(rt, alloc, files, program, *lowering, *capacity, gate);
            give(alloc, &text, out, err)
        }
        _ => sam_serial(alloc, words, files, out, err),
    }
}

/// Runs a command as `sam` does, but waits for nobody and always returns: `run` is answered by the usage.
pub fn sam_serial<F: Files, O: Sink, E: Sink>(
    alloc: Global,
    words: &[String],
    files: &mut F,
    out: &mut O,
    err: &mut E,
) -> u8
    ensures answered { Answered (serial_part (map string_bytes words.now)) (files_span F.Files files.old files.new)
        (sink_span O.Sink out.old out.new) (sink_span E.Sink err.old err.new) result }

    // no call at all was made on them, and not only nothing written
    ensures quiet { result ≡ 0 → err.new ≡ err.old }
    ensures untouched { result ≢ 0 → result ≢ 7 → out.new ≡ out.old }
{
    let text = answer(alloc, words, files);
    give(alloc, &text, out, err)
}
