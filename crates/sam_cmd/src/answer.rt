//! What a command answers in one thread: its text, or why there is none.

ghost use Rattle.std.specs.Prelude.{map, string_bytes};
ghost use Rattle.sam_io.specs.Spans.{KeepsFiles, files_span};
ghost use Rattle.parts.specs.Answers.{Comes};
ghost use Rattle.words.specs.Asked.{IsInBounds};
ghost use Rattle.sam_cmd.specs.Commands.{serial_text_part, serial_part};

use crate::asked::asked_command;
use crate::check::check;
use crate::lower::lower;
use crate::moment::moment;
use crate::size::size;
use crate::step::step;
use crate::streams::streams;
use crate::verify::verify;
use crate::workload::large;
use sam_base::{Fault, Name};
use sam_io::Files;
use std::alloc::Global;
use words::Command;

/// The text of a command. `run` has none here: it takes threads.
fn text<F: Files>(alloc: Global, files: &mut F, command: &Command) -> Result<Name, Fault>
    requires { IsInBounds command.now }
    ensures { Comes (serial_text_part command.now) (files_span F.Files files.old files.new) result }
{
    match command {
        Command::Check { program } => check(alloc, files, program),
        Command::Lower { program, lowering } => lower(alloc, files, program, *lowering),
        Command::Streams { program, lowering } => streams(alloc, files, program, *lowering),
        Command::Step { program, options } => step(alloc, files, program, options),
        Command::Moment { program, options } => moment(alloc, files, program, options),
        Command::Run { .. } => Err(Fault::Usage),
        Command::Size { program, lowering } => size(alloc, files, program, *lowering),
        Command::Verify { program, graph } => verify(alloc, files, program, graph),
        Command::Large { number } => large(alloc, *number),
    }
}

/// What the words answer: the text that is to be written, or why there is none.
pub fn answer<F: Files>(alloc: Global, words: &[String], files: &mut F) -> Result<Name, Fault>
    ensures { Comes (serial_part (map string_bytes words.now)) (files_span F.Files files.old files.new) result }
{
    match asked_command(alloc, words) {
        Err(fault) => Err(fault),
        Ok(command) => text(alloc, files, &command),
    }
}
