//! The words of a command.

ghost use Rattle.std.specs.Prelude.{map, string_bytes, IfOk};
ghost use Rattle.parts.specs.Parts.{gives};
ghost use Rattle.parts.specs.Answers.{ComesAlways};
ghost use Rattle.words.specs.Asked.{asked_of, IsInBounds};
ghost use Rattle.sam_cmd.specs.Commands.{asked_or_usage};

use sam_base::Fault;
use std::alloc::Global;
use words::{Command, Refusal, read_words};

/// The command that the words ask for.
pub fn asked_command(alloc: Global, words: &[String]) -> Result<Command, Fault>
    ensures bounded { IfOk result IsInBounds }
    ensures comes { ComesAlways (gives (asked_or_usage (asked_of (map string_bytes words.now)))) result }
{
    match read_words(alloc, words) {
        Ok(command) => Ok(command),
        Err(Refusal::Usage) => Err(Fault::Usage),
        Err(Refusal::OutOfMemory) => Err(Fault::OutOfMemory),
    }
}
