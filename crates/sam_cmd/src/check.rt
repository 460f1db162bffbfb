//! `check`: whether a program is accepted.

ghost use Rattle.std.specs.Prelude.{codes, Ok};
ghost use Rattle.sam_io.specs.Spans.{KeepsFiles, files_span};
ghost use Rattle.parts.specs.Parts.{gives};
ghost use Rattle.parts.specs.Answers.{Comes, ComesAlways};
ghost use Rattle.sam_cmd.specs.Commands.{check_part};

use inputs::chain;
use sam_base::{Fault, Name};
use sam_io::Files;
use std::alloc::Global;

/// The text of an accepted program.
fn accepted_text(alloc: Global) -> Result<Name, Fault>
    ensures { ComesAlways (gives (Ok (codes "accepted\n"))) result }
{
    match Name::from_slice(alloc, b"accepted\n") {
        Ok(text) => Ok(text),
        Err(_) => Err(Fault::OutOfMemory),
    }
}

/// Reads the program file, and answers that each statement of it is accepted.
pub fn check<F: Files>(alloc: Global, files: &mut F, name: &Name) -> Result<Name, Fault>
    ensures keeps { KeepsFiles F.Files files.old files.new }
    ensures comes { Comes (check_part name.now) (files_span F.Files files.old files.new) result }
{
    match chain(alloc, files, name) {
        Err(fault) => Err(fault),
        Ok(_) => accepted_text(alloc),
    }
}
