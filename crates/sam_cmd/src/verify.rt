//! `verify`: whether a graph that is handed in computes a program's tensor.

ghost use Rattle.sam_io.specs.Spans.{KeepsFiles, files_span};
ghost use Rattle.parts.specs.Answers.{Comes};
ghost use Rattle.sam_cmd.specs.Commands.{verify_part};

use inputs::program;
use sam_base::{Fault, Name};
use sam_io::Files;
use std::alloc::Global;
use verdicts::verify_program;

/// Reads the program and the graph, and answers that it is verified, or the first rule that it breaks and where.
pub fn verify<F: Files>(
    alloc: Global,
    files: &mut F,
    name: &Name,
    graph: &Name,
) -> Result<Name, Fault>
    ensures keeps { KeepsFiles F.Files files.old files.new }
    ensures comes { Comes (verify_part name.now graph.now) (files_span F.Files files.old files.new) result }
{
    match program(alloc, files, name) {
        Err(fault) => Err(fault),
        Ok(program) => verify_program(alloc, files, graph, &program),
    }
}
