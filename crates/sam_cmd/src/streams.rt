//! `streams`: all that passes over each channel of a program's graph.

ghost use Rattle.std.specs.Prelude.{◌≡◌, true, Ok};
ghost use Rattle.sam_io.specs.Spans.{KeepsFiles, files_span};
ghost use Rattle.sam_model.specs.Program.{accepted};
ghost use Rattle.traces.specs.Traces.{streams_of};
ghost use Rattle.parts.specs.Parts.{gives, followed, each_part};
ghost use Rattle.parts.specs.Answers.{Comes};
ghost use Rattle.inputs.specs.Tensors.{tensor_part};
ghost use Rattle.sam_cmd.specs.Chosen.{chosen};
ghost use Rattle.sam_cmd.specs.Commands.{streams_part};

use crate::chosen::chosen_graph;
use inputs::{program, storages};
use sam_base::{Fault, Name};
use sam_io::Files;
use sam_model::Program;
use std::alloc::Global;
use words::Lowering;

/// Lowers the program, reads the tensors, and runs the graph over them.
fn program_streams<F: Files>(
    alloc: Global,
    files: &mut F,
    p: &Program,
    lowering: Lowering,
) -> Result<Name, Fault>
    requires { accepted p.now ≡ true }
    ensures keeps { KeepsFiles F.Files files.old files.new }
    ensures comes { let g = chosen lowering p.now in
        Comes (followed (each_part tensor_part p.now.tensors) (λ entries. gives (Ok (streams_of p.now g entries))))
        (files_span F.Files files.old files.new) result }
{
    let Ok(graph) = chosen_graph(alloc, lowering, p) else {
        return Err(Fault::OutOfMemory);
    };
    match storages(alloc, files, p.tensors.as_slice()) {
        Err(fault) => Err(fault),
        Ok(storages) => match traces::streams(alloc, &graph, storages.as_slice()) {
            Ok(text) => Ok(text),
            Err(_) => Err(Fault::OutOfMemory),
        },
    }
}

/// Reads the program and the tensors, and answers the whole stream of each channel.
pub fn streams<F: Files>(
    alloc: Global,
    files: &mut F,
    name: &Name,
    lowering: Lowering,
) -> Result<Name, Fault>
    ensures keeps { KeepsFiles F.Files files.old files.new }
    ensures comes { Comes (streams_part name.now lowering) (files_span F.Files files.old files.new) result }
{
    match program(alloc, files, name) {
        Err(fault) => Err(fault),
        Ok(program) => program_streams(alloc, files, &program, lowering),
    }
}
