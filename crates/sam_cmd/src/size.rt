//! `size`: how much room a run of a program's graph needs.

ghost use Rattle.std.specs.Prelude.{◌≡◌, true};
ghost use Rattle.sam_io.specs.Spans.{KeepsFiles, files_span};
ghost use Rattle.sam_model.specs.Program.{accepted};
ghost use Rattle.parts.specs.Parts.{followed, each_part};
ghost use Rattle.parts.specs.Answers.{Comes};
ghost use Rattle.inputs.specs.Tensors.{tensor_part};
ghost use Rattle.runs.specs.Sizes.{size_part};
ghost use Rattle.sam_cmd.specs.Chosen.{chosen};
ghost use Rattle.sam_cmd.specs.Commands.{sizing_part};

use crate::chosen::chosen_graph;
use inputs::{program, storages};
use runs::size_program;
use sam_base::{Fault, Name};
use sam_io::Files;
use sam_model::Program;
use std::alloc::Global;
use words::Lowering;

/// Lowers the program, reads the tensors, and tries runs of the graph over them.
fn program_size<F: Files>(
    alloc: Global,
    files: &mut F,
    p: &Program,
    lowering: Lowering,
) -> Result<Name, Fault>
    requires { accepted p.now ≡ true }
    ensures keeps { KeepsFiles F.Files files.old files.new }
    ensures comes { Comes (followed (each_part tensor_part p.now.tensors) (size_part p.now (chosen lowering p.now)))
        (files_span F.Files files.old files.new) result }
{
    let Ok(graph) = chosen_graph(alloc, lowering, p) else {
        return Err(Fault::OutOfMemory);
    };
    match storages(alloc, files, p.tensors.as_slice()) {
        Err(fault) => Err(fault),
        Ok(storages) => size_program(alloc, p, &graph, storages.as_slice()),
    }
}

/// Reads the program and the tensors, and answers the least capacity.
pub fn size<F: Files>(
    alloc: Global,
    files: &mut F,
    name: &Name,
    lowering: Lowering,
) -> Result<Name, Fault>
    ensures keeps { KeepsFiles F.Files files.old files.new }
    ensures comes { Comes (sizing_part name.now lowering) (files_span F.Files files.old files.new) result }
{
    match program(alloc, files, name) {
        Err(fault) => Err(fault),
        Ok(program) => program_size(alloc, files, &program, lowering),
    }
}
