//! `lower`: the graph that a program is lowered to.

ghost use Rattle.std.specs.Prelude.{◌≡◌, true, Ok};
ghost use Rattle.sam_io.specs.Spans.{KeepsFiles, files_span};
ghost use Rattle.sam_model.specs.Program.{accepted};
ghost use Rattle.graph_json.specs.Spelled.{graph_text};
ghost use Rattle.parts.specs.Parts.{gives};
ghost use Rattle.parts.specs.Answers.{Comes, ComesAlways};
ghost use Rattle.inputs.specs.Programs.{HasNames};
ghost use Rattle.sam_cmd.specs.Chosen.{chosen};
ghost use Rattle.sam_cmd.specs.Commands.{lower_part};

use crate::chosen::chosen_graph;
use inputs::program;
use sam_base::{Fault, Name};
use sam_io::Files;
use sam_model::Program;
use std::alloc::Global;
use words::Lowering;

/// The JSON of a program's graph.
fn program_graph(alloc: Global, p: &Program, lowering: Lowering) -> Result<Name, Fault>
    requires accepted { accepted p.now ≡ true }
    requires named { HasNames p.now }
    ensures { ComesAlways (gives (Ok (graph_text p.now (chosen lowering p.now)))) result }
{
    let Ok(graph) = chosen_graph(alloc, lowering, p) else {
        return Err(Fault::OutOfMemory);
    };
    match graph_json::graph_text(alloc, p, &graph) {
        Ok(text) => Ok(text),
        Err(_) => Err(Fault::OutOfMemory),
    }
}

/// Reads the program, and answers its graph.
pub fn lower<F: Files>(
    alloc: Global,
    files: &mut F,
    name: &Name,
    lowering: Lowering,
) -> Result<Name, Fault>
    ensures keeps { KeepsFiles F.Files files.old files.new }
    ensures comes { Comes (lower_part name.now lowering) (files_span F.Files files.old files.new) result }
{
    match program(alloc, files, name) {
        Err(fault) => Err(fault),
        Ok(program) => program_graph(alloc, &program, lowering),
    }
}
