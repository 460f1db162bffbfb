//! What is answered of a graph.

ghost use Rattle.std.specs.Prelude.{◌≡◌, true};
ghost use Rattle.sam_io.specs.Spans.{KeepsFiles, files_span};
ghost use Rattle.sam_model.specs.Program.{accepted};
ghost use Rattle.parts.specs.Answers.{Comes, ComesAlways};
ghost use Rattle.verdicts.specs.Verifying.{verdict_part, verification_part};

use crate::reading::graph;
use graph::Graph;
use graph_check::{Verdict, verify_graph};
use sam_base::{Fault, Name};
use sam_io::Files;
use sam_model::Program;
use std::alloc::Global;

/// The answer on a graph: that it is verified, or the first rule that it breaks and where.
fn verdict_text(alloc: Global, p: &Program, g: &Graph) -> Result<Name, Fault>
    requires { accepted p.now ≡ true }
    ensures { ComesAlways (verdict_part p.now g.now) result }
{
    match verify_graph(alloc, g, p) {
        Err(_) => Err(Fault::OutOfMemory),
        Ok(Verdict::No { rule, at }) => Err(Fault::NotVerified { rule, at }),
        Ok(Verdict::Yes) => match Name::from_slice(alloc, b"verified\n") {
            Ok(text) => Ok(text),
            Err(_) => Err(Fault::OutOfMemory),
        },
    }
}

/// Reads the graph of this name over a program's tensors, and answers whether it computes the program's tensor, by the rules on
/// graphs: `verified` and a newline, or `NotVerified` with the first rule that it breaks.
pub fn verify_program<F: Files>(
    alloc: Global,
    files: &mut F,
    name: &Name,
    p: &Program,
) -> Result<Name, Fault>
    requires { accepted p.now ≡ true }
    ensures keeps { KeepsFiles F.Files files.old files.new }
    ensures comes { Comes (verification_part name.now p.now) (files_span F.Files files.old files.new) result }
{
    match graph(alloc, files, name, p) {
        Err(fault) => Err(fault),
        Ok(graph) => verdict_text(alloc, p, &graph),
    }
}
