//! The graph of a file.

ghost use Rattle.sam_io.specs.Spans.{KeepsFiles, files_span};
ghost use Rattle.parts.specs.Parts.{gives};
ghost use Rattle.parts.specs.Answers.{Comes, ComesAlways};
ghost use Rattle.verdicts.specs.Verifying.{graph_read, graph_part};

use graph::Graph;
use graph_reading::{GraphFault, read_graph};
use parts::read_file;
use sam_base::{Fault, Name};
use sam_io::Files;
use sam_model::Program;
use std::alloc::Global;

/// The graph that a file's bytes spell over a program's tensors; none are the bytes of a file that is too long.
fn spelled_graph(alloc: Global, text: Option<Name>, p: &Program) -> Result<Graph, Fault>
    ensures { ComesAlways (gives (graph_read p.now text)) result }
{
    let Some(text) = text else {
        return Err(Fault::Graph);
    };
    match read_graph(alloc, text.as_bytes(), p) {
        Ok(graph) => Ok(graph),
        Err(GraphFault::Refused) => Err(Fault::Graph),
        Err(GraphFault::OutOfMemory) => Err(Fault::OutOfMemory),
    }
}

/// Reads the file of a graph. `Graph` comes where it spells none, or has more bytes than a file may have.
pub fn graph<F: Files>(
    alloc: Global,
    files: &mut F,
    name: &Name,
    p: &Program,
) -> Result<Graph, Fault>
    ensures keeps { KeepsFiles F.Files files.old files.new }
    ensures comes { Comes (graph_part name.now p.now) (files_span F.Files files.old files.new) result }
{
    match read_file(alloc, files, name) {
        Err(fault) => Err(fault),
        Ok(text) => spelled_graph(alloc, text, p),
    }
}
