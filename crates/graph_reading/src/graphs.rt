//! The graph that a text spells.

ghost use Rattle.serde_json.specs.View.{view};
ghost use Rattle.graph_reading.specs.Graphs.{graph_in, graph_of};
ghost use Rattle.graph_reading.specs.Answers.{Answers};

use crate::blocks::blocks_under;
use crate::channels::channels_under;
use crate::values::{GraphFault, read_value};
use graph::Graph;
use sam_model::Program;
use serde_json::Value;
use std::alloc::Global;

fn graph(alloc: Global, p: &Program, value: &Value) -> Result<Graph, GraphFault>
    ensures { Answers (graph_in p.now (view value.now)) result }
{
    let blocks = blocks_under(alloc, p, value)?;
    let channels = channels_under(alloc, value)?;
    Ok(Graph { blocks, channels })
}

/// The graph over a program's tensors that a text of JSON spells: an object with the lists `blocks` and `channels`. Other keys
/// are passed over, and of a key that stands twice the last value counts.
///
/// - A block has a word `kind`, the list `arg` of that kind's numbers, lists `ins` and `outs` of channels, and a text `name`, which
///   is a tensor's for a scan or an array. A scan's level is from 1 to its tensor's dimensions; there are at most eight payloads.
/// - A channel has `from` and `to`, each a block and a port, and a `label`, which is the text of a label.
/// - Blocks, ports and channels are below 2^32, and all numbers are such as JSON's reader takes for whole ones below 2^64: `1.0`
///   and `-0` aren't.
///
/// A text of any other form is refused; it is read in one pass.
pub fn read_graph(alloc: Global, text: &[u8], p: &Program) -> Result<Graph, GraphFault>
    ensures { Answers (graph_of p.now text.now) result }
{
    let value = read_value(alloc, text)?;
    graph(alloc, p, &value)
}
