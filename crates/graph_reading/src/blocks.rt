//! Blocks.

ghost use Rattle.std.specs.Prelude.{codes, map};
ghost use Rattle.serde_json.specs.View.{view};
ghost use Rattle.graph_reading.specs.Values.{all_read, value_under, list_in};
ghost use Rattle.graph_reading.specs.Graphs.{kind_in, block_in};
ghost use Rattle.graph_reading.specs.Answers.{Answers};

use crate::kinds::kind_with;
use crate::values::{GraphFault, list_under, numbers_under, places_under, text_under};
use graph::{Block, Kind};
use sam_base::Items;
use sam_model::Program;
use serde_json::Value;
use std::alloc::Global;

fn kind(alloc: Global, p: &Program, value: &Value) -> Result<Kind, GraphFault>
    ensures { Answers (kind_in p.now (view value.now)) result }
{
    let word = match text_under(value, "kind") {
        Some(word) => word,
        None => return Err(GraphFault::Refused),
    };
    let numbers = numbers_under(alloc, value, "arg")?;
    let name = match text_under(value, "name") {
        Some(name) => name,
        None => return Err(GraphFault::Refused),
    };
    match kind_with(p, word, &numbers, name) {
        Some(kind) => Ok(kind),
        None => Err(GraphFault::Refused),
    }
}

fn block(alloc: Global, p: &Program, value: &Value) -> Result<Block, GraphFault>
    ensures { Answers (block_in p.now (view value.now)) result }
{
    let kind = kind(alloc, p, value)?;
    let ins = places_under(alloc, value, "ins")?;
    let outs = places_under(alloc, value, "outs")?;
    Ok(Block { kind, ins, outs })
}

fn block_list(alloc: Global, p: &Program, list: &[Value]) -> Result<Items<Block>, GraphFault>
    ensures { Answers (all_read (map (λ value. block_in p.now (view value)) list.now)) result }
{
    let mut blocks = Vec::new(alloc);
    for value in list {
        match block(alloc, p, value) {
            Ok(block) => match blocks.push(block) {
                Ok(()) => {}
                Err(_) => return Err(GraphFault::OutOfMemory),
            },
            Err(fault) => return Err(fault),
        }
    }
    Ok(Items::from_vec(blocks))
}

pub(crate) fn blocks_under(
    alloc: Global,
    p: &Program,
    value: &Value,
) -> Result<Items<Block>, GraphFault>
    ensures { Answers (value_under (codes "blocks") (list_in (block_in p.now)) (view value.now)) result }
{
    match list_under(value, "blocks") {
        None => Err(GraphFault::Refused),
        Some(list) => block_list(alloc, p, list),
    }
}
