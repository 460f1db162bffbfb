//! The rule on writers: each level of the result and its values have just one.

ghost use Rattle.std.specs.Prelude.{◌≡◌, ◌<◌, ◌≤◌, ◌^◌, ◌&&◌, true, length, ltb, leb, IfOk};
ghost use Rattle.std.specs.List.{list_all};
ghost use Rattle.sam_model.specs.Program.{accepted};
ghost use Rattle.graph.specs.Wiring.{block};
ghost use Rattle.graph.specs.Writers.{writes_level, writes_values, first_block};
ghost use Rattle.graph_check.specs.FirstWriters.{AreFirst};
ghost use Rattle.graph_check.specs.Writers.{writes_first, all_written};
ghost use Rattle.graph_check.specs.Faults.{first_failing, writers_fault};

use graph::{Graph, Kind};
use sam_base::Items;
use sam_model::Program;
use std::alloc::{AllocError, Global};

/// A graph, with the first block that writes each level of the result and the first that writes the values; where there is
/// none, the number of blocks.
#[derive(Drop)]
pub(crate) struct Writers<'a> {
    graph: &'a Graph,
    levels: Items<usize>,
    values: usize,
}

fn writes_level(kind: Kind, level: u8) -> bool
    ensures { result ≡ writes_level level kind }
{
    matches!(kind, Kind::WriteLevel { level: written } if written == level)
}

fn writes_values(kind: Kind) -> bool
    ensures { result ≡ writes_values kind }
{
    matches!(kind, Kind::WriteValue)
}

fn are_below(numbers: &[usize], end: usize) -> bool
    ensures { result ≡ list_all (λ k. ltb k end) numbers.now }
{
    numbers.iter().all(|k| *k < end)
}

fn level_writer(g: &Graph, level: u8) -> usize
    ensures { result ≡ first_block (writes_level level) g.now }
{
    let blocks = g.blocks.as_slice();
    blocks
        .iter()
        .position(|block| writes_level(block.kind, level))
        .unwrap_or(blocks.len())
}

fn value_writer(g: &Graph) -> usize
    ensures { result ≡ first_block writes_values g.now }
{
    let blocks = g.blocks.as_slice();
    blocks
        .iter()
        .position(|block| writes_values(block.kind))
        .unwrap_or(blocks.len())
}

impl<'a> Writers<'a> {
    /// The first writers of so many levels.
    fn new(alloc: Global, graph: &'a Graph, levels: u8) -> Result<Writers<'a>, AllocError>
        requires { levels ≤ 8 }
        ensures graph { IfOk result (λ writers. writers.graph.now ≡ graph.now) }
        ensures number { IfOk result (λ writers. length writers.levels ≡ levels) }
        ensures first { IfOk result (λ writers. AreFirst writers) }
    {
        let mut firsts = Items::new(alloc);
        for level in 0..levels {
            firsts.push(level_writer(graph, level + 1))?;
        }
        Ok(Writers {
            graph,
            levels: firsts,
            values: value_writer(graph),
        })
    }

    /// Whether a level is one of the result's, and no block before this one writes it.
    fn is_first_of_level(&self, b: usize, level: u8) -> bool
        requires { AreFirst self.now }
        ensures { result ≡ ((ltb 0 level && leb level (length self.now.levels)) && leb b (first_block (writes_level level) self.now.graph.now)) }
    {
        if level == 0 {
            return false;
        }
        match self.levels.as_slice().get(level as usize - 1) {
            Some(first) => b <= *first,
            None => false,
        }
    }

    /// Whether a block is no writer, or is the first writer of a level of the result or of its values.
    fn writes_first(&self, b: usize) -> bool
        requires first { AreFirst self.now }
        requires inside { b < length self.now.graph.now.blocks }
        ensures { result ≡ writes_first (length self.now.levels) self.now.graph.now b (block self.now.graph.now b).kind }
    {
        match self.graph.blocks.get(b).kind {
            Kind::WriteLevel { level } => self.is_first_of_level(b, level),
            Kind::WriteValue => b <= self.values,
            _ => true,
        }
    }

    /// The first writer too many, or the number of blocks.
    fn surplus(&self) -> usize
        requires { AreFirst self.now }
        ensures first { result ≡ first_failing (λ b. writes_first (length self.now.levels) self.now.graph.now b (block self.now.graph.now b).kind) (length self.now.graph.now.blocks) }
        ensures within { result ≤ length self.now.graph.now.blocks }
    {
        for b in 0..self.graph.blocks.len() {
            if !self.writes_first(b) {
                return b;
            }
        }
        self.graph.blocks.len()
    }

    /// Whether each level and the values are written.
    fn are_all(&self) -> bool
        requires { AreFirst self.now }
        ensures { result ≡ all_written (length self.now.levels) self.now.graph.now }
    {
        let blocks = self.graph.blocks.len();
        let levels = self.levels.as_slice();
        are_below(levels, blocks) & (self.values < blocks)
    }
}

/// The block at which a graph fails the rule on writers: the first one too many, or the number of blocks where one is missing.
pub fn writers_fault(alloc: Global, p: &Program, g: &Graph) -> Result<Option<u32>, AllocError>
    requires accepted { accepted p.now ≡ true }
    requires few { length g.now.blocks < 2 ^ 32 }
    ensures { IfOk result (λ fault. fault ≡ writers_fault p.now g.now) }
{
    let writers = Writers::new(alloc, g, p.result.order.len() as u8)?;
    let surplus = writers.surplus();
    let is_met = (g.blocks.len() <= surplus) & writers.are_all();
    if is_met {
        return Ok(None);
    }
    Ok(Some(surplus as u32))
}
