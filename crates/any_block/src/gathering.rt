//! The result that the writers of a graph keep.

ghost use Rattle.std.specs.Prelude.{◌≡◌, ℕ, List, [], ◌∷◌, length, IfOk};
ghost use Rattle.sam_model.specs.Children.{Ranked};
ghost use Rattle.block_core.specs.Ports.{Streams, port};
ghost use Rattle.block_core.specs.Kind.{WriteLevelKind, WriteValueKind, moves};
ghost use Rattle.block_core.specs.Written.{segs_of, crds_of, vals_of};
ghost use Rattle.graph.specs.Standing.{StandAt, final_position};
ghost use Rattle.graph.specs.Writers.{first_block, writes_level, writes_values, level_stream, value_stream, written_listing};

use crate::blocks::AnyBlock;
use block_core::BlockStep;
use graph::{Graph, Kind};
use sam_base::{Items, Nums};
use sam_model::Written;
use std::alloc::{AllocError, Global};

fn writes_level(kind: Kind, level: u8) -> bool
    ensures { result ≡ writes_level level kind }
{
    matches!(kind, Kind::WriteLevel { level: written } if written == level)
}

fn writes_values(kind: Kind) -> bool
    ensures { result ≡ writes_values kind }
{
    matches!(kind, Kind::WriteValue)
}

/// The first block that writes this level, or the number of blocks where none does.
fn level_writer(g: &Graph, level: u8) -> usize
    ensures { result ≡ first_block (writes_level level) g.now }
{
    let blocks = g.blocks.as_slice();
    blocks
        .iter()
        .position(|block| writes_level(block.kind, level))
        .unwrap_or(blocks.len())
}

/// The first block that writes the values, or the number of blocks where none does.
fn value_writer(g: &Graph) -> usize
    ensures { result ≡ first_block writes_values g.now }
{
    let blocks = g.blocks.as_slice();
    blocks
        .iter()
        .position(|block| writes_values(block.kind))
        .unwrap_or(blocks.len())
}

fn copy_of(alloc: Global, numbers: &Nums) -> Result<Nums, AllocError>
    ensures { IfOk result (λ copy. copy ≡ numbers.now) }
{
    Ok(Nums::from_vec(Vec::from_slice(alloc, numbers.as_slice())?))
}

/// The segments and the coordinates of a level of which nothing was written.
fn empty_level(alloc: Global) -> Result<(Nums, Nums), AllocError>
    ensures segs { IfOk result (λ empty. empty.0 ≡ 0 ∷ []) }
    ensures crds { IfOk result (λ empty. empty.1 ≡ []) }
{
    let mut segs = Nums::new(alloc);
    segs.push(0)?;
    Ok((segs, Nums::new(alloc)))
}

/// The segments and the coordinates that a block keeps: those of an empty level where it isn't the writer of one.
fn kept_level<'a>(alloc: Global, block: &AnyBlock<'a>) -> Result<(Nums, Nums), AllocError>
    ensures segs { IfOk result (λ kept. (level : ℕ) (s : Streams) → ⟦<AnyBlock<'a> as BlockStep>⟧.kind block.now ≡ WriteLevelKind level → ⟦<AnyBlock<'a> as BlockStep>⟧.stands block.now s (length (moves (WriteLevelKind level) s)) → kept.0 ≡ segs_of level (port 0 s)) }
    ensures crds { IfOk result (λ kept. (level : ℕ) (s : Streams) → ⟦<AnyBlock<'a> as BlockStep>⟧.kind block.now ≡ WriteLevelKind level → ⟦<AnyBlock<'a> as BlockStep>⟧.stands block.now s (length (moves (WriteLevelKind level) s)) → kept.1 ≡ crds_of (port 0 s)) }
{
    match block {
        AnyBlock::WriteLevel(writer) => Ok((
            copy_of(alloc, writer.segs())?,
            copy_of(alloc, writer.crds())?,
        )),
        _ => empty_level(alloc),
    }
}

/// The values that a block keeps: none where it isn't the writer of the values.
fn kept_values<'a>(alloc: Global, block: &AnyBlock<'a>) -> Result<Nums, AllocError>
    ensures { IfOk result (λ vals. (s : Streams) → ⟦<AnyBlock<'a> as BlockStep>⟧.kind block.now ≡ WriteValueKind → ⟦<AnyBlock<'a> as BlockStep>⟧.stands block.now s (length (moves WriteValueKind s)) → vals ≡ vals_of (port 0 s)) }
{
    match block {
        AnyBlock::WriteValue(writer) => copy_of(alloc, writer.vals()),
        _ => Ok(Nums::new(alloc)),
    }
}

/// The segments and the coordinates of a level. Where no block writes it they are those of an empty stream.
fn level_arrays<'a>(
    alloc: Global,
    g: &Graph,
    blocks: &[AnyBlock<'a>],
    level: u8,
) -> Result<(Nums, Nums), AllocError>
    ensures segs { IfOk result (λ arrays. (storages : List Ranked) → StandAt ⟦<AnyBlock<'a> as BlockStep>⟧.kind ⟦<AnyBlock<'a> as BlockStep>⟧.stands storages g.now (final_position storages g.now) blocks.now → arrays.0 ≡ segs_of level (level_stream storages g.now level)) }
    ensures crds { IfOk result (λ arrays. (storages : List Ranked) → StandAt ⟦<AnyBlock<'a> as BlockStep>⟧.kind ⟦<AnyBlock<'a> as BlockStep>⟧.stands storages g.now (final_position storages g.now) blocks.now → arrays.1 ≡ crds_of (level_stream storages g.now level)) }
{
    match blocks.get(level_writer(g, level)) {
        Some(block) => kept_level(alloc, block),
        None => empty_level(alloc),
    }
}

/// The values. Where no block writes them there are none.
fn value_array<'a>(alloc: Global, g: &Graph, blocks: &[AnyBlock<'a>]) -> Result<Nums, AllocError>
    ensures { IfOk result (λ vals. (storages : List Ranked) → StandAt ⟦<AnyBlock<'a> as BlockStep>⟧.kind ⟦<AnyBlock<'a> as BlockStep>⟧.stands storages g.now (final_position storages g.now) blocks.now → vals ≡ vals_of (value_stream storages g.now)) }
{
    match blocks.get(value_writer(g)) {
        Some(block) => kept_values(alloc, block),
        None => Ok(Nums::new(alloc)),
    }
}

/// The result that the writers of a graph keep once all blocks are through: the arrays of so many levels, from 1 on, and
/// the values. `blocks` are the graph's own, in order. Where several blocks write one level the first counts, and a level
/// that no block writes has the arrays of an empty stream.
pub fn gather<'a>(
    alloc: Global,
    g: &Graph,
    blocks: &[AnyBlock<'a>],
    levels: u8,
) -> Result<Written, AllocError>
    ensures written { IfOk result (λ w. (storages : List Ranked) → StandAt ⟦<AnyBlock<'a> as BlockStep>⟧.kind ⟦<AnyBlock<'a> as BlockStep>⟧.stands storages g.now (final_position storages g.now) blocks.now → w ≡ written_listing storages g.now levels) }
{
    let mut segs = Items::new(alloc);
    let mut crds = Items::new(alloc);
    for above in 0..levels {
        let (level_segs, level_crds) = level_arrays(alloc, g, blocks, above + 1)?;
        segs.push(level_segs)?;
        crds.push(level_crds)?;
    }
    Ok(Written {
        segs,
        crds,
        vals: value_array(alloc, g, blocks)?,
    })
}
