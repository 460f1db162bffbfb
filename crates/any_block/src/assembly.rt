//! The blocks of a graph.

ghost use Rattle.std.specs.Prelude.{◌≡◌, ◌≤◌, ℕ, length, slice_get, Some, IfOk};
ghost use Rattle.block_core.specs.Stands.{StandsAtStart};
ghost use Rattle.graph.specs.Meaning.{meaning};
ghost use Rattle.graph.specs.Wiring.{block};
ghost use Rattle.graph.specs.WholeStreams.{Consistent};
ghost use Rattle.graph.specs.Standing.{StandAt, start_position};
ghost use Rattle.any_block.specs.declared.blocks.AnyBlock.{AnyBlock};
ghost use Rattle.graph.specs.Assembly.{KindInRange, KindsInRange, payloads_of, FewPayloads};

use crate::blocks::AnyBlock;
use alu_array::{Alu, Array, Constant, Op, Root};
use block_core::BlockStep;
use copy_blocks::{Cast, Drain, Repeater};
use graph::{Graph, Kind};
use level_writer::{LevelWriter, ValueWriter};
use levels::Storage;
use merge_blocks::{Intersecter, Unioner};
use scalar_reducer::ScalarReducer;
use scanner::Scanner;
use shape_blocks::{FiberDropper, Filler, ValueDropper};
use space_reducer::{MatrixReducer, VectorReducer};
use std::alloc::{AllocError, Global};

/// A block of a kind before its first move.
fn new_block<'a>(
    alloc: Global,
    kind: Kind,
    storages: &'a [Storage],
) -> Result<AnyBlock<'a>, AllocError>
    requires in_range { KindInRange storages.now kind }
    requires few { payloads_of kind ≤ 8 }
    ensures same_kind { IfOk result (λ x. ⟦<AnyBlock<'a> as BlockStep>⟧.kind x ≡ meaning storages.now kind) }
    ensures starts { IfOk result (λ x. StandsAtStart (⟦<AnyBlock<'a> as BlockStep>⟧.stands x) (meaning storages.now kind)) }
{
    Ok(match kind {
        Kind::Root => AnyBlock::Root(Root::new()),
        Kind::Scan { tensor, level } => AnyBlock::Scan(Scanner::new(
            &storages[tensor as usize],
            level,
        )),
        Kind::Repeat => AnyBlock::Repeat(Repeater::new()),
        Kind::Cast { outs } => AnyBlock::Cast(Cast::new(outs)),
        Kind::Drain => AnyBlock::Drain(Drain::new()),
        Kind::Intersect { left, right } => AnyBlock::Intersect(Intersecter::new(left, right)),
        Kind::Union { left, right } => AnyBlock::Union(Unioner::new(left, right)),
        Kind::Array { tensor } => AnyBlock::Array(Array::new(&storages[tensor as usize])),
        Kind::Mul => AnyBlock::Alu(Alu::new(Op::Mul)),
        Kind::Add => AnyBlock::Alu(Alu::new(Op::Add)),
        Kind::Sub => AnyBlock::Alu(Alu::new(Op::Sub)),
        Kind::Const { value } => AnyBlock::Const(Constant::new(value)),
        Kind::SumScalar => AnyBlock::SumScalar(ScalarReducer::new()),
        Kind::SumVector => AnyBlock::SumVector(VectorReducer::new(alloc)),
        Kind::SumMatrix => AnyBlock::SumMatrix(MatrixReducer::new(alloc)),
        Kind::DropValue => AnyBlock::DropValue(ValueDropper::new()),
        Kind::DropFiber => AnyBlock::DropFiber(FiberDropper::new()),
        Kind::Fill { payloads } => AnyBlock::Fill(Filler::new(payloads)),
        Kind::WriteLevel { level } => AnyBlock::WriteLevel(LevelWriter::new(alloc, level)?),
        Kind::WriteValue => AnyBlock::WriteValue(ValueWriter::new(alloc)),
    })
}

/// One block for each block of a graph, before its first move: for all whole inputs that fit its kind, whatever the graph
/// gives it. A scanner or an array reads one of the storages, by its tensor's number.
pub fn assemble<'a>(
    alloc: Global,
    g: &Graph,
    storages: &'a [Storage],
) -> Result<Vec<AnyBlock<'a>>, AllocError>
    requires in_range { KindsInRange storages.now g.now }
    requires few { FewPayloads g.now }
    ensures number { IfOk result (λ blocks. length blocks.items ≡ length g.now.blocks) }
    ensures kinds { IfOk result (λ blocks. (b : ℕ) (x : AnyBlock) → slice_get blocks.items b ≡ Some x → ⟦<AnyBlock<'a> as BlockStep>⟧.kind x ≡ meaning storages.now (block g.now b).kind) }
    ensures any_inputs { IfOk result (λ blocks. (b : ℕ) (x : AnyBlock) → slice_get blocks.items b ≡ Some x
        → StandsAtStart (⟦<AnyBlock<'a> as BlockStep>⟧.stands x) (meaning storages.now (block g.now b).kind)) }
    ensures starts { IfOk result (λ blocks. Consistent storages.now g.now → StandAt ⟦<AnyBlock<'a> as BlockStep>⟧.kind ⟦<AnyBlock<'a> as BlockStep>⟧.stands storages.now g.now start_position blocks.items) }
{
    let mut blocks = Vec::with_capacity(alloc, g.blocks.len())?;
    for block in g.blocks.as_slice() {
        blocks.push(new_block(alloc, block.kind, storages)?)?;
    }
    Ok(blocks)
}
