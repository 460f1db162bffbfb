//! All kinds of blocks as one type.

ghost use Rattle.std.specs.Prelude.{ℕ};
ghost use Rattle.block_core.specs.Ports.{Streams};
ghost use Rattle.block_core.proofs.Unique.{same-wish};
ghost use Rattle.alu_array.specs.AluSteps.{alu_steps};
ghost use Rattle.alu_array.specs.ChangeSteps.{change_steps};
ghost use Rattle.alu_array.specs.RootSteps.{root_steps};
ghost use Rattle.copy_blocks.specs.CastSteps.{cast_steps};
ghost use Rattle.copy_blocks.specs.DrainSteps.{drain_steps};
ghost use Rattle.copy_blocks.specs.RepeatSteps.{repeat_steps};
ghost use Rattle.level_writer.specs.WriterSteps.{writer_steps};
ghost use Rattle.merge_blocks.specs.MergeSteps.{merge_steps};
ghost use Rattle.scalar_reducer.specs.ScalarSteps.{scalar_steps};
ghost use Rattle.scanner.specs.ScanSteps.{scan_steps};
ghost use Rattle.shape_blocks.specs.DropFiberSteps.{drop_fiber_steps};
ghost use Rattle.shape_blocks.specs.DropValueSteps.{drop_value_steps};
ghost use Rattle.shape_blocks.specs.FillSteps.{fill_steps};
ghost use Rattle.space_reducer.specs.MatrixSteps.{matrix_steps};
ghost use Rattle.space_reducer.specs.VectorSteps.{vector_steps};
ghost use Rattle.any_block.specs.declared.blocks.AnyBlock.TheVariants.{Root, Scan, Repeat, Cast, Drain, Intersect, Union, Array, Alu, Const, SumScalar, SumVector, SumMatrix, DropValue, DropFiber, Fill, WriteLevel, WriteValue};

use alu_array::{Alu, Array, Constant, Root};
use block_core::{BlockStep, Ports, Wish};
use copy_blocks::{Cast, Drain, Repeater};
use level_writer::{LevelWriter, ValueWriter};
use merge_blocks::{Intersecter, Unioner};
use scalar_reducer::ScalarReducer;
use scanner::Scanner;
use shape_blocks::{FiberDropper, Filler, ValueDropper};
use space_reducer::{MatrixReducer, VectorReducer};
use std::alloc::AllocError;
use stream_tokens::Token;

/// A block of any kind, over stored tensors that it may read.
#[derive(Drop)]
pub enum AnyBlock<'a> {
    Root(Root),
    Scan(Scanner<'a>),
    Repeat(Repeater),
    Cast(Cast),
    Drain(Drain),
    Intersect(Intersecter),
    Union(Unioner),
    Array(Array<'a>),
    Alu(Alu),
    Const(Constant),
    SumScalar(ScalarReducer),
    SumVector(VectorReducer),
    SumMatrix(MatrixReducer),
    DropValue(ValueDropper),
    DropFiber(FiberDropper),
    Fill(Filler),
    WriteLevel(LevelWriter),
    WriteValue(ValueWriter),
}

impl<'a> BlockStep for AnyBlock<'a> {
    ghost kind = { elim [
      | Root b ↦ ⟦<Root as BlockStep>⟧.kind b
      | Scan b ↦ ⟦<Scanner<'a> as BlockStep>⟧.kind b
      | Repeat b ↦ ⟦<Repeater as BlockStep>⟧.kind b
      | Cast b ↦ ⟦<Cast as BlockStep>⟧.kind b
      | Drain b ↦ ⟦<Drain as BlockStep>⟧.kind b
      | Intersect b ↦ ⟦<Intersecter as BlockStep>⟧.kind b
      | Union b ↦ ⟦<Unioner as BlockStep>⟧.kind b
      | Array b ↦ ⟦<Array<'a> as BlockStep>⟧.kind b
      | Alu b ↦ ⟦<Alu as BlockStep>⟧.kind b
      | Const b ↦ ⟦<Constant as BlockStep>⟧.kind b
      | SumScalar b ↦ ⟦<ScalarReducer as BlockStep>⟧.kind b
      | SumVector b ↦ ⟦<VectorReducer as BlockStep>⟧.kind b
      | SumMatrix b ↦ ⟦<MatrixReducer as BlockStep>⟧.kind b
      | DropValue b ↦ ⟦<ValueDropper as BlockStep>⟧.kind b
      | DropFiber b ↦ ⟦<FiberDropper as BlockStep>⟧.kind b
      | Fill b ↦ ⟦<Filler as BlockStep>⟧.kind b
      | WriteLevel b ↦ ⟦<LevelWriter as BlockStep>⟧.kind b
      | WriteValue b ↦ ⟦<ValueWriter as BlockStep>⟧.kind b
    ] };

    ghost may_refuse = { elim [
      | Root b ↦ ⟦<Root as BlockStep>⟧.may_refuse b
      | Scan b ↦ ⟦<Scanner<'a> as BlockStep>⟧.may_refuse b
      | Repeat b ↦ ⟦<Repeater as BlockStep>⟧.may_refuse b
      | Cast b ↦ ⟦<Cast as BlockStep>⟧.may_refuse b
      | Drain b ↦ ⟦<Drain as BlockStep>⟧.may_refuse b
      | Intersect b ↦ ⟦<Intersecter as BlockStep>⟧.may_refuse b
      | Union b ↦ ⟦<Unioner as BlockStep>⟧.may_refuse b
      | Array b ↦ ⟦<Array<'a> as BlockStep>⟧.may_refuse b
      | Alu b ↦ ⟦<Alu as BlockStep>⟧.may_refuse b
      | Const b ↦ ⟦<Constant as BlockStep>⟧.may_refuse b
      | SumScalar b ↦ ⟦<ScalarReducer as BlockStep>⟧.may_refuse b
      | SumVector b ↦ ⟦<VectorReducer as BlockStep>⟧.may_refuse b
      | SumMatrix b ↦ ⟦<MatrixReducer as BlockStep>⟧.may_refuse b
      | DropValue b ↦ ⟦<ValueDropper as BlockStep>⟧.may_refuse b
      | DropFiber b ↦ ⟦<FiberDropper as BlockStep>⟧.may_refuse b
      | Fill b ↦ ⟦<Filler as BlockStep>⟧.may_refuse b
      | WriteLevel b ↦ ⟦<LevelWriter as BlockStep>⟧.may_refuse b
      | WriteValue b ↦ ⟦<ValueWriter as BlockStep>⟧.may_refuse b
    ] };

    ghost stands = { elim [
      | Root b ↦ ⟦<Root as BlockStep>⟧.stands b
      | Scan b ↦ ⟦<Scanner<'a> as BlockStep>⟧.stands b
      | Repeat b ↦ ⟦<Repeater as BlockStep>⟧.stands b
      | Cast b ↦ ⟦<Cast as BlockStep>⟧.stands b
      | Drain b ↦ ⟦<Drain as BlockStep>⟧.stands b
      | Intersect b ↦ ⟦<Intersecter as BlockStep>⟧.stands b
      | Union b ↦ ⟦<Unioner as BlockStep>⟧.stands b
      | Array b ↦ ⟦<Array<'a> as BlockStep>⟧.stands b
      | Alu b ↦ ⟦<Alu as BlockStep>⟧.stands b
      | Const b ↦ ⟦<Constant as BlockStep>⟧.stands b
      | SumScalar b ↦ ⟦<ScalarReducer as BlockStep>⟧.stands b
      | SumVector b ↦ ⟦<VectorReducer as BlockStep>⟧.stands b
      | SumMatrix b ↦ ⟦<MatrixReducer as BlockStep>⟧.stands b
      | DropValue b ↦ ⟦<ValueDropper as BlockStep>⟧.stands b
      | DropFiber b ↦ ⟦<FiberDropper as BlockStep>⟧.stands b
      | Fill b ↦ ⟦<Filler as BlockStep>⟧.stands b
      | WriteLevel b ↦ ⟦<LevelWriter as BlockStep>⟧.stands b
      | WriteValue b ↦ ⟦<ValueWriter as BlockStep>⟧.stands b
    ] };

    fn ins(&self) -> u32 {
        match self {
            AnyBlock::Root(block) => block.ins(),
            AnyBlock::Scan(block) => block.ins(),
            AnyBlock::Repeat(block) => block.ins(),
            AnyBlock::Cast(block) => block.ins(),
            AnyBlock::Drain(block) => block.ins(),
            AnyBlock::Intersect(block) => block.ins(),
            AnyBlock::Union(block) => block.ins(),
            AnyBlock::Array(block) => block.ins(),
            AnyBlock::Alu(block) => block.ins(),
            AnyBlock::Const(block) => block.ins(),
            AnyBlock::SumScalar(block) => block.ins(),
            AnyBlock::SumVector(block) => block.ins(),
            AnyBlock::SumMatrix(block) => block.ins(),
            AnyBlock::DropValue(block) => block.ins(),
            AnyBlock::DropFiber(block) => block.ins(),
            AnyBlock::Fill(block) => block.ins(),
            AnyBlock::WriteLevel(block) => block.ins(),
            AnyBlock::WriteValue(block) => block.ins(),
        }
    }

    fn outs(&self) -> u32 {
        match self {
            AnyBlock::Root(block) => block.outs(),
            AnyBlock::Scan(block) => block.outs(),
            AnyBlock::Repeat(block) => block.outs(),
            AnyBlock::Cast(block) => block.outs(),
            AnyBlock::Drain(block) => block.outs(),
            AnyBlock::Intersect(block) => block.outs(),
            AnyBlock::Union(block) => block.outs(),
            AnyBlock::Array(block) => block.outs(),
            AnyBlock::Alu(block) => block.outs(),
            AnyBlock::Const(block) => block.outs(),
            AnyBlock::SumScalar(block) => block.outs(),
            AnyBlock::SumVector(block) => block.outs(),
            AnyBlock::SumMatrix(block) => block.outs(),
            AnyBlock::DropValue(block) => block.outs(),
            AnyBlock::DropFiber(block) => block.outs(),
            AnyBlock::Fill(block) => block.outs(),
            AnyBlock::WriteLevel(block) => block.outs(),
            AnyBlock::WriteValue(block) => block.outs(),
        }
    }

    #[inline]
    fn wish(&self) -> Wish {
        match self {
            AnyBlock::Root(block) => block.wish(),
            AnyBlock::Scan(block) => block.wish(),
            AnyBlock::Repeat(block) => block.wish(),
            AnyBlock::Cast(block) => block.wish(),
            AnyBlock::Drain(block) => block.wish(),
            AnyBlock::Intersect(block) => block.wish(),
            AnyBlock::Union(block) => block.wish(),
            AnyBlock::Array(block) => block.wish(),
            AnyBlock::Alu(block) => block.wish(),
            AnyBlock::Const(block) => block.wish(),
            AnyBlock::SumScalar(block) => block.wish(),
            AnyBlock::SumVector(block) => block.wish(),
            AnyBlock::SumMatrix(block) => block.wish(),
            AnyBlock::DropValue(block) => block.wish(),
            AnyBlock::DropFiber(block) => block.wish(),
            AnyBlock::Fill(block) => block.wish(),
            AnyBlock::WriteLevel(block) => block.wish(),
            AnyBlock::WriteValue(block) => block.wish(),
        }
    }

    #[inline]
    fn take(&mut self, port: u32, t: Token) -> Result<(), AllocError> {
        match self {
            AnyBlock::Root(block) => block.take(port, t),
            AnyBlock::Scan(block) => block.take(port, t),
            AnyBlock::Repeat(block) => block.take(port, t),
            AnyBlock::Cast(block) => block.take(port, t),
            AnyBlock::Drain(block) => block.take(port, t),
            AnyBlock::Intersect(block) => block.take(port, t),
            AnyBlock::Union(block) => block.take(port, t),
            AnyBlock::Array(block) => block.take(port, t),
            AnyBlock::Alu(block) => block.take(port, t),
            AnyBlock::Const(block) => block.take(port, t),
            AnyBlock::SumScalar(block) => block.take(port, t),
            AnyBlock::SumVector(block) => block.take(port, t),
            AnyBlock::SumMatrix(block) => block.take(port, t),
            AnyBlock::DropValue(block) => block.take(port, t),
            AnyBlock::DropFiber(block) => block.take(port, t),
            AnyBlock::Fill(block) => block.take(port, t),
            AnyBlock::WriteLevel(block) => block.take(port, t),
            AnyBlock::WriteValue(block) => block.take(port, t),
        }
    }

    #[inline]
    fn did_put(&mut self) {
        match self {
            AnyBlock::Root(block) => block.did_put(),
            AnyBlock::Scan(block) => block.did_put(),
            AnyBlock::Repeat(block) => block.did_put(),
            AnyBlock::Cast(block) => block.did_put(),
            AnyBlock::Drain(block) => block.did_put(),
            AnyBlock::Intersect(block) => block.did_put(),
            AnyBlock::Union(block) => block.did_put(),
            AnyBlock::Array(block) => block.did_put(),
            AnyBlock::Alu(block) => block.did_put(),
            AnyBlock::Const(block) => block.did_put(),
            AnyBlock::SumScalar(block) => block.did_put(),
            AnyBlock::SumVector(block) => block.did_put(),
            AnyBlock::SumMatrix(block) => block.did_put(),
            AnyBlock::DropValue(block) => block.did_put(),
            AnyBlock::DropFiber(block) => block.did_put(),
            AnyBlock::Fill(block) => block.did_put(),
            AnyBlock::WriteLevel(block) => block.did_put(),
            AnyBlock::WriteValue(block) => block.did_put(),
        }
    }

    // The kind is told apart once for all moves of a burst.
    fn burst<P: Ports>(&mut self, ports: &mut P, most: u32) -> Result<bool, AllocError> {
        match self {
            AnyBlock::Root(block) => block.burst(ports, most),
            AnyBlock::Scan(block) => block.burst(ports, most),
            AnyBlock::Repeat(block) => block.burst(ports, most),
            AnyBlock::Cast(block) => block.burst(ports, most),
            AnyBlock::Drain(block) => block.burst(ports, most),
            AnyBlock::Intersect(block) => block.burst(ports, most),
            AnyBlock::Union(block) => block.burst(ports, most),
            AnyBlock::Array(block) => block.burst(ports, most),
            AnyBlock::Alu(block) => block.burst(ports, most),
            AnyBlock::Const(block) => block.burst(ports, most),
            AnyBlock::SumScalar(block) => block.burst(ports, most),
            AnyBlock::SumVector(block) => block.burst(ports, most),
            AnyBlock::SumMatrix(block) => block.burst(ports, most),
            AnyBlock::DropValue(block) => block.burst(ports, most),
            AnyBlock::DropFiber(block) => block.burst(ports, most),
            AnyBlock::Fill(block) => block.burst(ports, most),
            AnyBlock::WriteLevel(block) => block.burst(ports, most),
            AnyBlock::WriteValue(block) => block.burst(ports, most),
        }
    }

    ghost stands_fits = { elim [
      | Root b ↦ λ s n h. h.fits
      | Scan b ↦ λ s n h. h.fits
      | Repeat b ↦ λ s n h. h.fits
      | Cast b ↦ λ s n h. h.fits
      | Drain b ↦ λ s n h. h.fits
      | Intersect b ↦ λ s n h. h.fits
      | Union b ↦ λ s n h. h.fits
      | Array b ↦ λ s n h. h.fits
      | Alu b ↦ λ s n h. h.fits
      | Const b ↦ λ s n h. h.fits
      | SumScalar b ↦ λ s n h. h.fits
      | SumVector b ↦ λ s n h. h.fits
      | SumMatrix b ↦ λ s n h. h.fits
      | DropValue b ↦ λ s n h. h.fits
      | DropFiber b ↦ λ s n h. h.fits
      | Fill b ↦ λ s n h. h.fits
      | WriteLevel b ↦ λ s n h. h.fits
      | WriteValue b ↦ λ s n h. h.fits
    ] };

    ghost stands_within = { elim [
      | Root b ↦ λ s n h. h.within
      | Scan b ↦ λ s n h. h.within
      | Repeat b ↦ λ s n h. h.within
      | Cast b ↦ λ s n h. h.within
      | Drain b ↦ λ s n h. h.within
      | Intersect b ↦ λ s n h. h.within
      | Union b ↦ λ s n h. h.within
      | Array b ↦ λ s n h. h.within
      | Alu b ↦ λ s n h. h.within
      | Const b ↦ λ s n h. h.within
      | SumScalar b ↦ λ s n h. h.within
      | SumVector b ↦ λ s n h. h.within
      | SumMatrix b ↦ λ s n h. h.within
      | DropValue b ↦ λ s n h. h.within
      | DropFiber b ↦ λ s n h. h.within
      | Fill b ↦ λ s n h. h.within
      | WriteLevel b ↦ λ s n h. h.within
      | WriteValue b ↦ λ s n h. h.within
    ] };

    ghost agrees = { elim [
      | Root b ↦ λ s r n h k a. same-wish root_steps _ n _ _ h.rest k.rest a
      | Scan b ↦ λ s r n h k a. same-wish (scan_steps _) _ n _ _ h.rest k.rest a
      | Repeat b ↦ λ s r n h k a. same-wish repeat_steps _ n _ _ h.rest k.rest a
      | Cast b ↦ λ s r n h k a. same-wish (cast_steps _) _ n _ _ h.rest k.rest a
      | Drain b ↦ λ s r n h k a. same-wish drain_steps _ n _ _ h.rest k.rest a
      | Intersect b ↦ λ s r n h k a. same-wish merge_steps _ n _ _ h.rest k.rest a
      | Union b ↦ λ s r n h k a. same-wish merge_steps _ n _ _ h.rest k.rest a
      | Array b ↦ λ s r n h k a. same-wish (change_steps _) _ n _ _ h.rest k.rest a
      | Alu b ↦ λ s r n h k a. same-wish (alu_steps _) _ n _ _ h.rest k.rest a
      | Const b ↦ λ s r n h k a. same-wish (change_steps _) _ n _ _ h.rest k.rest a
      | SumScalar b ↦ λ s r n h k a. same-wish scalar_steps _ n _ _ h.rest k.rest a
      | SumVector b ↦ λ s r n h k a. same-wish vector_steps _ n _ _ h.rest k.rest a
      | SumMatrix b ↦ λ s r n h k a. same-wish matrix_steps _ n _ _ h.rest k.rest a
      | DropValue b ↦ λ s r n h k a. same-wish drop_value_steps _ n _ _ h.rest k.rest a
      | DropFiber b ↦ λ s r n h k a. same-wish drop_fiber_steps _ n _ _ h.rest k.rest a
      | Fill b ↦ λ s r n h k a. same-wish fill_steps _ n _ _ h.rest k.rest a
      | WriteLevel b ↦ λ s r n h k a. same-wish writer_steps _ n _ _ h.rest.runs k.rest.runs a
      | WriteValue b ↦ λ s r n h k a. same-wish writer_steps _ n _ _ h.rest.runs k.rest.runs a
    ] };
}
