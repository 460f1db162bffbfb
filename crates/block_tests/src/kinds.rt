//! Each kind of block on whole inputs.

ghost use Rattle.std.specs.Prelude.{[], ◌∷◌};
ghost use mathlib.Core.List.{map};
ghost use Rattle.block_core.specs.Kind.{Fits, WriteLevelKind, WriteValueKind};

use crate::bench::outputs_of;
use alu_array::{Alu, Constant, Op, Root};
use any_block::AnyBlock;
use block_core::BlockStep;
use copy_blocks::{Cast, Drain, Repeater};
use level_writer::{LevelWriter, ValueWriter};
use merge_blocks::{Intersecter, Unioner};
use scalar_reducer::ScalarReducer;
use shape_blocks::{FiberDropper, Filler, ValueDropper};
use space_reducer::{MatrixReducer, VectorReducer};
use std::alloc::Global;
use std::test::Fail;
use stream_tokens::Token::{self, Done, Empty, Item, Stop};

/// Whether a block puts these streams of whole inputs.
fn puts<'a>(
    alloc: Global,
    mut block: AnyBlock<'a>,
    ins: &[&[Token]],
    want: &str,
) -> Result<bool, Fail>
    requires { ⟦<AnyBlock<'a> as BlockStep>⟧.stands block (map (λ s. s.now) ins.now) 0 }
{
    Ok(outputs_of(alloc, &mut block, ins)?.as_bytes() == want.as_bytes())
}

#[test]
fn copies_are_put(rt: HostRuntime) -> Result<(), Fail> {
    let alloc = rt.alloc();
    assert!(rt; puts(alloc, AnyBlock::Root(Root::new()), &[], "0 D")?);
    let crd: [Token; 6] = [Item(0), Item(2), Stop(0), Item(1), Stop(1), Done];
    let outer: [Token; 4] = [Item(5), Empty, Stop(0), Done];
    let block = AnyBlock::Repeat(Repeater::new());
    assert!(rt; puts(alloc, block, &[&crd, &outer], "5 5 S0 N S1 D")?);
    let given: [Token; 5] = [Item(4), Empty, Stop(0), Stop(1), Done];
    let block = AnyBlock::Cast(Cast::new(3));
    assert!(rt;
        puts(
            alloc,
            block,
            &[&given],
            "4 N S0 S1 D, 4 N S0 S1 D, 4 N S0 S1 D"
        )?
    );
    assert!(rt; puts(alloc, AnyBlock::Drain(Drain::new()), &[&given], "")?);
    Ok(())
}

#[test]
fn merges_are_put(rt: HostRuntime) -> Result<(), Fail> {
    let alloc = rt.alloc();
    let left: [Token; 4] = [Item(0), Item(2), Stop(0), Done];
    let right: [Token; 4] = [Item(2), Item(3), Stop(0), Done];
    let payload: [Token; 4] = [Item(0), Item(1), Stop(0), Done];
    let block = AnyBlock::Intersect(Intersecter::new(1, 1));
    assert!(rt;
        puts(
            alloc,
            block,
            &[&left, &payload, &right, &payload],
            "2 S0 D, 1 S0 D, 0 S0 D"
        )?
    );
    let left: [Token; 5] = [Stop(0), Item(4), Stop(1), Stop(2), Done];
    let absent: [Token; 5] = [Stop(0), Empty, Stop(1), Stop(2), Done];
    let right: [Token; 8] = [
        Item(0),
        Item(3),
        Stop(0),
        Item(2),
        Item(4),
        Stop(1),
        Stop(2),
        Done,
    ];
    let payload: [Token; 8] = [
        Item(1),
        Empty,
        Stop(0),
        Item(4),
        Item(5),
        Stop(1),
        Stop(2),
        Done,
    ];
    let block = AnyBlock::Union(Unioner::new(1, 1));
    assert!(rt;
        puts(
            alloc,
            block,
            &[&left, &absent, &right, &payload],
            "0 3 S0 2 4 S1 S2 D, N N S0 N N S1 S2 D, 1 N S0 4 5 S1 S2 D"
        )?
    );
    Ok(())
}

#[test]
fn values_are_put(rt: HostRuntime) -> Result<(), Fail> {
    let alloc = rt.alloc();
    let first: [Token; 6] = [Item(5), Empty, Item(5), Empty, Stop(0), Done];
    let second: [Token; 6] = [Item(2), Item(2), Empty, Empty, Stop(0), Done];
    let block = AnyBlock::Alu(Alu::new(Op::Sub));
    assert!(rt;
        puts(
            alloc,
            block,
            &[&first, &second],
            "3 18446744073709551614 5 N S0 D"
        )?
    );
    let references: [Token; 6] = [Item(2), Empty, Stop(0), Item(1), Stop(1), Done];
    let block = AnyBlock::Const(Constant::new(6));
    assert!(rt; puts(alloc, block, &[&references], "6 N S0 6 S1 D")?);
    Ok(())
}

#[test]
fn sums_are_put(rt: HostRuntime) -> Result<(), Fail> {
    let alloc = rt.alloc();
    let root: [Token; 2] = [Item(0), Done];
    let values: [Token; 4] = [Item(5), Item(6), Stop(0), Done];
    let block = AnyBlock::SumScalar(ScalarReducer::new());
    assert!(rt; puts(alloc, block, &[&root, &values], "11 D")?);
    let crd: [Token; 6] = [Item(0), Item(1), Stop(0), Item(1), Stop(1), Done];
    let values: [Token; 6] = [Item(2), Item(3), Stop(0), Item(4), Stop(1), Done];
    let block = AnyBlock::SumVector(VectorReducer::new(alloc));
    assert!(rt; puts(alloc, block, &[&crd, &values], "0 1 S0 D, 2 7 S0 D")?);
    let outer: [Token; 6] = [Item(0), Item(1), Stop(0), Item(0), Stop(1), Done];
    let inner: [Token; 7] = [Item(0), Stop(0), Item(1), Stop(1), Item(0), Stop(2), Done];
    let values: [Token; 7] = [Item(1), Stop(0), Item(2), Stop(1), Item(3), Stop(2), Done];
    let block = AnyBlock::SumMatrix(MatrixReducer::new(alloc));
    assert!(rt;
        puts(
            alloc,
            block,
            &[&outer, &inner, &values],
            "0 1 S0 D, 0 S0 1 S1 D, 4 S0 2 S1 D"
        )?
    );
    Ok(())
}

#[test]
fn shapes_are_put(rt: HostRuntime) -> Result<(), Fail> {
    let alloc = rt.alloc();
    let crd: [Token; 6] = [Item(0), Item(1), Stop(0), Item(2), Stop(1), Done];
    let values: [Token; 6] = [Item(5), Empty, Stop(0), Empty, Stop(1), Done];
    let block = AnyBlock::DropValue(ValueDropper::new());
    assert!(rt; puts(alloc, block, &[&crd, &values], "0 S0 S1 D, 5 S0 S1 D")?);
    let outer: [Token; 4] = [Item(0), Item(1), Stop(0), Done];
    let inner: [Token; 4] = [Item(0), Stop(0), Stop(1), Done];
    let block = AnyBlock::DropFiber(FiberDropper::new());
    assert!(rt; puts(alloc, block, &[&outer, &inner], "0 S0 D, 0 S1 D")?);
    let presence: [Token; 4] = [Empty, Item(1), Stop(0), Done];
    let crd: [Token; 3] = [Item(0), Stop(1), Done];
    let payload: [Token; 5] = [Stop(0), Stop(0), Item(4), Stop(1), Done];
    let block = AnyBlock::Fill(Filler::new(1));
    assert!(rt;
        puts(
            alloc,
            block,
            &[&presence, &crd, &payload],
            "S0 0 S1 D, S0 4 S1 D"
        )?
    );
    Ok(())
}

/// A writer of this level that has taken this stream.
fn level_of(alloc: Global, level: u8, stream: &[Token]) -> Result<LevelWriter, Fail>
    requires { Fits (WriteLevelKind level) (stream.now ∷ []) }
{
    let mut writer = LevelWriter::new(alloc, level)?;
    let _ = outputs_of(alloc, &mut writer, &[stream])?;
    Ok(writer)
}

/// A writer of the values that has taken this stream.
fn values_of(alloc: Global, stream: &[Token]) -> Result<ValueWriter, Fail>
    requires { Fits WriteValueKind (stream.now ∷ []) }
{
    let mut writer = ValueWriter::new(alloc);
    let _ = outputs_of(alloc, &mut writer, &[stream])?;
    Ok(writer)
}

#[test]
fn streams_are_written(rt: HostRuntime) -> Result<(), Fail> {
    let alloc = rt.alloc();
    let crd: [Token; 6] = [Item(1), Stop(0), Stop(0), Item(0), Stop(1), Done];
    let writer = level_of(alloc, 2, &crd)?;
    assert_eq!(rt; writer.segs().as_slice(), [0, 1, 2].as_slice());
    assert_eq!(rt; writer.crds().as_slice(), [1, 0].as_slice());
    let values: [Token; 6] = [Item(1), Empty, Stop(0), Item(0), Stop(1), Done];
    let writer = values_of(alloc, &values)?;
    assert_eq!(rt; writer.vals().as_slice(), [1, 0].as_slice());
    Ok(())
}
