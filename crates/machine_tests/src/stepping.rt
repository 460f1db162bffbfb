//! The machine on one thread: single steps, and runs in which memory is refused to a block.

ghost use Rattle.std.specs.Prelude.{◌≡◌, List, true, length, IfOk};
ghost use Rattle.sam_model.specs.declared.tensors.Entries.{Entries};
ghost use Rattle.sam_model.specs.Program.{accepted};
ghost use Rattle.inputs.specs.Tensors.{AreStored};
ghost use Rattle.machines.specs.Runnable.{Runnable};

use crate::product::{TAKEN, product, refusing_blocks};
use any_block::AnyBlock;
use block_core::Refusing;
use custard_lower::lower;
use graph::Graph;
use levels::Storage;
use machines::{machine_for, unbounded};
use sam_model::Program;
use std::alloc::{AllocError, Global};
use std::test::Fail;
use stepper::{Ending, Machine, NoTap, Stepped};

/// The machine of the product of two stored vectors.
fn machine<'a>(
    alloc: Global,
    p: &Program,
    storages: &'a [Storage],
) -> Result<Machine<AnyBlock<'a>>, Fail>
    requires accepted { accepted p.now ≡ true }
    requires stored { (entries : List Entries) × AreStored p.now.tensors entries storages.now }
    ensures { IfOk result (λ m. length m.blocks ≡ 11) }
{
    let graph = lower(alloc, p)?;
    if graph.blocks.len() != 11 {
        return Err(Fail::from("the graph has another size"));
    }
    let capacities = unbounded(alloc, graph.channels.len())?;
    Ok(machine_for(alloc, &graph, storages, &capacities)?)
}

/// What the intersecter does first, and then the root.
fn first_steps(alloc: Global) -> Result<[Stepped; 3], Fail> {
    let (program, storages) = product(alloc)?;
    let mut run = machine(alloc, &program, storages.as_slice())?;
    let intersecter = run.step(3, &mut NoTap)?;
    let root = run.step(0, &mut NoTap)?;
    let again = run.step(0, &mut NoTap)?;
    Ok([intersecter, root, again])
}

/// The intersecter's left coordinates aren't there yet.
#[test]
fn blocks_are_stepped(rt: HostRuntime) -> Result<(), Fail> {
    let waits = Stepped::Blocked {
        channel: 1,
        full: false,
    };
    let wanted = [waits, Stepped::Moved, Stepped::Moved];
    assert_eq!(rt; first_steps(rt.alloc())?, wanted);
    Ok(())
}

/// All events of the run of the product.
const MOVES: u64 = 92;

/// What `finish` answered: whether every block is finished, or nothing for want of memory. And how many events there were, and how
/// many tokens more the block would take that may refuse.
#[derive(Clone, Copy, Debug, Drop, PartialEq, Eq)]
struct Outcome {
    finished: Option<bool>,
    moves: u64,
    left: Option<u64>,
}

/// Finishes a machine, in which a block may refuse.
fn ended<'a>(machine: &mut Machine<Refusing<AnyBlock<'a>>>, refuses: usize) -> Outcome {
    let finished = match machine.finish(&mut NoTap) {
        Ok(Ending::Finished) => Some(true),
        Ok(Ending::Stalled(_)) => Some(false),
        Err(_) => None,
    };
    let left = match machine.blocks().get(refuses) {
        Some(block) => Some(block.left),
        None => None,
    };
    Outcome {
        finished,
        moves: machine.moves(),
        left,
    }
}

/// What `finish` answers at first and a second time, where this block refuses after so many takes.
fn finishes_on(
    alloc: Global,
    g: &Graph,
    storages: &[Storage],
    refuses: usize,
    left: u64,
) -> Result<(Outcome, Outcome), AllocError>
    requires { Runnable storages.now g.now }
{
    let blocks = refusing_blocks(alloc, g, storages, refuses, left)?;
    let capacities = unbounded(alloc, g.channels.len())?;
    let mut machine = Machine::new(alloc, g, blocks, &capacities)?;
    let first = ended(&mut machine, refuses);
    Ok((first, ended(&mut machine, refuses)))
}

/// The same on the graph of the product.
fn finishes(
    alloc: Global,
    p: &Program,
    storages: &[Storage],
    refuses: usize,
    left: u64,
) -> Result<(Outcome, Outcome), AllocError>
    requires accepted { accepted p.now ≡ true }
    requires stored { (entries : List Entries) × AreStored p.now.tensors entries storages.now }
{
    let graph = lower(alloc, p)?;
    finishes_on(alloc, &graph, storages, refuses, left)
}

/// Want of memory is answered just where the block would take more, and again the second time. What was taken before stands.
#[test]
fn a_block_may_refuse(rt: HostRuntime) -> Result<(), Fail> {
    let (program, storages) = product(rt.alloc())?;
    for (block, tokens) in TAKEN.iter().enumerate() {
        for left in 0..4u64 {
            let (first, second) = finishes(rt.alloc(), &program, storages.as_slice(), block, left)?;
            if *tokens > left {
                assert_eq!(rt; first.finished, None, "block {block} after {left}");
                assert_eq!(rt; first.left, Some(0), "block {block} after {left}");
                assert_eq!(rt; second.finished, None, "block {block} after {left}");
                assert!(rt; first.moves <= second.moves, "block {block} after {left}");
            } else {
                let end = Outcome {
                    finished: Some(true),
                    moves: MOVES,
                    left: Some(left - *tokens),
                };
                assert_eq!(rt; first, end, "block {block} after {left}");
                assert_eq!(rt; second, end, "block {block} after {left}");
            }
        }
    }
    Ok(())
}
