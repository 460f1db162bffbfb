//! The machine with a thread for every block, where memory is refused to a block.

ghost use Rattle.std.specs.Prelude.{◌≡◌, List, true};
ghost use Rattle.sam_model.specs.declared.tensors.Entries.{Entries};
ghost use Rattle.sam_model.specs.Program.{accepted};
ghost use Rattle.inputs.specs.Tensors.{AreStored};
ghost use Rattle.machines.specs.Runnable.{Runnable};

use crate::product::{TAKEN, product, refusing_blocks};
use block_threads::{OpenGate, run_graph};
use custard_lower::lower;
use graph::Graph;
use levels::Storage;
use sam_model::Program;
use std::alloc::{AllocError, Global};
use std::sync::Wait;
use std::test::Fail;
use std::thread::Threads;

/// Runs a graph where this block refuses its first take, and tells how many blocks are finished.
fn finished_on<R: Threads + Wait + Sync>(
    rt: &R,
    alloc: Global,
    g: &Graph,
    storages: &[Storage],
    refuses: usize,
) -> Result<usize, AllocError>
    requires { Runnable storages.now g.now }
{
    let blocks = refusing_blocks(alloc, g, storages, refuses, 0)?;
    let done = run_graph(rt, alloc, g, blocks, 16, &OpenGate)?;
    Ok(done.len())
}

/// The same on the graph of the product.
fn finished<R: Threads + Wait + Sync>(
    rt: &R,
    alloc: Global,
    p: &Program,
    storages: &[Storage],
    refuses: usize,
) -> Result<usize, AllocError>
    requires accepted { accepted p.now ≡ true }
    requires stored { (entries : List Entries) × AreStored p.now.tensors entries storages.now }
{
    let graph = lower(alloc, p)?;
    finished_on(rt, alloc, &graph, storages, refuses)
}

/// The run ends with want of memory, whichever block refuses. The root takes nothing.
#[test]
fn a_block_may_refuse_in_its_thread(rt: HostRuntime) -> Result<(), Fail> {
    let (program, storages) = product(rt.alloc())?;
    for block in 0..TAKEN.len() {
        let finished = finished(&rt, rt.alloc(), &program, storages.as_slice(), block);
        if block == 0 {
            assert_eq!(rt; finished.ok(), Some(TAKEN.len()));
        } else {
            assert!(rt; finished.is_err(), "block {block}");
        }
    }
    Ok(())
}
