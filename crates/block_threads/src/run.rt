//! A graph that runs, with a thread for every block.

ghost use Rattle.std.specs.Prelude.{◌≡◌, ◌<◌, ◌≤◌, ◌^◌, ℕ, false, map, length, List, Some, slice_get, IfOk};
ghost use Rattle.sam_model.specs.Children.{Ranked};
ghost use Rattle.sam_base.specs.declared.TheConstants.{CAPACITY_MOST};
ghost use Rattle.graph.specs.Wiring.{WellFormed};
ghost use Rattle.graph.specs.WholeStreams.{Consistent};
ghost use Rattle.graph.specs.Standing.{StandAt, start_position, final_position};
ghost use Rattle.block_threads.specs.declared.nest.Job.{Job};
ghost use Rattle.block_threads.specs.declared.nest.Task.TheVariants as Task;
ghost use Rattle.block_threads.specs.declared.working.Worked.{Worked};
ghost use Rattle.block_threads.specs.Wires.{wired_streams, HasWires};

use crate::gate::Gate;
use crate::nest::{Task, run_all};
use crate::wires::Wires;
use block_core::BlockStep;
use graph::{Graph, forward_order};
use ruled_wires::Streams;
use std::alloc::{AllocError, Global};
use std::marker::Brand;
use std::sync::Wait;
use std::thread::Threads;

/// A job for each block, with the ends of its wires.
fn tasks_for<W: Streams, B: Drop>(
    alloc: Global,
    g: &Graph,
    blocks: Vec<B>,
    capacity: u32,
) -> Result<Vec<Task<W, B>>, AllocError>
    requires formed { WellFormed g.now }
    requires few_blocks { length g.now.blocks < 2 ^ 32 }
    requires few_channels { length g.now.channels < 2 ^ 32 }
    requires number { length blocks.items ≡ length g.now.blocks }
    requires streams { length W.streams ≡ length g.now.channels }
    requires capacity { (1 ≤ capacity) × (capacity ≤ CAPACITY_MOST) }
    ensures number { IfOk result (λ tasks. length tasks.items ≡ length blocks.items) }
    ensures jobs { IfOk result (λ tasks. (b : ℕ) (x : B) → slice_get blocks.items b ≡ Some x → (j : Job W B) × (slice_get tasks.items b ≡ Some (Task.Ready j)) × (j.block ≡ x) × HasWires g.now b j.ins.items j.outs.items) }
{
    let mut wires = Wires::<W>::new(alloc, g, capacity)?;
    let mut tasks = Vec::with_capacity(alloc, blocks.len())?;
    for block in blocks {
        let job = wires.job(alloc, g, tasks.len(), block)?;
        tasks.push(Task::Ready(job))?;
    }
    Ok(tasks)
}

/// The blocks whose works have ended, in their order. That something was lost is want of memory.
fn blocks_of<W: Streams, B: Drop>(
    alloc: Global,
    tasks: Vec<Task<W, B>>,
) -> Result<Vec<B>, AllocError>
    requires ended { (b : ℕ) → b < length tasks.items → (w : Worked W B) × (slice_get tasks.items b ≡ Some (Task.Ended w)) }
    ensures number { IfOk result (λ blocks. length blocks.items ≡ length tasks.items) }
    ensures blocks { IfOk result (λ blocks. (b : ℕ) (w : Worked W B) → slice_get tasks.items b ≡ Some (Task.Ended w) → (slice_get blocks.items b ≡ Some w.block) × (w.lost ≡ false)) }
{
    let mut blocks = Vec::with_capacity(alloc, tasks.len())?;
    for task in tasks {
        let Task::Ended(worked) = task else {
            unreachable!()
        };
        if worked.lost {
            return Err(AllocError);
        }
        blocks.push(worked.block)?;
    }
    Ok(blocks)
}

/// The graph's run on wires that carry these streams.
fn run_on<W: Streams + Send, B: BlockStep + Send + Drop, G: Gate + Sync, R: Threads + Wait + Sync>(
    rt: &R,
    alloc: Global,
    g: &Graph,
    blocks: Vec<B>,
    capacity: u32,
    gate: &G,
) -> Result<Vec<B>, AllocError>
    requires formed { WellFormed g.now }
    requires few_blocks { length g.now.blocks < 2 ^ 32 }
    requires few_channels { length g.now.channels < 2 ^ 32 }
    requires own { (storages : List Ranked) × Consistent storages g.now × StandAt B.kind B.stands storages g.now start_position blocks.items }
    requires streams { W.streams ≡ wired_streams (map B.kind blocks.items) g.now }
    requires capacity { (1 ≤ capacity) × (capacity ≤ CAPACITY_MOST) }
    ensures finished { IfOk result (λ done. (storages : List Ranked) → Consistent storages g.now → StandAt B.kind B.stands storages g.now start_position blocks.items → StandAt B.kind B.stands storages g.now (final_position storages g.now) done.items) }
{
    let order = forward_order(alloc, g)?;
    let tasks = tasks_for::<W, B>(alloc, g, blocks, capacity)?;
    let tasks = run_all(rt, gate, order.as_slice(), tasks);
    blocks_of(alloc, tasks)
}

/// Runs a graph with a thread for every block, on wires that hold at most `capacity` messages, from 1 to `CAPACITY_MOST`.
///
/// `blocks` are the graph's own, in order, at their starts. `Ok` has every block finished on the whole streams of the graph, in
/// the same order; the one refusal is want of memory. No proof says that the run ends.
pub fn run_graph<B: BlockStep + Send + Drop, G: Gate + Sync, R: Threads + Wait + Sync>(
    rt: &R,
    alloc: Global,
    g: &Graph,
    blocks: Vec<B>,
    capacity: u32,
    gate: &G,
) -> Result<Vec<B>, AllocError>
    requires formed { WellFormed g.now }
    requires few_blocks { length g.now.blocks < 2 ^ 32 }
    requires few_channels { length g.now.channels < 2 ^ 32 }
    requires own { (storages : List Ranked) × Consistent storages g.now × StandAt B.kind B.stands storages g.now start_position blocks.items }
    requires capacity { (1 ≤ capacity) × (capacity ≤ CAPACITY_MOST) }
    ensures finished { IfOk result (λ done. (storages : List Ranked) → Consistent storages g.now → StandAt B.kind B.stands storages g.now start_position blocks.items → StandAt B.kind B.stands storages g.now (final_position storages g.now) done.items) }
{
    run_on::<Brand, B, G, R>(rt, alloc, g, blocks, capacity, gate)
}
