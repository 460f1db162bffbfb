//! A run, with a thread for every block, of a graph that computes a program's tensor, and what is answered of it.

ghost use Rattle.std.specs.Prelude.{◌≡◌, ◌≤◌, ◌⊎◌, List, true, Err, IfOk};
ghost use Rattle.sam_base.specs.declared.faults.Fault.TheVariants.{OutOfMemory};
ghost use Rattle.sam_base.specs.declared.TheConstants.{CAPACITY_MOST};
ghost use Rattle.sam_model.specs.declared.tensors.Entries.{Entries};
ghost use Rattle.sam_model.specs.Program.{accepted};
ghost use Rattle.graph.specs.Writers.{written_listing};
ghost use Rattle.custard_lower.specs.Lowered.{Computes};
ghost use Rattle.inputs.specs.Tensors.{AreStored};
ghost use Rattle.machines.specs.Runnable.{Runnable};
ghost use Rattle.runs.specs.Results.{IsOf, as_listed, result_of};

use any_block::{assemble, gather};
use block_threads::{Gate, run_graph};
use graph::Graph;
use levels::Storage;
use runs::program_result;
use sam_base::Fault;
use sam_model::{Program, Written};
use std::alloc::{AllocError, Global};
use std::sync::Wait;
use std::thread::Threads;

/// Runs a graph over stored tensors, and gathers what its writers keep.
fn run_writers<G: Gate + Sync, R: Threads + Wait + Sync>(
    rt: &R,
    alloc: Global,
    g: &Graph,
    storages: &[Storage],
    levels: u8,
    capacity: u32,
    gate: &G,
) -> Result<Written, AllocError>
    requires runnable { Runnable storages.now g.now }
    requires capacity { (1 ≤ capacity) × (capacity ≤ CAPACITY_MOST) }
    ensures { IfOk result (λ w. w ≡ written_listing storages.now g.now levels) }
{
    let blocks = assemble(alloc, g, storages)?;
    let finished = run_graph(rt, alloc, g, blocks, capacity, gate)?;
    gather(alloc, g, finished.as_slice(), levels)
}

/// The tensor that a program's statement denotes, from a graph that computes it and the tensors as they are stored. The
/// graph runs with a thread for every block, on wires that hold at most `capacity` messages, from 1 to `CAPACITY_MOST`.
///
/// `ResultTooLarge` comes exactly where the tensor has too many coordinates to be written; the one other refusal is want of
/// memory. No proof says that the run ends: where the capacity is too small, it may wait for ever.
pub fn run_threads<G: Gate + Sync, R: Threads + Wait + Sync>(
    rt: &R,
    alloc: Global,
    p: &Program,
    g: &Graph,
    storages: &[Storage],
    capacity: u32,
    gate: &G,
) -> Result<Written, Fault>
    requires accepted { accepted p.now ≡ true }
    requires computes { Computes p.now g.now }
    requires stored { (entries : List Entries) × AreStored p.now.tensors entries storages.now }
    requires capacity { (1 ≤ capacity) × (capacity ≤ CAPACITY_MOST) }
    ensures of { IfOk result (IsOf p.now.result) }
    ensures runs { (entries : List Entries) → AreStored p.now.tensors entries storages.now →
        (as_listed result ≡ result_of p.now entries) ⊎ (result ≡ Err OutOfMemory) }
{
    let levels = p.result.order.len() as u8;
    match run_writers(rt, alloc, g, storages, levels, capacity, gate) {
        Ok(written) => program_result(alloc, p, written),
        Err(_) => Err(Fault::OutOfMemory),
    }
}
