//! A run on the machine of a graph that computes a program's tensor, and what is answered of it.

ghost use Rattle.std.specs.Prelude.{◌≡◌, ◌⊎◌, ◌<◌, All, List, length, true, Err, IfOk};
ghost use Rattle.sam_base.specs.declared.faults.Fault.TheVariants.{OutOfMemory};
ghost use Rattle.sam_model.specs.declared.tensors.Entries.{Entries};
ghost use Rattle.sam_model.specs.Program.{accepted};
ghost use Rattle.machines.specs.Runnable.{Runnable};
ghost use Rattle.custard_lower.specs.Lowered.{Computes};
ghost use Rattle.inputs.specs.Tensors.{AreStored};
ghost use Rattle.stepper.specs.Capacity.{CapacitiesFor};
ghost use Rattle.runs.specs.Results.{IsOf, as_listed};
ghost use Rattle.runs.specs.Runs.{Leaves, RunsTo};

use crate::results::program_result;
use any_block::gather;
use graph::Graph;
use levels::Storage;
use machines::machine_for;
use sam_base::{Fault, Items, Nums, Waiting};
use sam_model::{Program, Written};
use std::alloc::{AllocError, Global};
use stepper::{Capacities, Ending, NoTap};

/// What a run leaves: the listing that its writers keep, or the blocks that wait.
#[derive(Drop)]
pub(crate) enum Outcome {
    Listing(Written),
    Waits(Items<Waiting>),
}

/// Plays the schedule, and then goes on until no block can move.
fn run(
    alloc: Global,
    g: &Graph,
    storages: &[Storage],
    capacities: &Capacities,
    schedule: &Nums,
    levels: u8,
) -> Result<Outcome, AllocError>
    requires runnable { Runnable storages.now g.now }
    requires capacities { CapacitiesFor (length g.now.channels) capacities.now.each }
    requires schedule { All (λ block. block < length g.now.blocks) schedule.now }
    ensures { IfOk result (Leaves storages.now g.now capacities.now.each levels) }
{
    let mut machine = machine_for(alloc, g, storages, capacities)?;
    machine.play(schedule, &mut NoTap)?;
    match machine.finish(&mut NoTap)? {
        Ending::Finished => Ok(Outcome::Listing(gather(alloc, g, machine.blocks(), levels)?)),
        Ending::Stalled(list) => Ok(Outcome::Waits(list)),
    }
}

/// The tensor that a program denotes, from a graph that computes it and its tensors as they are stored, under these capacities of the
/// channels and after this schedule of blocks. `Stalled` has the blocks that wait
/// where the run stalls; `ResultTooLarge` comes where the tensor has too many coordinates to be written.
pub fn run_program(
    alloc: Global,
    p: &Program,
    g: &Graph,
    storages: &[Storage],
    capacities: &Capacities,
    schedule: &Nums,
) -> Result<Written, Fault>
    requires accepted { accepted p.now ≡ true }
    requires computes { Computes p.now g.now }
    requires stored { (entries : List Entries) × AreStored p.now.tensors entries storages.now }
    requires capacities { CapacitiesFor (length g.now.channels) capacities.now.each }
    requires schedule { All (λ block. block < length g.now.blocks) schedule.now }
    ensures of { IfOk result (IsOf p.now.result) }
    ensures runs { (entries : List Entries) → AreStored p.now.tensors entries storages.now →
        RunsTo p.now g.now entries capacities.now.each (as_listed result) ⊎ (result ≡ Err OutOfMemory) }
{
    let levels = p.result.order.len() as u8;
    match run(alloc, g, storages, capacities, schedule, levels) {
        Err(_) => Err(Fault::OutOfMemory),
        Ok(Outcome::Waits(list)) => Err(Fault::Stalled(list)),
        Ok(Outcome::Listing(written)) => program_result(alloc, p, written),
    }
}
