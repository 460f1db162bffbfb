//! The tokens of every channel.

ghost use Rattle.std.specs.Prelude.{◌≡◌, ◌<◌, List, length, All, IfOk};
ghost use Rattle.sam_model.specs.declared.tensors.Entries.{Entries};
ghost use Rattle.sam_model.specs.declared.program.Program.{Program};
ghost use Rattle.stepper.specs.Capacity.{CapacitiesFor};
ghost use Rattle.machines.specs.Runnable.{Runnable};
ghost use Rattle.inputs.specs.Tensors.{AreStored};
ghost use Rattle.traces.specs.Traces.{streams_text, moment_text, streams_of, moment_of};

use crate::lines::channel_lines;
use graph::Graph;
use levels::Storage;
use machines::{machine_for, unbounded};
use sam_base::{Name, Nums};
use std::alloc::{AllocError, Global};
use stepper::{Capacities, Ending, KeepAll};

/// A line for each channel of a graph over stored tensors, ascending, with its whole stream.
pub fn streams(alloc: Global, g: &Graph, storages: &[Storage]) -> Result<Name, AllocError>
    requires { Runnable storages.now g.now }
    ensures of_graph { IfOk result (λ text. text ≡ streams_text storages.now g.now) }
    ensures of_program { (p : Program) (entries : List Entries) → AreStored p.tensors entries storages.now →
        IfOk result (λ text. text ≡ streams_of p g.now entries) }
{
    let channels = g.channels.len();
    let mut machine = machine_for(alloc, g, storages, &unbounded(alloc, channels)?)?;
    let mut kept = KeepAll::new(alloc, channels as u32)?;
    match machine.finish(&mut kept)? {
        Ending::Finished => channel_lines(alloc, &kept, channels as u32),
        // Without capacities no run stalls.
        Ending::Stalled(_) => unreachable!(),
    }
}

/// A line for each channel of a graph over stored tensors, ascending, with what was sent on it when the schedule, played from
/// the start under these capacities, ends.
pub fn moment(
    alloc: Global,
    g: &Graph,
    storages: &[Storage],
    capacities: &Capacities,
    schedule: &Nums,
) -> Result<Name, AllocError>
    requires runnable { Runnable storages.now g.now }
    requires capacities { CapacitiesFor (length g.now.channels) capacities.now.each }
    requires schedule { All (λ block. block < length g.now.blocks) schedule.now }
    ensures of_graph { IfOk result (λ text. text ≡ moment_text storages.now g.now capacities.now.each schedule.now) }
    ensures of_program { (p : Program) (entries : List Entries) → AreStored p.tensors entries storages.now →
        IfOk result (λ text. text ≡ moment_of p g.now entries capacities.now.each schedule.now) }
{
    let channels = g.channels.len() as u32;
    let mut machine = machine_for(alloc, g, storages, capacities)?;
    let mut kept = KeepAll::new(alloc, channels)?;
    machine.play(schedule, &mut kept)?;
    channel_lines(alloc, &kept, channels)
}
