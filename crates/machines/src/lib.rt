//! The machine of a graph over stored tensors, at its start.
#![tactic(auto)]

mod anew;

ghost use Rattle.std.specs.Prelude.{◌≡◌, None, length, replicate, IfOk};
ghost use Rattle.plays.specs.Net.{start};
ghost use Rattle.stepper.specs.Capacity.{CapacitiesFor};
ghost use Rattle.stepper.specs.AtState.{AtState};
ghost use Rattle.machines.specs.Runnable.{Runnable};

pub use anew::BlocksAnew;
use any_block::{AnyBlock, assemble};
use block_core::BlockStep;
use graph::Graph;
use levels::Storage;
use sam_base::Items;
use std::alloc::{AllocError, Global};
use stepper::{Capacities, Machine};

/// A queue without a limit for each of so many channels.
pub fn unbounded(alloc: Global, channels: usize) -> Result<Capacities, AllocError>
    ensures alike { IfOk result (λ caps. caps.each ≡ replicate channels None) }
    ensures fit { IfOk result (λ caps. CapacitiesFor channels caps.each) }
{
    Ok(Capacities {
        each: Items::from_vec(vec![in alloc; None; channels]?),
    })
}

/// The machine of a graph over stored tensors, before the first event. A scanner or an array reads one of the storages, by its
/// tensor's number.
pub fn machine_for<'a>(
    alloc: Global,
    g: &Graph,
    storages: &'a [Storage],
    capacities: &Capacities,
) -> Result<Machine<AnyBlock<'a>>, AllocError>
    requires runnable { Runnable storages.now g.now }
    requires capacities { CapacitiesFor (length g.now.channels) capacities.now.each }
    ensures starts { IfOk result (λ machine. AtState ⟦<AnyBlock<'a> as BlockStep>⟧ storages.now g.now capacities.now.each start machine) }
    ensures blocks { IfOk result (λ machine. length machine.blocks ≡ length g.now.blocks) }
    ensures queues { IfOk result (λ machine. length machine.queues ≡ length g.now.channels) }
{
    let blocks = assemble(alloc, g, storages)?;
    Machine::new(alloc, g, blocks, capacities)
}
