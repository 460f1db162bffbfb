//! One run, with the same capacity on every channel.

ghost use Rattle.std.specs.Prelude.{◌≡◌, ◌<◌, ◌≤◌, ◌^◌, List, Some, length, replicate, IfOk};
ghost use Rattle.sam_base.specs.declared.TheConstants.{CAPACITY_MOST};
ghost use Rattle.sam_model.specs.Children.{Ranked};
ghost use Rattle.graph.specs.Wiring.{WellFormed};
ghost use Rattle.stepper.specs.Capacity.{CapacitiesFor};
ghost use Rattle.sam_sizing.specs.Makers.{MakesFor, WhateverStored};
ghost use Rattle.sam_sizing.specs.Trials.{EndsAs};

use crate::maker::Maker;
use graph::Graph;
use sam_base::Items;
use std::alloc::{AllocError, Global};
use stepper::{Capacities, Ending, Machine, NoTap};

/// The same capacity for each of so many channels.
fn alike(alloc: Global, channels: usize, capacity: u32) -> Result<Capacities, AllocError>
    requires some { 1 ≤ capacity }
    requires most { capacity ≤ CAPACITY_MOST }
    ensures alike { IfOk result (λ caps. caps.each ≡ replicate channels (Some capacity)) }
    ensures fit { IfOk result (λ caps. CapacitiesFor channels caps.each) }
{
    Ok(Capacities {
        each: Items::from_vec(vec![in alloc; Some(capacity); channels]?),
    })
}

/// How a run ends with this capacity on every channel, of blocks that are made for it.
pub(crate) fn trial<M: Maker>(
    alloc: Global,
    g: &Graph,
    maker: &M,
    capacity: u32,
) -> Result<Ending, AllocError>
    requires formed { WellFormed g.now }
    requires few_blocks { length g.now.blocks < 2 ^ 32 }
    requires few_channels { length g.now.channels < 2 ^ 32 }
    requires own { (storages : List Ranked) × MakesFor storages g.now (M.kinds maker.now) }
    requires some { 1 ≤ capacity }
    requires most { capacity ≤ CAPACITY_MOST }
    ensures { IfOk result (λ ending. WhateverStored g.now (M.kinds maker.now) (λ net. EndsAs net capacity ending)) }
{
    let capacities = alike(alloc, g.channels.len(), capacity)?;
    let blocks = maker.make()?;
    let mut machine = Machine::new(alloc, g, blocks, &capacities)?;
    machine.finish(&mut NoTap)
}
