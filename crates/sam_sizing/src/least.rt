//! The least capacity.

ghost use Rattle.std.specs.Prelude.{◌≡◌, ◌+◌, ◌<◌, ◌≤◌, ◌^◌, List, length, IfOk};
ghost use Rattle.sam_base.specs.declared.TheConstants.{CAPACITY_MOST};
ghost use Rattle.sam_model.specs.Children.{Ranked};
ghost use Rattle.graph.specs.Wiring.{WellFormed};
ghost use Rattle.sam_sizing.specs.Makers.{MakesFor, WhateverStored};
ghost use Rattle.sam_sizing.specs.Least.{IsLeast};
ghost use Rattle.sam_sizing.specs.Trials.{LiesWithin};

use crate::bounds::{Bounds, doubled};
use crate::maker::Maker;
use crate::trial::trial;
use graph::Graph;
use sam_base::{Items, Waiting};
use std::alloc::{AllocError, Global};
use stepper::Ending;

/// How much room a run needs.
#[derive(Debug, Drop)]
pub enum Least {
    /// With this capacity on every channel a run finishes, and with no smaller one. These are the blocks that wait where a
    /// run with one less ends, in ascending order; none where the capacity is 1.
    Found {
        capacity: u32,
        below: Items<Waiting>,
    },
    /// With the largest capacity that was to be tried a run stalls, and these blocks wait, in ascending order.
    Above(Items<Waiting>),
}

/// Bounds next to each other, from runs with capacities between two bounds.
fn narrowed<M: Maker>(
    alloc: Global,
    g: &Graph,
    maker: &M,
    mut bounds: Bounds,
) -> Result<Bounds, AllocError>
    requires formed { WellFormed g.now }
    requires few_blocks { length g.now.blocks < 2 ^ 32 }
    requires few_channels { length g.now.channels < 2 ^ 32 }
    requires own { (storages : List Ranked) × MakesFor storages g.now (M.kinds maker.now) }
    requires ordered { bounds.low < bounds.high }
    requires most { bounds.high ≤ CAPACITY_MOST }
    ensures next { IfOk result (λ next. next.high ≡ next.low + 1) }
    ensures most { IfOk result (λ next. next.high ≤ bounds.high) }
    ensures within { IfOk result (λ next. WhateverStored g.now (M.kinds maker.now) (λ net. LiesWithin net bounds → LiesWithin net next)) }
{
    'halving: while bounds.are_apart() {
        let middle = bounds.middle();
        let ending = trial(alloc, g, maker, middle)?;
        bounds = bounds.after(middle, ending);
    }
    Ok(bounds)
}

/// The least capacity from 1 to `top` with which a run finishes, given to every channel alike.
///
/// `maker` makes the blocks of `g`, in order; each trial is a run of blocks made anew. `top` is at least 1 and at most
/// `CAPACITY_MOST`. The capacity doubles from 1 until a run finishes or `top` is reached, and then what is left is halved:
/// at most 42 runs. The one refusal is want of memory.
pub fn least_capacity<M: Maker>(
    alloc: Global,
    g: &Graph,
    maker: &M,
    top: u32,
) -> Result<Least, AllocError>
    requires formed { WellFormed g.now }
    requires few_blocks { length g.now.blocks < 2 ^ 32 }
    requires few_channels { length g.now.channels < 2 ^ 32 }
    requires own { (storages : List Ranked) × MakesFor storages g.now (M.kinds maker.now) }
    requires some { 1 ≤ top }
    requires most { top ≤ CAPACITY_MOST }
    ensures { IfOk result (λ least. WhateverStored g.now (M.kinds maker.now) (λ net. IsLeast net top least)) }
{
    let mut low = 0;
    let mut below = Items::new(alloc);
    let mut high = 1;
    'doubling: loop {
        match trial(alloc, g, maker, high)? {
            Ending::Finished => {
                let bounds = narrowed(alloc, g, maker, Bounds { low, below, high })?;
                return Ok(Least::Found {
                    capacity: bounds.high,
                    below: bounds.below,
                });
            }
            Ending::Stalled(waiting) => {
                if high == top {
                    return Ok(Least::Above(waiting));
                }
                low = high;
                below = waiting;
                high = doubled(high, top);
            }
        }
    }
}
