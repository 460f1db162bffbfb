//! The machine.

ghost use Rattle.std.specs.Prelude.{◌≡◌, ◌<◌, ◌^◌, length, IfOk};
ghost use Rattle.graph.specs.Wiring.{WellFormed};
ghost use Rattle.stepper.specs.Capacity.{CapacitiesFor};
ghost use Rattle.stepper.specs.AtState.{OwnBlocks, StartsFrom, Somewhere};

use crate::queue::{Queue, queues_for};
use crate::routes::Plan;
use block_core::BlockStep;
use graph::Graph;
use sam_base::Items;
use std::alloc::{AllocError, Global};
use std::marker::Model;

mod burst;
mod finish;
mod play;
mod step;

pub use finish::Ending;

/// How many tokens may wait on each channel, if there is a limit.
#[derive(Debug, Drop)]
pub struct Capacities {
    pub each: Items<Option<u32>>,
}

/// What a step did.
#[derive(Clone, Copy, Debug, Drop, PartialEq, Eq)]
pub enum Stepped {
    /// One event.
    Moved,
    /// Nothing: the block would put on a channel that is full, or take from one that is empty.
    Blocked { channel: u32, full: bool },
    /// Nothing: the block is finished.
    Ended,
}

/// The blocks of a graph, with what waits on its channels.
#[derive(Drop)]
pub struct Machine<B: BlockStep> {
    blocks: Vec<B>,
    queues: Vec<Queue>,
    moves: u64,
    plan: Plan,
}

impl<B: BlockStep> Model for Machine<B> {
    ghost use Rattle.plays.specs.Held.{Held};
    ghost use Rattle.stepper.specs.Routes.{held_of};
    ghost use Rattle.stepper.specs.AtState.{Somewhere};

    ghost Value = { Held B };

    ghost view = { λ m. held_of m.blocks.items m.queues.items m.moves m.plan };

    ghost invariant = { λ m. ∥ (Somewhere B.BlockStep (held_of m.blocks.items m.queues.items m.moves m.plan)) ∥₁ };
}

impl<B: BlockStep + Drop> Machine<B> {
    /// A machine before the first event, of a graph that is well formed and consistent, with its own blocks at their
    /// starts. Queues with a capacity take their memory here.
    pub fn new(
        alloc: Global,
        g: &Graph,
        blocks: Vec<B>,
        caps: &Capacities,
    ) -> Result<Machine<B>, AllocError>
        requires formed { WellFormed g.now }
        requires few_blocks { length g.now.blocks < 2 ^ 32 }
        requires few_channels { length g.now.channels < 2 ^ 32 }
        requires capacities { CapacitiesFor (length g.now.channels) caps.now.each }
        requires own { OwnBlocks B.BlockStep g.now blocks.items }
        ensures starts { IfOk result (λ machine. StartsFrom B.BlockStep g.now caps.now.each blocks.items machine) }
        ensures same_blocks { IfOk result (λ machine. machine.blocks ≡ blocks.items) }
        ensures queues { IfOk result (λ machine. length machine.queues ≡ length g.now.channels) }
        ensures no_event { IfOk result (λ machine. machine.moves ≡ 0) }
    {
        let queues = queues_for(alloc, &caps.each)?;
        let plan = Plan::new(alloc, g)?;
        Ok(Machine {
            blocks,
            queues,
            moves: 0,
            plan,
        })
    }

    /// The machine stands somewhere.
    pub(super) fn stands(&self)
        ensures { ∥ (Somewhere B.BlockStep self.now) ∥₁ }
    {
        let _moves = self.moves;
    }

    /// The number of events so far.
    pub fn moves(&self) -> u64
        ensures { result ≡ self.now.moves }
    {
        self.moves
    }

    /// The blocks.
    pub fn blocks(&self) -> &[B]
        ensures { result.now ≡ self.now.blocks }
    {
        self.blocks.as_slice()
    }
}
