//! Events until no block has one.

ghost use Rattle.std.specs.Prelude.{◌≡◌, ◌<◌, ◌^◌, ◌||◌, Option, List, false, length, slice_get, Some, option_to_list, IfOk, IfErr};
ghost use Rattle.sam_base.specs.declared.faults.Waiting.{Waiting as Waits};
ghost use Rattle.plays.specs.Net.{Stuck, Finished};
ghost use Rattle.stepper.specs.AtState.{Wherever};
ghost use Rattle.plays.specs.Told.{HasLists};
ghost use Rattle.stepper.specs.Steps.{SameShape};
ghost use Rattle.stepper.specs.Runs.{Onwards};
ghost use Rattle.stepper.specs.Bursting.{OnwardsBy};
ghost use Rattle.stepper.specs.Endings.{waiting_for, waiting_list, StallsWith, BlocksAtEnd};

use super::Machine;
use crate::tap::Tap;
use block_core::{BlockStep, Wish};
use sam_base::{Items, Waiting};
use std::alloc::AllocError;
use std::marker::Brand;
use std::sync::ledger::{Blank, Ledger};

/// On a queue that is as long as this a block puts nothing more at first.
const LONG: usize = 1024;

/// Whether one of the two is true.
#[inline]
fn any_of(a: bool, b: bool) -> bool
    ensures { result ≡ a || b }
{
    a || b
}

/// How a run ended.
#[derive(Debug, Drop)]
pub enum Ending {
    /// Every block is finished.
    Finished,
    /// No block can move, and these aren't finished, in ascending order.
    Stalled(Items<Waiting>),
}

impl<B: BlockStep + Drop> Machine<B> {
    /// The number of visits of one pass.
    fn visits(&self) -> usize
        ensures { result ≡ length self.now.routes.order }
    {
        self.plan.order.len()
    }

    /// The block that is visited at this place of a pass.
    fn visited(&self, n: usize) -> usize
        requires { n < length self.now.routes.order }
        ensures is { slice_get self.now.routes.order n ≡ Some result }
        ensures within { result < length self.now.blocks }
    {
        self.plan.order[n] as usize
    }

    /// A burst of each block in turn, with no put on a queue that is this long. The answer says whether there was an event.
    fn pass<T: Tap>(&mut self, long: usize, tap: &mut T) -> Result<bool, AllocError>
        requires lists { HasLists (length self.old.queues) (T.told tap.old) }
        ensures onwards { IfOk result (λ moved. OnwardsBy B.BlockStep self.old (T.told tap.old) self.new (T.told tap.new) moved) }
        ensures refused { IfErr result (λ _. OnwardsBy B.BlockStep self.old (T.told tap.old) self.new (T.told tap.new) false) }
        ensures same_shape { SameShape self.old self.new }
        ensures lists_stay { HasLists (length self.old.queues) (T.told tap.new) }
    {
        let mut moved = false;
        for n in 0..self.visits() {
            let block = self.visited(n);
            let went = self.burst(block, long, tap)?;
            moved = any_of(moved, went);
        }
        Ok(moved)
    }

    /// An event of the first block that has one, however long the queues are. The answer says whether one has.
    fn press<T: Tap>(&mut self, tap: &mut T) -> Result<bool, AllocError>
        requires lists { HasLists (length self.old.queues) (T.told tap.old) }
        ensures onwards { IfOk result (λ moved. OnwardsBy B.BlockStep self.old (T.told tap.old) self.new (T.told tap.new) moved) }
        ensures refused { IfErr result (λ _. OnwardsBy B.BlockStep self.old (T.told tap.old) self.new (T.told tap.new) false) }
        ensures stuck { result ≡ Ok false → Wherever B.BlockStep self.new Stuck }
        ensures same_shape { SameShape self.old self.new }
        ensures lists_stay { HasLists (length self.old.queues) (T.told tap.new) }
    {
        for n in 0..self.visits() {
            let block = self.visited(n);
            if self.turn(block, tap)? {
                return Ok(true);
            }
        }
        Ok(false)
    }

    /// Some events, where a block has one. The answer says whether one had. Where no block has one while queues stay short,
    /// they may be twice as long from now on.
    fn advance<T: Tap>(&mut self, long: &mut usize, tap: &mut T) -> Result<bool, AllocError>
        requires lists { HasLists (length self.old.queues) (T.told tap.old) }
        ensures onwards { IfOk result (λ moved. OnwardsBy B.BlockStep self.old (T.told tap.old) self.new (T.told tap.new) moved) }
        ensures refused { IfErr result (λ _. OnwardsBy B.BlockStep self.old (T.told tap.old) self.new (T.told tap.new) false) }
        ensures stuck { result ≡ Ok false → Wherever B.BlockStep self.new Stuck }
        ensures same_shape { SameShape self.old self.new }
        ensures lists_stay { HasLists (length self.old.queues) (T.told tap.new) }
    {
        if self.pass(*long, tap)? {
            return Ok(true);
        }
        *long = long.saturating_mul(2);
        self.press(tap)
    }

    /// Rounds of events until no block has one. Each round has an event, so they are fewer than all moves of the blocks; they
    /// are counted without a byte.
    fn run<T: Tap, L: Ledger>(&mut self, tap: &mut T, blank: Blank) -> Result<(), AllocError>
        requires name { blank.name ≡ L.name }
        requires parts { blank.parts ≡ L.parts }
        requires some { 0 < L.parts }
        requires lists { HasLists (length self.old.queues) (T.told tap.old) }
        ensures onwards { Onwards B.BlockStep self.old (T.told tap.old) self.new (T.told tap.new) }
        ensures stuck { IfOk result (λ _. Wherever B.BlockStep self.new Stuck) }
        ensures same_shape { SameShape self.old self.new }
        ensures lists_stay { HasLists (length self.old.queues) (T.told tap.new) }
    {
        self.stands();
        let mut long = LONG;
        let (mut rounds, mut share) = blank.open::<L>();
        while self.advance(&mut long, tap)? {
            rounds.add(&mut share, 1);
        }
        Ok(())
    }

    /// What an unfinished block waits for once no block can move.
    fn waits(&self, block: usize) -> Option<Waiting>
        requires within { block < length self.now.blocks }
        requires few { length self.now.blocks < 2 ^ 32 }
        ensures { Wherever B.BlockStep self.now (λ net rooms s. option_to_list result ≡ waiting_for net block (slice_get (net.moves block) (s block))) }
    {
        match self.wish(block) {
            Wish::Take(port) => Some(Waiting {
                block: block as u32,
                channel: self.plan.ins.at(block, port),
                full: false,
            }),
            Wish::Put(port, _) => Some(Waiting {
                block: block as u32,
                channel: self.plan.outs.at(block, port),
                full: true,
            }),
            Wish::Finished => None,
        }
    }

    /// The unfinished blocks in ascending order.
    fn waiting(&self) -> Result<Items<Waiting>, AllocError>
        ensures { IfOk result (λ list. Wherever B.BlockStep self.now (λ net rooms s. list ≡ waiting_list net s)) }
    {
        let mut list = Items::new(*self.queues.allocator());
        for block in 0..self.blocks.len() {
            if let Some(waiting) = self.waits(block) {
                list.push(waiting)?;
            }
        }
        Ok(list)
    }

    /// How the run ended, once no block can move.
    fn ending(&self) -> Result<Ending, AllocError>
        ensures finished { result ≡ Ok Ending.Finished → Wherever B.BlockStep self.now (λ net rooms s. Finished net s) }
        ensures stalled { (list : List Waits) → result ≡ Ok (Ending.Stalled list) → StallsWith B.BlockStep list self.now }
    {
        let list = self.waiting()?;
        if list.len() == 0 {
            return Ok(Ending::Finished);
        }
        Ok(Ending::Stalled(list))
    }

    /// Events until no block has one.
    ///
    /// Blocks are visited in an order in which channels lead forwards, some hundreds of events each, and queues stay short
    /// where the graph lets them. The answer tells whether every block is finished, and else each unfinished block with the
    /// channel on which it waits. After want of memory the events so far stand.
    pub fn finish<T: Tap>(&mut self, tap: &mut T) -> Result<Ending, AllocError>
        requires { HasLists (length self.old.queues) (T.told tap.old) }
        ensures onwards { Onwards B.BlockStep self.old (T.told tap.old) self.new (T.told tap.new) }
        ensures stuck { IfOk result (λ _. Wherever B.BlockStep self.new Stuck) }
        ensures finished { result ≡ Ok Ending.Finished → Wherever B.BlockStep self.new (λ net rooms s. Finished net s) }
        ensures blocks_end { result ≡ Ok Ending.Finished → BlocksAtEnd B.BlockStep self.new }
        ensures stalled { (list : List Waits) → result ≡ Ok (Ending.Stalled list) → StallsWith B.BlockStep list self.new }
        ensures same_shape { SameShape self.old self.new }
        ensures lists_stay { HasLists (length self.old.queues) (T.told tap.new) }
    {
        self.run::<T, Brand>(tap, Blank::new(1))?;
        self.ending()
    }
}
