//! Some events of one block in a row.

ghost use Rattle.std.specs.Prelude.{◌<◌, length, false, IfOk, IfErr};
ghost use Rattle.plays.specs.Told.{HasLists};
ghost use Rattle.stepper.specs.Steps.{SameShape};
ghost use Rattle.stepper.specs.Bursting.{OnwardsBy};

use super::Machine;
use crate::ends::burst_at;
use crate::tap::Tap;
use block_core::BlockStep;
use std::alloc::AllocError;

impl<B: BlockStep + Drop> Machine<B> {
    /// Some events of one block, with no put on a queue that is this long. The answer says whether there was one.
    pub(super) fn burst<T: Tap>(
        &mut self,
        block: usize,
        long: usize,
        tap: &mut T,
    ) -> Result<bool, AllocError>
        requires within { block < length self.old.blocks }
        requires lists { HasLists (length self.old.queues) (T.told tap.old) }
        ensures onwards { IfOk result (λ went. OnwardsBy B.BlockStep self.old (T.told tap.old) self.new (T.told tap.new) went) }
        ensures refused { IfErr result (λ _. OnwardsBy B.BlockStep self.old (T.told tap.old) self.new (T.told tap.new) false) }
        ensures same_shape { SameShape self.old self.new }
        ensures lists_stay { HasLists (length self.old.queues) (T.told tap.new) }
    {
        let ins = self.plan.ins.row(block);
        let outs = self.plan.outs.row(block);
        burst_at(
            &mut self.blocks,
            &mut self.queues,
            &mut self.moves,
            tap,
            block,
            ins,
            outs,
            long,
        )
    }
}
