//! A schedule of blocks.

ghost use Rattle.std.specs.Prelude.{◌<◌, length, All, IfOk, IfErr};
ghost use Rattle.plays.specs.Told.{HasLists};
ghost use Rattle.stepper.specs.Steps.{SameShape};
ghost use Rattle.stepper.specs.Runs.{Played, PartPlayed};

use super::Machine;
use crate::tap::Tap;
use block_core::BlockStep;
use sam_base::Nums;
use std::alloc::AllocError;

impl<B: BlockStep + Drop> Machine<B> {
    /// One turn for each number of a schedule, in order; a block that can't move stays.
    ///
    /// After want of memory the events so far stand: they are those of a beginning of the schedule.
    pub fn play<T: Tap>(&mut self, schedule: &Nums, tap: &mut T) -> Result<(), AllocError>
        requires within { All (λ b. b < length self.old.blocks) schedule.now }
        requires lists { HasLists (length self.old.queues) (T.told tap.old) }
        ensures played { IfOk result (λ _. Played B.BlockStep schedule.now self.old (T.told tap.old) self.new (T.told tap.new)) }
        ensures refused { IfErr result (λ _. PartPlayed B.BlockStep schedule.now self.old (T.told tap.old) self.new (T.told tap.new)) }
        ensures same_shape { SameShape self.old self.new }
        ensures lists_stay { HasLists (length self.old.queues) (T.told tap.new) }
    {
        for block in schedule.as_slice() {
            let _moved = self.turn(*block as usize, tap)?;
        }
        Ok(())
    }
}
