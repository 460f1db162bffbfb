//! One event of the machine.

ghost use Rattle.std.specs.Prelude.{◌≡◌, ◌<◌, ◌+◌, ◌-◌, ◌^◌, min, ℕ, Bool, false, Some, length, slice_get, IsOk, IsSome, IfOk, IfErr};
ghost use Rattle.stream_tokens.specs.declared.Token.{Token};
ghost use Rattle.block_core.specs.declared.Wish.TheVariants.{Take as WishTake, Put as WishPut};
ghost use Rattle.plays.specs.Held.{at_port, Queued};
ghost use Rattle.plays.specs.Told.{Tapped, HasLists};
ghost use Rattle.stepper.specs.Steps.{Wishes, WaitsOn, HasEnded, Moved, SameShape, NeverRefuses, InPlaceSomewhere, MovesInPlace};
ghost use Rattle.stepper.specs.Runs.{Turned};

use super::{Machine, Stepped};
use crate::at::{did_put_at, pop_at, push_at, take_at, unpush_at, wish_at};
use crate::tap::Tap;
use block_core::{BlockStep, Wish};
use std::alloc::AllocError;
use stream_tokens::Token;

/// One event more, as far as the count goes.
#[inline]
fn one_more(moves: u64) -> u64
    ensures { result ≡ min (moves + 1) (2 ^ 64 - 1) }
{
    moves.saturating_add(1)
}

impl<B: BlockStep + Drop> Machine<B> {
    /// What a block would do next.
    #[inline]
    pub(super) fn wish(&self, block: usize) -> Wish
        requires { block < length self.now.blocks }
        ensures { Wishes B.BlockStep block result self.now }
    {
        wish_at(&self.blocks, block)
    }

    /// A block takes a token, where one waits.
    #[inline]
    fn take(&mut self, block: usize, port: u32) -> Result<Stepped, AllocError>
        requires within { block < length self.old.blocks }
        requires wishes { Wishes B.BlockStep block (WishTake port) self.old }
        ensures moved { result ≡ Ok Stepped.Moved → (told : Tapped) → Moved B.BlockStep block self.old told self.new told }
        ensures blocked { (c : ℕ) (full : Bool) → result ≡ Ok (Stepped.Blocked c full) → (self.new ≡ self.old) × WaitsOn B.BlockStep block c full self.old }
        ensures no_end { result ≡ Ok Stepped.Ended → ⊥ }
        ensures refused { IfErr result (λ _. self.new ≡ self.old) }
        ensures same_shape { SameShape self.old self.new }
        ensures sure { NeverRefuses B.BlockStep block self.old → IsOk result }
    {
        let channel = self.plan.ins.at(block, port);
        let place = channel as usize;
        let Some(t) = self.queues[place].front() else {
            return Ok(Stepped::Blocked {
                channel,
                full: false,
            });
        };
        take_at(&mut self.blocks, block, port, t)?;
        pop_at(&mut self.queues, place);
        self.moves = one_more(self.moves);
        Ok(Stepped::Moved)
    }

    /// A block puts a token, where there is room. The queue's memory is taken before the tap is told.
    #[inline]
    fn put<T: Tap>(
        &mut self,
        block: usize,
        port: u32,
        t: Token,
        tap: &mut T,
    ) -> Result<Stepped, AllocError>
        requires within { block < length self.old.blocks }
        requires wishes { Wishes B.BlockStep block (WishPut port t) self.old }
        requires lists { HasLists (length self.old.queues) (T.told tap.old) }
        ensures moved { result ≡ Ok Stepped.Moved → Moved B.BlockStep block self.old (T.told tap.old) self.new (T.told tap.new) }
        ensures blocked { (c : ℕ) (full : Bool) → result ≡ Ok (Stepped.Blocked c full) → (self.new ≡ self.old) × (T.told tap.new ≡ T.told tap.old) × WaitsOn B.BlockStep block c full self.old }
        ensures no_end { result ≡ Ok Stepped.Ended → ⊥ }
        ensures refused { IfErr result (λ _. (self.new ≡ self.old) × (T.told tap.new ≡ T.told tap.old)) }
        ensures same_shape { SameShape self.old self.new }
        ensures lists_stay { HasLists (length self.old.queues) (T.told tap.new) }
        ensures same_refusal { T.may_refuse tap.new ≡ T.may_refuse tap.old }
        ensures sure { ((q : Queued) → slice_get self.old.queues (at_port self.old.routes.outs block port) ≡ Some q → IsSome q.room) → T.may_refuse tap.old ≡ false → IsOk result }
    {
        let channel = self.plan.outs.at(block, port);
        let place = channel as usize;
        if self.queues[place].is_full() {
            return Ok(Stepped::Blocked {
                channel,
                full: true,
            });
        }
        push_at(&mut self.queues, place, t)?;
        let told = tap.on_put(channel, t);
        if let Err(error) = told {
            unpush_at(&mut self.queues, place);
            return Err(error);
        }
        did_put_at(&mut self.blocks, block);
        self.moves = one_more(self.moves);
        Ok(Stepped::Moved)
    }

    /// A block does what it wishes, where it can.
    #[inline]
    pub(super) fn act<T: Tap>(
        &mut self,
        block: usize,
        wish: Wish,
        tap: &mut T,
    ) -> Result<Stepped, AllocError>
        requires within { block < length self.old.blocks }
        requires wishes { Wishes B.BlockStep block wish self.old }
        requires lists { HasLists (length self.old.queues) (T.told tap.old) }
        ensures moved { result ≡ Ok Stepped.Moved → Moved B.BlockStep block self.old (T.told tap.old) self.new (T.told tap.new) }
        ensures blocked { (c : ℕ) (full : Bool) → result ≡ Ok (Stepped.Blocked c full) → (self.new ≡ self.old) × (T.told tap.new ≡ T.told tap.old) × WaitsOn B.BlockStep block c full self.old }
        ensures ended { result ≡ Ok Stepped.Ended → (self.new ≡ self.old) × (T.told tap.new ≡ T.told tap.old) × HasEnded B.BlockStep block self.old }
        ensures refused { IfErr result (λ _. (self.new ≡ self.old) × (T.told tap.new ≡ T.told tap.old)) }
        ensures same_shape { SameShape self.old self.new }
        ensures lists_stay { HasLists (length self.old.queues) (T.told tap.new) }
        ensures same_refusal { T.may_refuse tap.new ≡ T.may_refuse tap.old }
        ensures sure { ∥ (InPlaceSomewhere B.BlockStep block (T.may_refuse tap.old) self.old) ∥₁ → IsOk result }
    {
        match wish {
            Wish::Take(port) => self.take(block, port),
            Wish::Put(port, t) => self.put(block, port, t, tap),
            Wish::Finished => Ok(Stepped::Ended),
        }
    }

    /// One event of a block, or why there is none.
    ///
    /// `Blocked` tells the channel of the block's next move: it is full where the block would put, and else empty. After
    /// `Blocked`, `Ended` and want of memory the machine and the tap are as before. There is no want of memory where the
    /// next move is a take by a block that never refuses, or a put on a channel with a capacity while the tap never refuses.
    pub fn step<T: Tap>(&mut self, block: u32, tap: &mut T) -> Result<Stepped, AllocError>
        requires within { block < length self.old.blocks }
        requires lists { HasLists (length self.old.queues) (T.told tap.old) }
        ensures moved { result ≡ Ok Stepped.Moved → Moved B.BlockStep block self.old (T.told tap.old) self.new (T.told tap.new) }
        ensures blocked { (c : ℕ) (full : Bool) → result ≡ Ok (Stepped.Blocked c full) → (self.new ≡ self.old) × (T.told tap.new ≡ T.told tap.old) × WaitsOn B.BlockStep block c full self.old }
        ensures ended { result ≡ Ok Stepped.Ended → (self.new ≡ self.old) × (T.told tap.new ≡ T.told tap.old) × HasEnded B.BlockStep block self.old }
        ensures refused { IfErr result (λ _. (self.new ≡ self.old) × (T.told tap.new ≡ T.told tap.old)) }
        ensures same_shape { SameShape self.old self.new }
        ensures lists_stay { HasLists (length self.old.queues) (T.told tap.new) }
        ensures same_refusal { T.may_refuse tap.new ≡ T.may_refuse tap.old }
        ensures sure { MovesInPlace B.BlockStep block (T.may_refuse tap.old) self.old → IsOk result }
    {
        self.stands();
        let place = block as usize;
        let wish = self.wish(place);
        self.act(place, wish, tap)
    }

    /// A block does what it wishes, where it can. The answer says whether it could.
    #[inline]
    pub(super) fn attempt<T: Tap>(
        &mut self,
        block: usize,
        wish: Wish,
        tap: &mut T,
    ) -> Result<bool, AllocError>
        requires within { block < length self.old.blocks }
        requires wishes { Wishes B.BlockStep block wish self.old }
        requires lists { HasLists (length self.old.queues) (T.told tap.old) }
        ensures turned { IfOk result (λ moved. Turned B.BlockStep block moved self.old (T.told tap.old) self.new (T.told tap.new)) }
        ensures idle { result ≡ Ok false → (self.new ≡ self.old) × (T.told tap.new ≡ T.told tap.old) }
        ensures refused { IfErr result (λ _. (self.new ≡ self.old) × (T.told tap.new ≡ T.told tap.old)) }
        ensures same_shape { SameShape self.old self.new }
        ensures lists_stay { HasLists (length self.old.queues) (T.told tap.new) }
    {
        match self.act(block, wish, tap)? {
            Stepped::Moved => Ok(true),
            Stepped::Blocked { .. } => Ok(false),
            Stepped::Ended => Ok(false),
        }
    }

    /// One event of a block where there is one. The answer says whether there was.
    #[inline]
    pub(super) fn turn<T: Tap>(&mut self, block: usize, tap: &mut T) -> Result<bool, AllocError>
        requires within { block < length self.old.blocks }
        requires lists { HasLists (length self.old.queues) (T.told tap.old) }
        ensures turned { IfOk result (λ moved. Turned B.BlockStep block moved self.old (T.told tap.old) self.new (T.told tap.new)) }
        ensures idle { result ≡ Ok false → (self.new ≡ self.old) × (T.told tap.new ≡ T.told tap.old) }
        ensures refused { IfErr result (λ _. (self.new ≡ self.old) × (T.told tap.new ≡ T.told tap.old)) }
        ensures same_shape { SameShape self.old self.new }
        ensures lists_stay { HasLists (length self.old.queues) (T.told tap.new) }
    {
        let wish = self.wish(block);
        self.attempt(block, wish, tap)
    }
}
