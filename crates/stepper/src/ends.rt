//! The ends of the channels at one block's ports.

ghost use Rattle.std.specs.Prelude.{◌≡◌, ◌<◌, ◌+◌, ◌-◌, ◌^◌, [], ◌∷◌, true, min, refl, length, drop, Some, false, IfOk, IfErr};
ghost use Rattle.std.proofs.Common.{◌∙◌};
ghost use Rattle.stream_tokens.specs.declared.Token.{Token as Tok};
ghost use Rattle.block_core.specs.Move.{Taking, Putting};
ghost use Rattle.plays.specs.Rest.{ends_at, first_at, MayRelayOne, waits_at, FedAt, SameEnds, MadeAt, BurstAt, MayBurst};
ghost use Rattle.stepper.specs.EndsView.{seen};
ghost use Rattle.plays.proofs.Rests.{same_none, same_then, made_none, made_then, fed_made, comes};

use crate::at::{pop_at, push_at, unpush_at};
use crate::queue::Queue;
use crate::tap::Tap;
use block_core::{BlockStep, Ports};
use std::alloc::AllocError;
use stream_tokens::Token;

/// One event more, as far as the count goes.
#[inline]
fn one_more(moves: u64) -> u64
    ensures { result ≡ min (moves + 1) (2 ^ 64 - 1) }
{
    moves.saturating_add(1)
}

/// How many events a block has in a row, at most.
const BURST: u32 = 512;

/// The queues of all channels, with the rows of the channels at one block's ports. Nothing is put on a queue that is long.
#[derive(Drop)]
pub(crate) struct Ends<'a, T: Tap> {
    pub(crate) queues: &'a mut Vec<Queue>,
    pub(crate) tap: &'a mut T,
    pub(crate) moves: u64,
    pub(crate) block: usize,
    pub(crate) ins: &'a [u32],
    pub(crate) outs: &'a [u32],
    pub(crate) long: usize,
}

impl<'a, T: Tap> Ends<'a, T> {
    /// Takes the token that waits first at an input, and puts another on an output, where there is room.
    #[inline]
    fn relay_one(&mut self, from: u32, to: u32, t: Token) -> Result<bool, AllocError>
        requires may { MayRelayOne (seen T.Tap self.old) from to t }
        ensures same_queues { self.new.queues.ghost_name ≡ self.old.queues.ghost_name }
        ensures same_tap { self.new.tap.ghost_name ≡ self.old.tap.ghost_name }
        ensures same_ends { SameEnds (seen T.Tap self.old) (seen T.Tap self.new) }
        ensures relayed { result ≡ Ok true → (u : Tok) → first_at (seen T.Tap self.old) from ≡ Some u → MadeAt (seen T.Tap self.old) (Taking from u ∷ Putting to t ∷ []) (seen T.Tap self.new) }
        ensures left { result ≡ Ok true → waits_at (seen T.Tap self.new) from ≡ drop 1 (waits_at (seen T.Tap self.old) from) }
        ensures full { result ≡ Ok false → MadeAt (seen T.Tap self.old) [] (seen T.Tap self.new) }
        ensures refused { IfErr result (λ _. MadeAt (seen T.Tap self.old) [] (seen T.Tap self.new)) }
    {
        let ins = self.ins;
        let source = ins[from as usize] as usize;
        let channel = self.outs[to as usize];
        let place = channel as usize;
        if self.queues[place].is_held(self.long) {
            return Ok(false);
        }
        push_at(self.queues, place, t)?;
        let told = self.tap.on_put(channel, t);
        if let Err(error) = told {
            unpush_at(self.queues, place);
            return Err(error);
        }
        pop_at(self.queues, source);
        self.moves = one_more(one_more(self.moves));
        Ok(true)
    }
}

impl<'a, T: Tap> Ports for Ends<'a, T> {
    ghost fed = { λ v. FedAt (seen T.Tap v) };

    ghost waits = { λ v. waits_at (seen T.Tap v) };

    ghost same = { λ v w. (w.queues.ghost_name ≡ v.queues.ghost_name) × (w.tap.ghost_name ≡ v.tap.ghost_name) × SameEnds (seen T.Tap v) (seen T.Tap w) };

    ghost did = { λ v ms w. MadeAt (seen T.Tap v) ms (seen T.Tap w) };

    #[inline]
    fn front(&self, port: u32) -> Option<Token> {
        self.queues[self.ins[port as usize] as usize].front()
    }

    #[inline]
    fn waiting(&self, port: u32) -> &[Token] {
        self.queues[self.ins[port as usize] as usize].together()
    }

    #[inline]
    fn relay(&mut self, from: u32, to: u32, out: &[Token]) -> Result<usize, AllocError> {
        for i in 0..out.len() {
            if !self.relay_one(from, to, out[i])? {
                return Ok(i);
            }
        }
        Ok(out.len())
    }

    #[inline]
    fn pop(&mut self, port: u32) {
        let ins = self.ins;
        let place = ins[port as usize] as usize;
        pop_at(self.queues, place);
        self.moves = one_more(self.moves);
    }

    // Every kind of block puts, so a call of its own would be made: what it saves and restores is a third of a put.
    #[inline(always)]
    fn put(&mut self, port: u32, t: Token) -> Result<bool, AllocError> {
        let channel = self.outs[port as usize];
        let place = channel as usize;
        if self.queues[place].is_held(self.long) {
            return Ok(false);
        }
        push_at(self.queues, place, t)?;
        let told = self.tap.on_put(channel, t);
        if let Err(error) = told {
            unpush_at(self.queues, place);
            return Err(error);
        }
        self.moves = one_more(self.moves);
        Ok(true)
    }

    ghost same_none = { λ v. (refl, refl, same_none _) };

    ghost same_then = { λ u v w a b. (b.0 ∙ a.0, b.1 ∙ a.1, same_then _ _ _ a.2 b.2) };

    ghost did_none = { λ v. made_none _ };

    ghost did_then = { λ u v w xs ys a b. made_then _ _ _ xs ys a b };

    ghost fed_after = { λ v w xs rest a f. fed_made _ _ xs rest a f };

    ghost comes = { λ v port t rest f. comes _ port t rest f };
}

/// Some moves of one block of many, with no put on a queue that is this long. The answer says whether there was one.
pub(crate) fn burst_at<B: BlockStep, T: Tap>(
    blocks: &mut Vec<B>,
    queues: &mut Vec<Queue>,
    moves: &mut u64,
    tap: &mut T,
    block: usize,
    ins: &[u32],
    outs: &[u32],
    long: usize,
) -> Result<bool, AllocError>
    requires within { block < length blocks.old.items }
    requires may { MayBurst B.BlockStep blocks.old.items (ends_at queues.old.items (T.told tap.old) moves.old block ins.now outs.now) }
    ensures same_length { length blocks.new.items ≡ length blocks.old.items }
    ensures same_ends { SameEnds (ends_at queues.old.items (T.told tap.old) moves.old block ins.now outs.now) (ends_at queues.new.items (T.told tap.new) moves.new block ins.now outs.now) }
    ensures poured { IfOk result (λ went. BurstAt B.BlockStep blocks.old.items (ends_at queues.old.items (T.told tap.old) moves.old block ins.now outs.now) blocks.new.items (ends_at queues.new.items (T.told tap.new) moves.new block ins.now outs.now) went) }
    ensures refused { IfErr result (λ _. BurstAt B.BlockStep blocks.old.items (ends_at queues.old.items (T.told tap.old) moves.old block ins.now outs.now) blocks.new.items (ends_at queues.new.items (T.told tap.new) moves.new block ins.now outs.now) false) }
{
    let mut ends = Ends {
        queues,
        tap,
        moves: *moves,
        block,
        ins,
        outs,
        long,
    };
    let went = blocks[block].burst(&mut ends, BURST);
    *moves = ends.moves;
    went
}
