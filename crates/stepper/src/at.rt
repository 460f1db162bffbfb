//! One block or one queue of many.

ghost use Rattle.std.specs.Prelude.{◌≡◌, ◌<◌, ◌+◌, ◌-◌, ℕ, false, true, [], ◌∷◌, ◌++◌, length, take, drop, set, slice_get, Some, IsOk, IsSome, IfOk, IfErr};
ghost use Rattle.block_core.specs.Move.{wish_of};
ghost use Rattle.block_core.specs.Ports.{Streams};
ghost use Rattle.block_core.specs.Kind.{moves};
ghost use Rattle.plays.specs.Net.{has_room};
ghost use Rattle.plays.specs.Held.{Queued};
ghost use Rattle.stepper.specs.OneBlock.{MayTakeAt, TookAt, MayPutAt, PutAt};

use crate::queue::Queue;
use block_core::{BlockStep, Wish};
use std::alloc::AllocError;
use stream_tokens::Token;

/// The next move of a block.
#[inline]
pub(crate) fn wish_at<B: BlockStep>(blocks: &[B], block: usize) -> Wish
    requires { block < length blocks.now }
    ensures { (x : B) (s : Streams) (n : ℕ) → slice_get blocks.now block ≡ Some x → B.stands x s n → result ≡ wish_of (drop n (moves (B.kind x) s)) }
{
    blocks[block].wish()
}

/// A block takes its next token.
#[inline]
pub(crate) fn take_at<B: BlockStep>(
    blocks: &mut Vec<B>,
    block: usize,
    port: u32,
    t: Token,
) -> Result<(), AllocError>
    requires within { block < length blocks.old.items }
    requires may { MayTakeAt B.BlockStep blocks.old.items block port t }
    ensures moved { IfOk result (λ _. TookAt B.BlockStep blocks.old.items block port t blocks.new.items) }
    ensures refused { IfErr result (λ _. blocks.new.items ≡ blocks.old.items) }
    ensures same_length { length blocks.new.items ≡ length blocks.old.items }
    ensures sure { (x : B) → slice_get blocks.old.items block ≡ Some x → B.may_refuse x ≡ false → IsOk result }
{
    blocks[block].take(port, t)
}

/// A block has put its token.
#[inline]
pub(crate) fn did_put_at<B: BlockStep>(blocks: &mut Vec<B>, block: usize)
    requires within { block < length blocks.old.items }
    requires may { MayPutAt B.BlockStep blocks.old.items block }
    ensures same_length { length blocks.new.items ≡ length blocks.old.items }
    ensures moved { PutAt B.BlockStep blocks.old.items block blocks.new.items }
{
    blocks[block].did_put();
}

/// A token is put at the back of a queue.
#[inline]
pub(crate) fn push_at(queues: &mut Vec<Queue>, place: usize, t: Token) -> Result<(), AllocError>
    requires within { place < length queues.old.items }
    requires room { (q : Queued) → slice_get queues.old.items place ≡ Some q → has_room q.room (length q.tokens) ≡ true }
    ensures ok { IfOk result (λ _. (q : Queued) → slice_get queues.old.items place ≡ Some q → queues.new.items ≡ set queues.old.items place (record { tokens = q.tokens ++ t ∷ []; room = q.room })) }
    ensures refused { IfErr result (λ _. queues.new.items ≡ queues.old.items) }
    ensures same_length { length queues.new.items ≡ length queues.old.items }
    ensures sure { (q : Queued) → slice_get queues.old.items place ≡ Some q → IsSome q.room → IsOk result }
{
    queues[place].push(t)
}

/// The token at the front of a queue is taken away.
#[inline]
pub(crate) fn pop_at(queues: &mut Vec<Queue>, place: usize)
    requires { place < length queues.old.items }
    ensures same_length { length queues.new.items ≡ length queues.old.items }
    ensures left { (q : Queued) → slice_get queues.old.items place ≡ Some q → queues.new.items ≡ set queues.old.items place (record { tokens = drop 1 q.tokens; room = q.room }) }
{
    queues[place].pop();
}

/// The token at the back of a queue is taken away again.
#[inline]
pub(crate) fn unpush_at(queues: &mut Vec<Queue>, place: usize)
    requires { place < length queues.old.items }
    ensures same_length { length queues.new.items ≡ length queues.old.items }
    ensures left { (q : Queued) → slice_get queues.old.items place ≡ Some q → queues.new.items ≡ set queues.old.items place (record { tokens = take (length q.tokens - 1) q.tokens; room = q.room }) }
{
    queues[place].unpush();
}
