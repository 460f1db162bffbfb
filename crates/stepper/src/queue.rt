//! What waits on a channel.

ghost use Rattle.std.specs.Prelude.{◌≡◌, ◌<◌, ◌-◌, ◌||◌, nat_lt, ℕ, List, [], ◌∷◌, ◌++◌, length, take, drop, slice_get, get_or, not, true, Some, None, IsOk, IsSome, IfOk, OnOk, OnErr};
ghost use Rattle.stream_tokens.specs.declared.Token.{Token as TheToken};
ghost use Rattle.plays.specs.Net.{has_room};
ghost use Rattle.plays.specs.Held.{Queued};

use crate::line::Line;
use sam_base::Items;
use std::alloc::{AllocError, Global};
use std::collections::VecDeque;
use std::marker::Model;
use stream_tokens::Token;

/// Tokens that wait.
#[derive(Drop)]
enum Tokens {
    /// At most so many may wait. Their memory is taken when the queue is made.
    Bounded(VecDeque<Token>, u32),
    Unbounded(Line),
}

/// A queue of tokens, which may have a limit.
#[derive(Drop)]
pub(crate) struct Queue {
    tokens: Tokens,
}

impl Model for Queue {
    ghost use Rattle.plays.specs.Held.{Queued};
    ghost use Rattle.stepper.specs.Queues.{queued, HasItsMemory};

    ghost Value = { Queued };

    ghost view = { λ q. queued q.tokens };

    ghost invariant = { λ q. HasItsMemory q.tokens };
}

impl Queue {
    /// An empty queue.
    pub(crate) fn new(alloc: Global, room: Option<u32>) -> Result<Queue, AllocError>
        ensures empty { IfOk result (λ q. q.tokens ≡ []) }
        ensures room { IfOk result (λ q. q.room ≡ room) }
    {
        let tokens = match room {
            Some(most) => Tokens::Bounded(VecDeque::with_capacity(alloc, most as usize)?, most),
            None => Tokens::Unbounded(Line::new(alloc)),
        };
        Ok(Queue { tokens })
    }

    /// Whether there is no room for another token.
    #[inline]
    pub(crate) fn is_full(&self) -> bool
        ensures { result ≡ not (has_room self.now.room (length self.now.tokens)) }
    {
        match &self.tokens {
            Tokens::Bounded(tokens, most) => tokens.len() >= *most as usize,
            Tokens::Unbounded(_) => false,
        }
    }

    /// Whether there is no room for another token, or so many wait already.
    #[inline]
    pub(crate) fn is_held(&self, long: usize) -> bool
        ensures { result ≡ not (has_room self.now.room (length self.now.tokens)) || not (nat_lt (length self.now.tokens) long) }
    {
        match &self.tokens {
            Tokens::Bounded(tokens, most) => tokens.len() >= *most as usize || tokens.len() >= long,
            Tokens::Unbounded(line) => line.len() >= long,
        }
    }

    /// The token that is taken next.
    #[inline]
    pub(crate) fn front(&self) -> Option<Token>
        ensures { result ≡ slice_get self.now.tokens 0 }
    {
        match &self.tokens {
            Tokens::Bounded(tokens, _) => tokens.front().copied(),
            Tokens::Unbounded(line) => line.front(),
        }
    }

    /// The tokens that lie together from the one that is taken next.
    #[inline]
    pub(crate) fn together(&self) -> &[Token]
        ensures { ((rest : List TheToken) × (result.now ++ rest ≡ self.now.tokens)) }
    {
        match &self.tokens {
            Tokens::Bounded(tokens, _) => tokens.as_slices().0,
            Tokens::Unbounded(line) => line.as_slice(),
        }
    }

    /// Puts a token at the back, where there is room.
    #[inline]
    pub(crate) fn push(&mut self, t: Token) -> Result<(), AllocError>
        requires { has_room self.old.room (length self.old.tokens) ≡ true }
        ensures same_room { self.new.room ≡ self.old.room }
        ensures ok { OnOk result (self.new.tokens ≡ self.old.tokens ++ t ∷ []) }
        ensures err { OnErr result (self.new ≡ self.old) }
        ensures sure { IsSome self.old.room → IsOk result }
    {
        match &mut self.tokens {
            Tokens::Bounded(tokens, _) => match tokens.push_back(t) {
                Ok(()) => Ok(()),
                Err(_) => Err(AllocError),
            },
            Tokens::Unbounded(line) => line.push(t),
        }
    }

    /// Takes the token at the front away.
    #[inline]
    pub(crate) fn pop(&mut self)
        ensures same_room { self.new.room ≡ self.old.room }
        ensures rest { self.new.tokens ≡ drop 1 self.old.tokens }
    {
        match &mut self.tokens {
            Tokens::Bounded(tokens, _) => {
                let _front = tokens.pop_front();
            }
            Tokens::Unbounded(line) => line.pop(),
        }
    }

    /// Takes the token at the back away again.
    #[inline]
    pub(crate) fn unpush(&mut self)
        ensures same_room { self.new.room ≡ self.old.room }
        ensures rest { self.new.tokens ≡ take (length self.old.tokens - 1) self.old.tokens }
    {
        match &mut self.tokens {
            Tokens::Bounded(tokens, _) => {
                let _back = tokens.pop_back();
            }
            Tokens::Unbounded(line) => line.unpush(),
        }
    }
}

/// A queue for each channel, under these limits.
pub(crate) fn queues_for(
    alloc: Global,
    rooms: &Items<Option<u32>>,
) -> Result<Vec<Queue>, AllocError>
    ensures number { IfOk result (λ queues. length queues.items ≡ length rooms.now) }
    ensures empty { IfOk result (λ queues. (c : ℕ) (q : Queued) → slice_get queues.items c ≡ Some q → (q.tokens ≡ []) × (q.room ≡ get_or rooms.now c None)) }
{
    let mut queues = Vec::new(alloc);
    for room in rooms.as_slice() {
        queues.push(Queue::new(alloc, *room)?)?;
    }
    Ok(queues)
}
