//! The block that drops coordinates whose fiber is empty.

ghost use Rattle.std.specs.Prelude.{◌≡◌, false};
ghost use Rattle.block_core.specs.Kind.{DropFiberKind, moves};
ghost use Rattle.block_core.specs.Stands.{Stands, StandsAtStart};
ghost use Rattle.block_core.specs.Runs.{Runs};
ghost use Rattle.block_core.proofs.Unique.{same-wish};
ghost use Rattle.shape_blocks.specs.DropFiberSteps.{fiber_stopped, drop_fiber_steps};

use block_core::{BlockStep, Wish};
use std::alloc::AllocError;
use stream_tokens::Token;

/// How far a fiber dropper has come. A flag says whether a coordinate of the outer fiber at hand was kept before.
#[derive(Clone, Copy)]
enum DropFiberState {
    /// The next token of the outer coordinates is wanted.
    Outer(bool),
    /// The first token of the fiber of this coordinate is wanted.
    First(bool, Token),
    /// This coordinate is kept, and put before this first token of its fiber.
    Keeping(bool, Token, Token),
    /// The stop between two kept fibers is put, before this token.
    Between(Token),
    /// This token of a kept fiber is put.
    Inner(Token),
    /// The next token of a kept fiber is wanted.
    Rest,
    /// The outer fiber ends where its last inner one ended with this stop, and its own stop is wanted.
    Closing(Token),
    /// The outer stream has no coordinate here, and the token of the inner one beside its own is wanted.
    Beside(Token),
    /// Both tokens are put, the outer first.
    Both(Token, Token),
    /// This token of the inner stream is put.
    Second(Token),
    Ended,
}

/// What follows where the fiber at hand ended with the stop `n`: the outer fiber goes on, or it ends too.
#[inline]
fn stopped(kept: bool, n: u8) -> DropFiberState
    ensures { result ≡ fiber_stopped kept n }
{
    match n {
        0 => DropFiberState::Outer(kept),
        _ => DropFiberState::Closing(Token::Stop(n)),
    }
}

impl DropFiberState {
    #[inline]
    fn wants(self) -> Wish
        ensures { result ≡ drop_fiber_steps.wants self }
    {
        match self {
            DropFiberState::Outer(_) | DropFiberState::Closing(_) => Wish::Take(0),
            DropFiberState::First(_, _) | DropFiberState::Rest | DropFiberState::Beside(_) => {
                Wish::Take(1)
            }
            DropFiberState::Keeping(_, t, _) | DropFiberState::Both(t, _) => Wish::Put(0, t),
            DropFiberState::Between(_) => Wish::Put(1, Token::Stop(0)),
            DropFiberState::Inner(t) | DropFiberState::Second(t) => Wish::Put(1, t),
            DropFiberState::Ended => Wish::Finished,
        }
    }

    #[inline]
    fn took(self, t: Token) -> DropFiberState
        ensures { result ≡ drop_fiber_steps.took self t }
    {
        match self {
            DropFiberState::Outer(kept) => match t {
                Token::Item(_) | Token::Empty => DropFiberState::First(kept, t),
                Token::Stop(_) | Token::Done => DropFiberState::Beside(t),
            },
            DropFiberState::First(kept, coordinate) => match t {
                Token::Item(_) | Token::Empty => DropFiberState::Keeping(kept, coordinate, t),
                Token::Stop(n) => stopped(kept, n),
                Token::Done => DropFiberState::Ended,
            },
            DropFiberState::Rest => match t {
                Token::Item(_) | Token::Empty => DropFiberState::Inner(t),
                Token::Stop(n) => stopped(true, n),
                Token::Done => DropFiberState::Ended,
            },
            DropFiberState::Closing(stop) => DropFiberState::Both(t, stop),
            DropFiberState::Beside(outer) => DropFiberState::Both(outer, t),
            other => other,
        }
    }

    #[inline]
    fn put(self) -> DropFiberState
        ensures { result ≡ drop_fiber_steps.put self }
    {
        match self {
            DropFiberState::Keeping(true, _, first) => DropFiberState::Between(first),
            DropFiberState::Keeping(false, _, first) => DropFiberState::Inner(first),
            DropFiberState::Between(t) => DropFiberState::Inner(t),
            DropFiberState::Inner(_) => DropFiberState::Rest,
            DropFiberState::Both(_, inner) => DropFiberState::Second(inner),
            DropFiberState::Second(Token::Done) => DropFiberState::Ended,
            DropFiberState::Second(_) => DropFiberState::Outer(false),
            other => other,
        }
    }
}

/// The fiber dropper: of an outer stream and an inner one beneath it, it leaves out each outer coordinate whose fiber is
/// empty, with that fiber.
///
/// It has the outer coordinates, of depth d, at input 0 and the inner, of depth d + 1, at input 1, and the same at its
/// outputs. It keeps two tokens at most, whatever the length of a fiber.
#[derive(Clone, Copy, Drop)]
pub struct FiberDropper {
    state: DropFiberState,
}

impl FiberDropper {
    /// A fiber dropper before its first move.
    pub fn new() -> FiberDropper
        ensures same_kind { ⟦<FiberDropper as BlockStep>⟧.kind result ≡ DropFiberKind }
        ensures sure { ⟦<FiberDropper as BlockStep>⟧.may_refuse result ≡ false }
        ensures starts { StandsAtStart (⟦<FiberDropper as BlockStep>⟧.stands result) DropFiberKind }
    {
        FiberDropper {
            state: DropFiberState::Outer(false),
        }
    }
}

impl BlockStep for FiberDropper {
    ghost kind = { λ _. DropFiberKind };

    ghost may_refuse = { λ _. false };

    ghost stands = { λ b. Stands (Runs drop_fiber_steps b.state) DropFiberKind };

    fn ins(&self) -> u32 {
        2
    }

    fn outs(&self) -> u32 {
        2
    }

    #[inline]
    fn wish(&self) -> Wish {
        self.state.wants()
    }

    #[inline]
    fn take(&mut self, port: u32, t: Token) -> Result<(), AllocError> {
        self.state = self.state.took(t);
        Ok(())
    }

    #[inline]
    fn did_put(&mut self) {
        self.state = self.state.put();
    }

    ghost stands_fits = { λ b s n h. h.fits };

    ghost stands_within = { λ b s n h. h.within };

    ghost agrees = { λ b s r n h k a. same-wish _ _ n (moves DropFiberKind s) (moves DropFiberKind r) h.rest k.rest a };
}
