//! The block that repeats each token of an outer stream along the fiber that lies beneath it.

ghost use Rattle.std.specs.Prelude.{◌≡◌, false};
ghost use Rattle.block_core.specs.Kind.{RepeatKind, moves};
ghost use Rattle.block_core.specs.Stands.{Stands, StandsAtStart};
ghost use Rattle.block_core.specs.Runs.{Runs};
ghost use Rattle.block_core.proofs.Unique.{same-wish};
ghost use Rattle.copy_blocks.specs.RepeatSteps.{repeat_steps};

use block_core::{BlockStep, Wish};
use std::alloc::AllocError;
use stream_tokens::Token;

/// How far a repeater has come.
#[derive(Clone, Copy)]
enum RepeatState {
    /// The next token of the outer stream is wanted.
    Outer,
    /// The next token of the fiber beneath this outer token is wanted.
    Inner(Token),
    /// This outer token is put once more.
    Again(Token),
    /// The stop of the fiber is put.
    Stopping(u8),
    /// The outer fiber ends too, and its stop is wanted.
    Closing,
    /// The outer stream has no token here, and the inner stream's next is wanted.
    Hollow,
    /// That token is put.
    Passing(Token),
    Ended,
}

impl RepeatState {
    #[inline]
    fn wants(self) -> Wish
        ensures { result ≡ repeat_steps.wants self }
    {
        match self {
            RepeatState::Outer | RepeatState::Closing => Wish::Take(1),
            RepeatState::Inner(_) | RepeatState::Hollow => Wish::Take(0),
            RepeatState::Again(t) | RepeatState::Passing(t) => Wish::Put(0, t),
            RepeatState::Stopping(n) => Wish::Put(0, Token::Stop(n)),
            RepeatState::Ended => Wish::Finished,
        }
    }

    #[inline]
    fn took(self, t: Token) -> RepeatState
        ensures { result ≡ repeat_steps.took self t }
    {
        match self {
            RepeatState::Outer => match t {
                Token::Item(_) | Token::Empty => RepeatState::Inner(t),
                Token::Stop(_) | Token::Done => RepeatState::Hollow,
            },
            RepeatState::Inner(outer) => match t {
                Token::Item(_) | Token::Empty => RepeatState::Again(outer),
                Token::Stop(n) => RepeatState::Stopping(n),
                Token::Done => RepeatState::Ended,
            },
            RepeatState::Closing => RepeatState::Outer,
            RepeatState::Hollow => RepeatState::Passing(t),
            other => other,
        }
    }

    #[inline]
    fn put(self) -> RepeatState
        ensures { result ≡ repeat_steps.put self }
    {
        match self {
            RepeatState::Again(outer) => RepeatState::Inner(outer),
            RepeatState::Stopping(0) => RepeatState::Outer,
            RepeatState::Stopping(_) => RepeatState::Closing,
            RepeatState::Passing(Token::Done) => RepeatState::Ended,
            RepeatState::Passing(_) => RepeatState::Outer,
            other => other,
        }
    }
}

/// The repeater: input 0 has fibers beneath the tokens of input 1, and each of these is put as often as its fiber is
/// long.
#[derive(Clone, Copy)]
pub struct Repeater {
    state: RepeatState,
}

impl Repeater {
    pub fn new() -> Repeater
        ensures same_kind { ⟦<Repeater as BlockStep>⟧.kind result ≡ RepeatKind }
        ensures sure { ⟦<Repeater as BlockStep>⟧.may_refuse result ≡ false }
        ensures starts { StandsAtStart (⟦<Repeater as BlockStep>⟧.stands result) RepeatKind }
    {
        Repeater {
            state: RepeatState::Outer,
        }
    }
}

impl BlockStep for Repeater {
    ghost kind = { λ _. RepeatKind };

    ghost may_refuse = { λ _. false };

    ghost stands = { λ b. Stands (Runs repeat_steps b.state) RepeatKind };

    fn ins(&self) -> u32 {
        2
    }

    fn outs(&self) -> u32 {
        1
    }

    #[inline]
    fn wish(&self) -> Wish {
        self.state.wants()
    }

    #[inline]
    fn take(&mut self, port: u32, t: Token) -> Result<(), AllocError> {
        self.state = self.state.took(t);
        Ok(())
    }

    #[inline]
    fn did_put(&mut self) {
        self.state = self.state.put();
    }

    ghost stands_fits = { λ b s n h. h.fits };

    ghost stands_within = { λ b s n h. h.within };

    ghost agrees = { λ b s r n h k a. same-wish _ _ n (moves RepeatKind s) (moves RepeatKind r) h.rest k.rest a };
}
