//! The block that copies one stream to several outputs.

ghost use Rattle.std.specs.Prelude.{◌≡◌, ◌+◌, false};
ghost use Rattle.block_core.specs.Kind.{CastKind, moves};
ghost use Rattle.block_core.specs.Stands.{Stands, StandsAtStart};
ghost use Rattle.block_core.specs.Runs.{Runs};
ghost use Rattle.block_core.proofs.Unique.{same-wish};
ghost use Rattle.copy_blocks.specs.CastSteps.{cast_steps, cast_after};

use block_core::{BlockStep, Wish};
use std::alloc::AllocError;
use stream_tokens::Token;

/// How far a broadcast has come.
#[derive(Clone, Copy)]
enum CastState {
    /// The next token is wanted.
    Wanting,
    /// This token is put on this output next.
    Giving(Token, u32),
    Ended,
}

impl CastState {
    /// The state once a token is on all outputs.
    #[inline]
    fn after(t: Token) -> CastState
        ensures { result ≡ cast_after t }
    {
        match t {
            Token::Done => CastState::Ended,
            _ => CastState::Wanting,
        }
    }

    #[inline]
    fn wants(self, outs: u32) -> Wish
        ensures { result ≡ (cast_steps outs).wants self }
    {
        match self {
            CastState::Wanting => Wish::Take(0),
            CastState::Giving(t, port) => Wish::Put(port, t),
            CastState::Ended => Wish::Finished,
        }
    }

    #[inline]
    fn took(self, outs: u32, t: Token) -> CastState
        ensures { result ≡ (cast_steps outs).took self t }
    {
        match self {
            CastState::Wanting if outs > 0 => CastState::Giving(t, 0),
            CastState::Wanting => CastState::after(t),
            other => other,
        }
    }

    #[inline]
    fn put(self, outs: u32) -> CastState
        ensures { result ≡ (cast_steps outs).put self }
    {
        match self {
            CastState::Giving(t, port) if port < outs.saturating_sub(1) => CastState::Giving(
                t,
                port + 1,
            ),
            CastState::Giving(t, _) => CastState::after(t),
            other => other,
        }
    }
}

/// The broadcast: each token of its input is put on each output, in the order of the outputs.
#[derive(Clone, Copy)]
pub struct Cast {
    outs: u32,
    state: CastState,
}

impl Cast {
    /// A broadcast to so many outputs; there may be none.
    pub fn new(outs: u32) -> Cast
        ensures same_kind { ⟦<Cast as BlockStep>⟧.kind result ≡ CastKind outs }
        ensures sure { ⟦<Cast as BlockStep>⟧.may_refuse result ≡ false }
        ensures starts { StandsAtStart (⟦<Cast as BlockStep>⟧.stands result) (CastKind outs) }
    {
        Cast {
            outs,
            state: CastState::Wanting,
        }
    }
}

impl BlockStep for Cast {
    ghost kind = { λ b. CastKind b.outs };

    ghost may_refuse = { λ _. false };

    ghost stands = { λ b. Stands (Runs (cast_steps b.outs) b.state) (CastKind b.outs) };

    fn ins(&self) -> u32 {
        1
    }

    fn outs(&self) -> u32 {
        self.outs
    }

    #[inline]
    fn wish(&self) -> Wish {
        self.state.wants(self.outs)
    }

    #[inline]
    fn take(&mut self, port: u32, t: Token) -> Result<(), AllocError> {
        self.state = self.state.took(self.outs, t);
        Ok(())
    }

    #[inline]
    fn did_put(&mut self) {
        self.state = self.state.put(self.outs);
    }

    ghost stands_fits = { λ b s n h. h.fits };

    ghost stands_within = { λ b s n h. h.within };

    ghost agrees = { λ b s r n h k a. same-wish _ _ n (moves (CastKind b.outs) s) (moves (CastKind b.outs) r) h.rest k.rest a };
}
