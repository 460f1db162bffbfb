//! The block that takes a stream which nobody reads.

ghost use Rattle.std.specs.Prelude.{◌≡◌, false};
ghost use Rattle.block_core.specs.Kind.{DrainKind, moves};
ghost use Rattle.block_core.specs.Steps.{StandsAfterPut};
ghost use Rattle.block_core.specs.Stands.{Stands, StandsAtStart};
ghost use Rattle.block_core.specs.Runs.{Runs};
ghost use Rattle.block_core.proofs.Unique.{same-wish};
ghost use Rattle.copy_blocks.specs.DrainSteps.{drain_steps};

use block_core::{BlockStep, Wish};
use std::alloc::AllocError;
use stream_tokens::Token;

/// How far a drain has come.
#[derive(Clone, Copy)]
enum DrainState {
    Wanting,
    Ended,
}

impl DrainState {
    #[inline]
    fn wants(self) -> Wish
        ensures { result ≡ drain_steps.wants self }
    {
        match self {
            DrainState::Wanting => Wish::Take(0),
            DrainState::Ended => Wish::Finished,
        }
    }

    #[inline]
    fn took(self, t: Token) -> DrainState
        ensures { result ≡ drain_steps.took self t }
    {
        match t {
            Token::Done => DrainState::Ended,
            _ => self,
        }
    }
}

/// The drain: it takes its input to the end, and has no output.
#[derive(Clone, Copy)]
pub struct Drain {
    state: DrainState,
}

impl Drain {
    pub fn new() -> Drain
        ensures same_kind { ⟦<Drain as BlockStep>⟧.kind result ≡ DrainKind }
        ensures sure { ⟦<Drain as BlockStep>⟧.may_refuse result ≡ false }
        ensures starts { StandsAtStart (⟦<Drain as BlockStep>⟧.stands result) DrainKind }
    {
        Drain {
            state: DrainState::Wanting,
        }
    }
}

impl BlockStep for Drain {
    ghost kind = { λ _. DrainKind };

    ghost may_refuse = { λ _. false };

    ghost stands = { λ b. Stands (Runs drain_steps b.state) DrainKind };

    fn ins(&self) -> u32 {
        1
    }

    fn outs(&self) -> u32 {
        0
    }

    #[inline]
    fn wish(&self) -> Wish {
        self.state.wants()
    }

    #[inline]
    fn take(&mut self, port: u32, t: Token) -> Result<(), AllocError> {
        self.state = self.state.took(t);
        Ok(())
    }

    // A drain never puts, so no call could meet the trait's condition: here there is none, and the promises are the trait's.
    #[inline]
    fn did_put(&mut self)
        ensures same_kind { ⟦<Drain as BlockStep>⟧.kind self.new ≡ ⟦<Drain as BlockStep>⟧.kind self.old }
        ensures same_refusal { ⟦<Drain as BlockStep>⟧.may_refuse self.new ≡ ⟦<Drain as BlockStep>⟧.may_refuse self.old }
        ensures moved { StandsAfterPut (⟦<Drain as BlockStep>⟧.stands self.old) (⟦<Drain as BlockStep>⟧.stands self.new) (⟦<Drain as BlockStep>⟧.kind self.old) }
    {}

    ghost stands_fits = { λ b s n h. h.fits };

    ghost stands_within = { λ b s n h. h.within };

    ghost agrees = { λ b s r n h k a. same-wish _ _ n (moves DrainKind s) (moves DrainKind r) h.rest k.rest a };
}
