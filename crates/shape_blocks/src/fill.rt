//! The block that brings fibers beneath a stream of presence.

ghost use Rattle.std.specs.Prelude.{◌≡◌, ◌+◌, ◌≤◌, false};
ghost use Rattle.block_core.specs.Kind.{FillKind, moves};
ghost use Rattle.block_core.specs.Stands.{Stands, StandsAtStart};
ghost use Rattle.block_core.specs.Runs.{Runs};
ghost use Rattle.block_core.proofs.Unique.{same-wish};
ghost use Rattle.shape_blocks.specs.FillSteps.{IsFillState, fill_steps};

use crate::fill_state::FillState;
use block_core::{BlockStep, Wish};
use std::alloc::AllocError;
use stream_tokens::Token;

/// The filler: beneath each item of the presence it brings the next fiber that isn't empty, and beneath each empty token
/// an empty fiber.
///
/// It has the presence, of depth d, at input 0, the coordinates, of depth d + 1, at input 1 and their payloads at those
/// after it; its outputs are the coordinates and the payloads. Empty fibers of which the presence doesn't know are passed
/// over: the moves depend on them, and the outputs don't. It holds one head and takes no memory.
#[derive(Clone, Copy, Drop)]
pub struct Filler {
    state: FillState,
    ghost within: { IsFillState state },
}

impl Filler {
    /// A filler of fibers with so many payloads, at most eight, before its first move.
    pub fn new(payloads: u32) -> Filler
        requires payloads { payloads ≤ 8 }
        ensures same_kind { ⟦<Filler as BlockStep>⟧.kind result ≡ FillKind payloads }
        ensures sure { ⟦<Filler as BlockStep>⟧.may_refuse result ≡ false }
        ensures starts { StandsAtStart (⟦<Filler as BlockStep>⟧.stands result) (FillKind payloads) }
    {
        Filler {
            state: FillState::new(payloads),
        }
    }
}

impl BlockStep for Filler {
    ghost kind = { λ b. FillKind b.state.payloads };

    ghost may_refuse = { λ _. false };

    ghost stands = { λ b. Stands (Runs fill_steps b.state) (FillKind b.state.payloads) };

    fn ins(&self) -> u32 {
        self.state.payloads + 2
    }

    fn outs(&self) -> u32 {
        self.state.payloads + 1
    }

    #[inline]
    fn wish(&self) -> Wish {
        self.state.wants()
    }

    #[inline]
    fn take(&mut self, port: u32, t: Token) -> Result<(), AllocError> {
        self.state.took(t);
        Ok(())
    }

    #[inline]
    fn did_put(&mut self) {
        self.state.put();
    }

    ghost stands_fits = { λ b s n h. h.fits };

    ghost stands_within = { λ b s n h. h.within };

    ghost agrees = { λ b s r n h k a. same-wish _ _ n (moves (FillKind b.state.payloads) s) (moves (FillKind b.state.payloads) r) h.rest k.rest a };
}
