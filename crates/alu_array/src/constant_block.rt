//! The block that puts one value in place of each reference.

ghost use Rattle.std.specs.Prelude.{◌≡◌, false};
ghost use Rattle.block_core.specs.Change.{on_item};
ghost use Rattle.block_core.specs.Kind.{ConstKind, moves};
ghost use Rattle.block_core.specs.Stands.{Stands, StandsAtStart};
ghost use Rattle.block_core.specs.Runs.{Runs};
ghost use Rattle.block_core.proofs.Unique.{same-wish};
ghost use Rattle.alu_array.specs.ChangeSteps.{change_steps};

use crate::change::ChangeState;
use block_core::{BlockStep, Wish};
use std::alloc::AllocError;
use stream_tokens::Token;

/// The constant: each item of its input becomes one value, and all other tokens pass.
#[derive(Clone, Copy)]
pub struct Constant {
    value: u64,
    state: ChangeState,
}

impl Constant {
    pub fn new(value: u64) -> Constant
        ensures same_kind { ⟦<Constant as BlockStep>⟧.kind result ≡ ConstKind value }
        ensures sure { ⟦<Constant as BlockStep>⟧.may_refuse result ≡ false }
        ensures starts { StandsAtStart (⟦<Constant as BlockStep>⟧.stands result) (ConstKind value) }
    {
        Constant {
            value,
            state: ChangeState::Wanting,
        }
    }

    /// What becomes of a token.
    #[inline]
    fn changed(&self, t: Token) -> Token
        ensures { result ≡ on_item (λ _. self.now.value) t }
    {
        match t {
            Token::Item(_) => Token::Item(self.value),
            other => other,
        }
    }
}

impl BlockStep for Constant {
    ghost kind = { λ b. ConstKind b.value };

    ghost may_refuse = { λ _. false };

    ghost stands = { λ b. Stands (Runs (change_steps (λ _. b.value)) b.state) (ConstKind b.value) };

    fn ins(&self) -> u32 {
        1
    }

    fn outs(&self) -> u32 {
        1
    }

    #[inline]
    fn wish(&self) -> Wish {
        self.state.wants()
    }

    #[inline]
    fn take(&mut self, port: u32, t: Token) -> Result<(), AllocError> {
        self.state = self.state.gives(self.changed(t));
        Ok(())
    }

    #[inline]
    fn did_put(&mut self) {
        self.state = self.state.put();
    }

    ghost stands_fits = { λ b s n h. h.fits };

    ghost stands_within = { λ b s n h. h.within };

    ghost agrees = { λ b s r n h k a. same-wish _ _ n (moves (ConstKind b.value) s) (moves (ConstKind b.value) r) h.rest k.rest a };
}
