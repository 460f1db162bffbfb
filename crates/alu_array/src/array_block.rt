//! The block that reads values by their references.

ghost use Rattle.std.specs.Prelude.{◌≡◌, [], ◌∷◌, length, false};
ghost use Rattle.block_core.specs.Change.{on_item, referenced_value, ItemsBelow};
ghost use Rattle.block_core.specs.Kind.{ArrayKind, moves};
ghost use Rattle.block_core.specs.Stands.{Stands, StandsAtStart};
ghost use Rattle.block_core.specs.Runs.{Runs};
ghost use Rattle.block_core.proofs.Unique.{same-wish};
ghost use Rattle.alu_array.specs.ChangeSteps.{change_steps};

use crate::change::ChangeState;
use block_core::{BlockStep, Wish};
use levels::Storage;
use std::alloc::AllocError;
use stream_tokens::Token;

/// The array: each full reference of its input becomes the value there, and all other tokens pass.
#[derive(Clone, Copy)]
pub struct Array<'a> {
    storage: &'a Storage,
    state: ChangeState,
}

impl<'a> Array<'a> {
    /// The array of the values of a stored tensor.
    pub fn new(storage: &'a Storage) -> Array<'a>
        ensures same_kind { ⟦<Array<'a> as BlockStep>⟧.kind result ≡ ArrayKind storage.now.values }
        ensures sure { ⟦<Array<'a> as BlockStep>⟧.may_refuse result ≡ false }
        ensures starts { StandsAtStart (⟦<Array<'a> as BlockStep>⟧.stands result) (ArrayKind storage.now.values) }
    {
        Array {
            storage,
            state: ChangeState::Wanting,
        }
    }

    /// What becomes of a token.
    #[inline]
    fn changed(&self, t: Token) -> Token
        requires { ItemsBelow (length self.now.storage.now.values) (t ∷ []) }
        ensures { result ≡ on_item (referenced_value self.now.storage.now.values) t }
    {
        match t {
            Token::Item(r) => Token::Item(self.storage.value(r)),
            other => other,
        }
    }
}

impl<'a> BlockStep for Array<'a> {
    ghost kind = { λ b. ArrayKind b.storage.now.values };

    ghost may_refuse = { λ _. false };

    ghost stands = { λ b. Stands (Runs (change_steps (referenced_value b.storage.now.values)) b.state) (ArrayKind b.storage.now.values) };

    fn ins(&self) -> u32 {
        1
    }

    fn outs(&self) -> u32 {
        1
    }

    #[inline]
    fn wish(&self) -> Wish {
        self.state.wants()
    }

    #[inline]
    fn take(&mut self, port: u32, t: Token) -> Result<(), AllocError> {
        self.state = self.state.gives(self.changed(t));
        Ok(())
    }

    #[inline]
    fn did_put(&mut self) {
        self.state = self.state.put();
    }

    ghost stands_fits = { λ b s n h. h.fits };

    ghost stands_within = { λ b s n h. h.within };

    ghost agrees = { λ b s r n h k a. same-wish _ _ n (moves (ArrayKind b.storage.now.values) s) (moves (ArrayKind b.storage.now.values) r) h.rest k.rest a };
}
