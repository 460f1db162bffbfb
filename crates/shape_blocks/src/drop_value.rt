//! The block that drops coordinates without a value.

ghost use Rattle.std.specs.Prelude.{◌≡◌, false};
ghost use Rattle.block_core.specs.Kind.{DropValueKind, moves};
ghost use Rattle.block_core.specs.Stands.{Stands, StandsAtStart};
ghost use Rattle.block_core.specs.Runs.{Runs};
ghost use Rattle.block_core.proofs.Unique.{same-wish};
ghost use Rattle.shape_blocks.specs.DropValueSteps.{drop_value_steps};

use block_core::{BlockStep, Wish};
use std::alloc::AllocError;
use stream_tokens::Token;

/// How far a value dropper has come.
#[derive(Clone, Copy)]
enum DropValueState {
    /// The next token of the coordinates is wanted.
    Coordinate,
    /// The token of the values beside this one is wanted.
    Value(Token),
    /// Both tokens are put, the coordinate first.
    Both(Token, Token),
    /// This token of the values is put.
    Second(Token),
    Ended,
}

impl DropValueState {
    #[inline]
    fn wants(self) -> Wish
        ensures { result ≡ drop_value_steps.wants self }
    {
        match self {
            DropValueState::Coordinate => Wish::Take(0),
            DropValueState::Value(_) => Wish::Take(1),
            DropValueState::Both(coordinate, _) => Wish::Put(0, coordinate),
            DropValueState::Second(value) => Wish::Put(1, value),
            DropValueState::Ended => Wish::Finished,
        }
    }

    #[inline]
    fn took(self, t: Token) -> DropValueState
        ensures { result ≡ drop_value_steps.took self t }
    {
        match self {
            DropValueState::Coordinate => DropValueState::Value(t),
            DropValueState::Value(coordinate) => match (coordinate, t) {
                (Token::Item(_), Token::Empty) => DropValueState::Coordinate,
                _ => DropValueState::Both(coordinate, t),
            },
            other => other,
        }
    }

    #[inline]
    fn put(self) -> DropValueState
        ensures { result ≡ drop_value_steps.put self }
    {
        match self {
            DropValueState::Both(_, value) => DropValueState::Second(value),
            DropValueState::Second(Token::Done) => DropValueState::Ended,
            DropValueState::Second(_) => DropValueState::Coordinate,
            other => other,
        }
    }
}

/// The value dropper: of coordinates and values of one shape it leaves out each coordinate whose value is absent, with
/// that value.
///
/// It has the coordinates at input 0 and the values at input 1, and the same at its outputs. A value of zero is a value.
#[derive(Clone, Copy, Drop)]
pub struct ValueDropper {
    state: DropValueState,
}

impl ValueDropper {
    /// A value dropper before its first move.
    pub fn new() -> ValueDropper
        ensures same_kind { ⟦<ValueDropper as BlockStep>⟧.kind result ≡ DropValueKind }
        ensures sure { ⟦<ValueDropper as BlockStep>⟧.may_refuse result ≡ false }
        ensures starts { StandsAtStart (⟦<ValueDropper as BlockStep>⟧.stands result) DropValueKind }
    {
        ValueDropper {
            state: DropValueState::Coordinate,
        }
    }
}

impl BlockStep for ValueDropper {
    ghost kind = { λ _. DropValueKind };

    ghost may_refuse = { λ _. false };

    ghost stands = { λ b. Stands (Runs drop_value_steps b.state) DropValueKind };

    fn ins(&self) -> u32 {
        2
    }

    fn outs(&self) -> u32 {
        2
    }

    #[inline]
    fn wish(&self) -> Wish {
        self.state.wants()
    }

    #[inline]
    fn take(&mut self, port: u32, t: Token) -> Result<(), AllocError> {
        self.state = self.state.took(t);
        Ok(())
    }

    #[inline]
    fn did_put(&mut self) {
        self.state = self.state.put();
    }

    ghost stands_fits = { λ b s n h. h.fits };

    ghost stands_within = { λ b s n h. h.within };

    ghost agrees = { λ b s r n h k a. same-wish _ _ n (moves DropValueKind s) (moves DropValueKind r) h.rest k.rest a };
}
