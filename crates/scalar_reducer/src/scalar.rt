//! The scalar reducer and its states.

ghost use Rattle.std.specs.Prelude.{◌≡◌, false};
ghost use Rattle.block_core.specs.Kind.{SumScalarKind, moves};
ghost use Rattle.block_core.specs.Stands.{Stands, StandsAtStart};
ghost use Rattle.block_core.specs.Runs.{Runs};
ghost use Rattle.block_core.proofs.Unique.{same-wish};
ghost use Rattle.scalar_reducer.specs.ScalarSteps.{scalar_steps};

use block_core::{BlockStep, Wish, plus};
use std::alloc::AllocError;
use stream_tokens::Token;

/// How far a scalar reducer has come.
#[derive(Clone, Copy)]
enum ScalarState {
    /// The next token of the enclosing stream is wanted.
    Outer,
    /// Values up to a stop are wanted, with the sum of those taken so far.
    Summing(Option<u64>),
    /// The fiber ended with this stop, and its sum is put.
    Summed(Option<u64>, u8),
    /// The enclosing fiber ends too, and its stop is wanted.
    Closing,
    /// The enclosing stream has no coordinate here, and the token of the values beside its own is wanted.
    Beside(Token),
    /// This token of the enclosing stream is put.
    Passing(Token),
    Ended,
}

impl ScalarState {
    #[inline]
    fn wants(self) -> Wish
        ensures { result ≡ scalar_steps.wants self }
    {
        match self {
            ScalarState::Outer | ScalarState::Closing => Wish::Take(0),
            ScalarState::Summing(_) | ScalarState::Beside(_) => Wish::Take(1),
            ScalarState::Summed(sum, _) => Wish::Put(0, Token::from(sum)),
            ScalarState::Passing(t) => Wish::Put(0, t),
            ScalarState::Ended => Wish::Finished,
        }
    }

    #[inline]
    fn took(self, t: Token) -> ScalarState
        ensures { result ≡ scalar_steps.took self t }
    {
        match self {
            ScalarState::Outer => match t {
                Token::Item(_) | Token::Empty => ScalarState::Summing(None),
                Token::Stop(_) | Token::Done => ScalarState::Beside(t),
            },
            ScalarState::Summing(sum) => match t {
                Token::Item(value) => ScalarState::Summing(plus(sum, Some(value))),
                Token::Empty => ScalarState::Summing(sum),
                Token::Stop(n) => ScalarState::Summed(sum, n),
                Token::Done => ScalarState::Ended,
            },
            ScalarState::Closing => ScalarState::Passing(t),
            ScalarState::Beside(held) => ScalarState::Passing(held),
            other => other,
        }
    }

    #[inline]
    fn put(self) -> ScalarState
        ensures { result ≡ scalar_steps.put self }
    {
        match self {
            ScalarState::Summed(_, 0) => ScalarState::Outer,
            ScalarState::Summed(_, _) => ScalarState::Closing,
            ScalarState::Passing(Token::Done) => ScalarState::Ended,
            ScalarState::Passing(_) => ScalarState::Outer,
            other => other,
        }
    }
}

/// The block that puts, for each coordinate of the enclosing stream, the sum of the values beneath it.
///
/// It has the enclosing stream at input 0, of depth d - 1, the values at input 1, of depth d, and the sums at output 0,
/// of depth d - 1. Sums are modulo 2^64, and one over no value is absent. It keeps one sum and takes no memory. This is
/// the scalar reducer of the Sparse Abstract Machine, with the enclosing stream beside the values.
#[derive(Clone, Copy, Drop)]
pub struct ScalarReducer {
    state: ScalarState,
}

impl ScalarReducer {
    /// A scalar reducer before its first move.
    pub fn new() -> ScalarReducer
        ensures same_kind { ⟦<ScalarReducer as BlockStep>⟧.kind result ≡ SumScalarKind }
        ensures sure { ⟦<ScalarReducer as BlockStep>⟧.may_refuse result ≡ false }
        ensures starts { StandsAtStart (⟦<ScalarReducer as BlockStep>⟧.stands result) SumScalarKind }
    {
        ScalarReducer {
            state: ScalarState::Outer,
        }
    }
}

impl BlockStep for ScalarReducer {
    ghost kind = { λ _. SumScalarKind };

    ghost may_refuse = { λ _. false };

    ghost stands = { λ b. Stands (Runs scalar_steps b.state) SumScalarKind };

    fn ins(&self) -> u32 {
        2
    }

    fn outs(&self) -> u32 {
        1
    }

    #[inline]
    fn wish(&self) -> Wish {
        self.state.wants()
    }

    #[inline]
    fn take(&mut self, _port: u32, t: Token) -> Result<(), AllocError> {
        self.state = self.state.took(t);
        Ok(())
    }

    #[inline]
    fn did_put(&mut self) {
        self.state = self.state.put();
    }

    ghost stands_fits = { λ b s n h. h.fits };

    ghost stands_within = { λ b s n h. h.within };

    ghost agrees = { λ b s r n h k a. same-wish _ _ n (moves SumScalarKind s) (moves SumScalarKind r) h.rest k.rest a };
}
