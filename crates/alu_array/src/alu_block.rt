//! The block that combines two streams token by token.

ghost use Rattle.std.specs.Prelude.{◌≡◌, false};
ghost use Rattle.block_core.specs.Kind.{AluKind, moves};
ghost use Rattle.block_core.specs.Stands.{Stands, StandsAtStart};
ghost use Rattle.block_core.specs.Runs.{Runs};
ghost use Rattle.block_core.proofs.Unique.{same-wish};
ghost use Rattle.alu_array.specs.Operations.{operation_of};
ghost use Rattle.alu_array.specs.AluSteps.{alu_steps, alu_wants, alu_took, alu_put, combined_token};

use crate::operation::{Op, combine};
use block_core::{BlockStep, Wish};
use std::alloc::AllocError;
use stream_tokens::Token;

/// The token of two: where one stops or ends, so does the other.
#[inline]
fn combined(op: Op, a: Token, b: Token) -> Token
    ensures { result ≡ combined_token (operation_of op) a b }
{
    match a {
        Token::Stop(_) | Token::Done => a,
        Token::Item(_) | Token::Empty => Token::from(combine(op, a.value(), b.value())),
    }
}

/// How far an arithmetic unit has come.
#[derive(Clone, Copy)]
enum AluState {
    /// The first token is wanted.
    First,
    /// The second token is wanted, after this first one.
    Second(Token),
    /// The token of both is put.
    Giving(Token),
    Ended,
}

impl AluState {
    #[inline]
    fn wants(self) -> Wish
        ensures { result ≡ alu_wants self }
    {
        match self {
            AluState::First => Wish::Take(0),
            AluState::Second(_) => Wish::Take(1),
            AluState::Giving(t) => Wish::Put(0, t),
            AluState::Ended => Wish::Finished,
        }
    }

    #[inline]
    fn took(self, op: Op, t: Token) -> AluState
        ensures { result ≡ alu_took (operation_of op) self t }
    {
        match self {
            AluState::First => AluState::Second(t),
            AluState::Second(first) => AluState::Giving(combined(op, first, t)),
            other => other,
        }
    }

    #[inline]
    fn put(self) -> AluState
        ensures { result ≡ alu_put self }
    {
        match self {
            AluState::Giving(Token::Done) => AluState::Ended,
            AluState::Giving(_) => AluState::First,
            other => other,
        }
    }
}

/// The arithmetic unit: two streams of one shape are combined token by token, where an empty token is no entry. Stops
/// and the end pass.
#[derive(Clone, Copy)]
pub struct Alu {
    op: Op,
    state: AluState,
}

impl Alu {
    pub fn new(op: Op) -> Alu
        ensures same_kind { ⟦<Alu as BlockStep>⟧.kind result ≡ AluKind (operation_of op) }
        ensures sure { ⟦<Alu as BlockStep>⟧.may_refuse result ≡ false }
        ensures starts { StandsAtStart (⟦<Alu as BlockStep>⟧.stands result) (AluKind (operation_of op)) }
    {
        Alu {
            op,
            state: AluState::First,
        }
    }
}

impl BlockStep for Alu {
    ghost kind = { λ b. AluKind (operation_of b.op) };

    ghost may_refuse = { λ _. false };

    ghost stands = { λ b. Stands (Runs (alu_steps (operation_of b.op)) b.state) (AluKind (operation_of b.op)) };

    fn ins(&self) -> u32 {
        2
    }

    fn outs(&self) -> u32 {
        1
    }

    #[inline]
    fn wish(&self) -> Wish {
        self.state.wants()
    }

    #[inline]
    fn take(&mut self, port: u32, t: Token) -> Result<(), AllocError> {
        self.state = self.state.took(self.op, t);
        Ok(())
    }

    #[inline]
    fn did_put(&mut self) {
        self.state = self.state.put();
    }

    ghost stands_fits = { λ b s n h. h.fits };

    ghost stands_within = { λ b s n h. h.within };

    ghost agrees = { λ b s r n h k a. same-wish _ _ n (moves (AluKind (operation_of b.op)) s) (moves (AluKind (operation_of b.op)) r) h.rest k.rest a };
}
