//! The block that every graph begins with.

ghost use Rattle.std.specs.Prelude.{◌≡◌, false, IsOk, IfOk, IfErr};
ghost use Rattle.block_core.specs.Kind.{RootKind, moves};
ghost use Rattle.block_core.specs.Steps.{StandsAfterTake};
ghost use Rattle.block_core.specs.Stands.{Stands, StandsAtStart};
ghost use Rattle.block_core.specs.Runs.{Runs};
ghost use Rattle.block_core.proofs.Unique.{same-wish};
ghost use Rattle.alu_array.specs.RootSteps.{root_steps};

use block_core::{BlockStep, Wish};
use std::alloc::AllocError;
use stream_tokens::Token;

/// How far a root has come.
#[derive(Clone, Copy)]
enum RootState {
    /// The reference 0 is put.
    Reference,
    /// The end is put.
    Ending,
    Ended,
}

impl RootState {
    #[inline]
    fn wants(self) -> Wish
        ensures { result ≡ root_steps.wants self }
    {
        match self {
            RootState::Reference => Wish::Put(0, Token::Item(0)),
            RootState::Ending => Wish::Put(0, Token::Done),
            RootState::Ended => Wish::Finished,
        }
    }

    #[inline]
    fn put(self) -> RootState
        ensures { result ≡ root_steps.put self }
    {
        match self {
            RootState::Reference => RootState::Ending,
            RootState::Ending | RootState::Ended => RootState::Ended,
        }
    }
}

/// The root: it puts the one reference 0, and has no input.
#[derive(Clone, Copy)]
pub struct Root {
    state: RootState,
}

impl Root {
    pub fn new() -> Root
        ensures same_kind { ⟦<Root as BlockStep>⟧.kind result ≡ RootKind }
        ensures sure { ⟦<Root as BlockStep>⟧.may_refuse result ≡ false }
        ensures starts { StandsAtStart (⟦<Root as BlockStep>⟧.stands result) RootKind }
    {
        Root {
            state: RootState::Reference,
        }
    }
}

impl BlockStep for Root {
    ghost kind = { λ _. RootKind };

    ghost may_refuse = { λ _. false };

    ghost stands = { λ b. Stands (Runs root_steps b.state) RootKind };

    fn ins(&self) -> u32 {
        0
    }

    fn outs(&self) -> u32 {
        1
    }

    #[inline]
    fn wish(&self) -> Wish {
        self.state.wants()
    }

    // A root never takes, so no call could meet the trait's condition: here there is none, and the promises are the
    // trait's.
    #[inline]
    fn take(&mut self, port: u32, t: Token) -> Result<(), AllocError>
        ensures same_kind { ⟦<Root as BlockStep>⟧.kind self.new ≡ ⟦<Root as BlockStep>⟧.kind self.old }
        ensures same_refusal { ⟦<Root as BlockStep>⟧.may_refuse self.new ≡ ⟦<Root as BlockStep>⟧.may_refuse self.old }
        ensures moved { IfOk result (λ _.
            StandsAfterTake (⟦<Root as BlockStep>⟧.stands self.old) (⟦<Root as BlockStep>⟧.stands self.new) (⟦<Root as BlockStep>⟧.kind self.old) port t) }
        ensures refused { IfErr result (λ _. self.new ≡ self.old) }
        ensures sure { IsOk result }
    {
        let _ = (port, t);
        Ok(())
    }

    #[inline]
    fn did_put(&mut self) {
        self.state = self.state.put();
    }

    ghost stands_fits = { λ b s n h. h.fits };

    ghost stands_within = { λ b s n h. h.within };

    ghost agrees = { λ b s r n h k a. same-wish root_steps b.state n (moves RootKind s) (moves RootKind r) h.rest k.rest a };
}
