//! The block that joins the coordinates of both sides.

ghost use Rattle.std.specs.Prelude.{◌≡◌, ◌+◌, ◌≤◌, false};
ghost use Rattle.block_core.specs.Kind.{UnionKind, moves};
ghost use Rattle.block_core.specs.Stands.{Stands, StandsAtStart};
ghost use Rattle.block_core.specs.Runs.{Runs};
ghost use Rattle.block_core.proofs.Unique.{same-wish};
ghost use Rattle.merge_blocks.specs.MergeSteps.{IsMergerState, merge_steps};

use crate::merger::Merger;
use block_core::{BlockStep, Wish};
use std::alloc::AllocError;
use stream_tokens::Token;

/// The unioner: each fiber has the coordinates of either side, and the payloads of a side without the coordinate are
/// empty.
///
/// Its inputs are the left coordinates and payloads, then the right; its outputs are the coordinates, the left payloads
/// and the right payloads.
#[derive(Clone, Copy)]
pub struct Unioner {
    merger: Merger,
    ghost within: { IsMergerState merger },
}

impl Unioner {
    /// A unioner of sides with so many payloads, which may be none, and at most eight together.
    pub fn new(left: u32, right: u32) -> Unioner
        requires payloads { left + right ≤ 8 }
        ensures same_kind { ⟦<Unioner as BlockStep>⟧.kind result ≡ UnionKind left right }
        ensures sure { ⟦<Unioner as BlockStep>⟧.may_refuse result ≡ false }
        ensures starts { StandsAtStart (⟦<Unioner as BlockStep>⟧.stands result) (UnionKind left right) }
    {
        Unioner {
            merger: Merger::new(true, left, right),
        }
    }
}

impl BlockStep for Unioner {
    ghost kind = { λ b. UnionKind b.merger.left b.merger.right };

    ghost may_refuse = { λ _. false };

    ghost stands = { λ b. Stands (Runs merge_steps b.merger) (UnionKind b.merger.left b.merger.right) };

    fn ins(&self) -> u32 {
        self.merger.ins()
    }

    fn outs(&self) -> u32 {
        self.merger.outs()
    }

    #[inline]
    fn wish(&self) -> Wish {
        self.merger.wants()
    }

    #[inline]
    fn take(&mut self, _port: u32, t: Token) -> Result<(), AllocError> {
        self.merger.took(t);
        Ok(())
    }

    #[inline]
    fn did_put(&mut self) {
        self.merger.put();
    }

    ghost stands_fits = { λ b s n h. h.fits };

    ghost stands_within = { λ b s n h. h.within };

    ghost agrees = { λ b s r n h k a. same-wish _ _ n (moves (UnionKind b.merger.left b.merger.right) s) (moves (UnionKind b.merger.left b.merger.right) r) h.rest k.rest a };
}
