//! The block that keeps one level of a result.

ghost use Rattle.std.specs.Prelude.{◌≡◌, ◌++◌, [], ◌∷◌, ℕ, ◌+◌, eqb, length, true, false, IfOk, OnOk, OnErr};
ghost use Rattle.stream_tokens.specs.declared.Token.{Token};
ghost use Rattle.stream_tokens.specs.declared.Token.TheVariants.{Stop};
ghost use Rattle.block_core.specs.Ports.{Streams, port};
ghost use Rattle.block_core.specs.Kind.{WriteLevelKind, moves};
ghost use Rattle.block_core.specs.Written.{items_in, segs_of, crds_of};
ghost use Rattle.block_core.specs.Steps.{StandsAfterPut};
ghost use Rattle.block_core.specs.Stands.{Stands, StandsAtStart};
ghost use Rattle.block_core.proofs.Unique.{same-wish};
ghost use Rattle.level_writer.specs.WriterSteps.{writer_took};
ghost use Rattle.level_writer.specs.Kept.{KeepsLevel, filled_by, ends_after};

use block_core::{BlockStep, Wish};
use sam_base::Nums;
use std::alloc::{AllocError, Global};
use stream_tokens::Token;

/// The block that keeps the coordinates of one level, and where each fiber of them ends.
///
/// The levels count from 1. A fiber without a coordinate stands for nothing that is stored, except at level 1, where the
/// one fiber is always there.
#[derive(Drop)]
pub struct LevelWriter {
    level: u8,
    segs: Nums,
    crds: Nums,
    /// Whether the fiber at hand has a coordinate.
    filled: bool,
    ended: bool,
}

impl LevelWriter {
    /// A writer of this level before its first token.
    pub fn new(alloc: Global, level: u8) -> Result<LevelWriter, AllocError>
        ensures same_kind { IfOk result (λ w. ⟦<LevelWriter as BlockStep>⟧.kind w ≡ WriteLevelKind level) }
        ensures may_refuse { IfOk result (λ w. ⟦<LevelWriter as BlockStep>⟧.may_refuse w ≡ true) }
        ensures starts { IfOk result (λ w. StandsAtStart (⟦<LevelWriter as BlockStep>⟧.stands w) (WriteLevelKind level)) }
    {
        let mut segs = Nums::new(alloc);
        segs.push(0)?;
        Ok(LevelWriter {
            level,
            segs,
            crds: Nums::new(alloc),
            filled: false,
            ended: false,
        })
    }

    /// The segments so far, without a copy: 0, and then for each kept fiber the number of coordinates at its end.
    pub fn segs(&self) -> &Nums
        ensures written { (level : ℕ) (s : Streams) → ⟦<LevelWriter as BlockStep>⟧.kind self.now ≡ WriteLevelKind level → ⟦<LevelWriter as BlockStep>⟧.stands self.now s (length (moves (WriteLevelKind level) s)) → result.now ≡ segs_of level (port 0 s) }
    {
        &self.segs
    }

    /// The coordinates so far, without a copy: after a whole stream, all its numbers.
    pub fn crds(&self) -> &Nums
        ensures written { (level : ℕ) (s : Streams) → ⟦<LevelWriter as BlockStep>⟧.kind self.now ≡ WriteLevelKind level → ⟦<LevelWriter as BlockStep>⟧.stands self.now s (length (moves (WriteLevelKind level) s)) → result.now ≡ crds_of (port 0 s) }
    {
        &self.crds
    }

    /// A fiber ends.
    #[inline]
    fn close(&mut self) -> Result<(), AllocError>
        ensures segs { OnOk result (self.new.segs ≡ self.old.segs ++ ends_after (eqb self.old.level 1) self.old.filled (length self.old.crds) (Stop 0 ∷ [])) }
        ensures filled { OnOk result (self.new.filled ≡ false) }
        ensures crds { self.new.crds ≡ self.old.crds }
        ensures level { self.new.level ≡ self.old.level }
        ensures ended { self.new.ended ≡ self.old.ended }
        ensures refused { OnErr result (self.new ≡ self.old) }
    {
        if self.filled || self.level == 1 {
            self.segs.push(self.crds.len() as u64)?;
        }
        self.filled = false;
        Ok(())
    }

    #[inline]
    fn keep(&mut self, t: Token) -> Result<(), AllocError>
        ensures crds { OnOk result (self.new.crds ≡ self.old.crds ++ items_in (t ∷ [])) }
        ensures segs { OnOk result (self.new.segs ≡ self.old.segs ++ ends_after (eqb self.old.level 1) self.old.filled (length self.old.crds) (t ∷ [])) }
        ensures filled { OnOk result (self.new.filled ≡ filled_by self.old.filled t) }
        ensures ended { OnOk result (self.new.ended ≡ writer_took self.old.ended t) }
        ensures level { self.new.level ≡ self.old.level }
        ensures refused { OnErr result (self.new ≡ self.old) }
    {
        match t {
            Token::Item(c) => {
                self.crds.push(c)?;
                self.filled = true;
            }
            Token::Stop(_) => self.close()?,
            Token::Done => self.ended = true,
            Token::Empty => {}
        }
        Ok(())
    }
}

impl BlockStep for LevelWriter {
    ghost kind = { λ b. WriteLevelKind b.level };

    ghost may_refuse = { λ _. true };

    ghost stands = { λ b s. Stands (KeepsLevel b.level b.segs b.crds b.filled b.ended (port 0 s)) (WriteLevelKind b.level) s };

    fn ins(&self) -> u32 {
        1
    }

    fn outs(&self) -> u32 {
        0
    }

    #[inline]
    fn wish(&self) -> Wish {
        if self.ended {
            Wish::Finished
        } else {
            Wish::Take(0)
        }
    }

    #[inline]
    fn take(&mut self, port: u32, t: Token) -> Result<(), AllocError> {
        self.keep(t)?;
        Ok(())
    }

    // A writer never puts, so no call could meet the trait's condition: the promises stand without it.
    #[inline]
    fn did_put(&mut self)
        ensures same_kind { ⟦<LevelWriter as BlockStep>⟧.kind self.new ≡ ⟦<LevelWriter as BlockStep>⟧.kind self.old }
        ensures same_refusal { ⟦<LevelWriter as BlockStep>⟧.may_refuse self.new ≡ ⟦<LevelWriter as BlockStep>⟧.may_refuse self.old }
        ensures moved { StandsAfterPut (⟦<LevelWriter as BlockStep>⟧.stands self.old) (⟦<LevelWriter as BlockStep>⟧.stands self.new) (⟦<LevelWriter as BlockStep>⟧.kind self.old) }
    {}

    ghost stands_fits = { λ b s n h. h.fits };

    ghost stands_within = { λ b s n h. h.within };

    ghost agrees = { λ b s r n h k a. same-wish _ _ n (moves (WriteLevelKind b.level) s) (moves (WriteLevelKind b.level) r) h.rest.runs k.rest.runs a };
}
