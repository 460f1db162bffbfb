//! The block that keeps the values of a result.

ghost use Rattle.std.specs.Prelude.{◌≡◌, ◌++◌, [], ◌∷◌, ◌+◌, length, true, false, OnOk, OnErr};
ghost use Rattle.block_core.specs.Ports.{Streams, port};
ghost use Rattle.block_core.specs.Kind.{WriteValueKind, moves};
ghost use Rattle.block_core.specs.Written.{items_in, vals_of};
ghost use Rattle.block_core.specs.Steps.{StandsAfterPut};
ghost use Rattle.block_core.specs.Stands.{Stands, StandsAtStart};
ghost use Rattle.block_core.proofs.Unique.{same-wish};
ghost use Rattle.level_writer.specs.WriterSteps.{writer_took};
ghost use Rattle.level_writer.specs.Kept.{KeepsValues};

use block_core::{BlockStep, Wish};
use sam_base::Nums;
use std::alloc::{AllocError, Global};
use stream_tokens::Token;

/// The block that keeps the numbers of a stream of values.
#[derive(Drop)]
pub struct ValueWriter {
    vals: Nums,
    ended: bool,
}

impl ValueWriter {
    /// A writer before its first token; it takes no memory.
    pub fn new(alloc: Global) -> ValueWriter
        ensures same_kind { ⟦<ValueWriter as BlockStep>⟧.kind result ≡ WriteValueKind }
        ensures may_refuse { ⟦<ValueWriter as BlockStep>⟧.may_refuse result ≡ true }
        ensures starts { StandsAtStart (⟦<ValueWriter as BlockStep>⟧.stands result) WriteValueKind }
    {
        ValueWriter {
            vals: Nums::new(alloc),
            ended: false,
        }
    }

    /// The values so far, without a copy: after a whole stream, all its numbers.
    pub fn vals(&self) -> &Nums
        ensures written { (s : Streams) → ⟦<ValueWriter as BlockStep>⟧.stands self.now s (length (moves WriteValueKind s)) → result.now ≡ vals_of (port 0 s) }
    {
        &self.vals
    }

    #[inline]
    fn keep(&mut self, t: Token) -> Result<(), AllocError>
        ensures vals { OnOk result (self.new.vals ≡ self.old.vals ++ items_in (t ∷ [])) }
        ensures ended { OnOk result (self.new.ended ≡ writer_took self.old.ended t) }
        ensures refused { OnErr result (self.new ≡ self.old) }
    {
        match t {
            Token::Item(x) => self.vals.push(x)?,
            Token::Done => self.ended = true,
            Token::Empty | Token::Stop(_) => {}
        }
        Ok(())
    }
}

impl BlockStep for ValueWriter {
    ghost kind = { λ _. WriteValueKind };

    ghost may_refuse = { λ _. true };

    ghost stands = { λ b s. Stands (KeepsValues b.vals b.ended (port 0 s)) WriteValueKind s };

    fn ins(&self) -> u32 {
        1
    }

    fn outs(&self) -> u32 {
        0
    }

    #[inline]
    fn wish(&self) -> Wish {
        if self.ended {
            Wish::Finished
        } else {
            Wish::Take(0)
        }
    }

    #[inline]
    fn take(&mut self, port: u32, t: Token) -> Result<(), AllocError> {
        self.keep(t)?;
        Ok(())
    }

    // A writer never puts, so no call could meet the trait's condition: the promises stand without it.
    #[inline]
    fn did_put(&mut self)
        ensures same_kind { ⟦<ValueWriter as BlockStep>⟧.kind self.new ≡ ⟦<ValueWriter as BlockStep>⟧.kind self.old }
        ensures same_refusal { ⟦<ValueWriter as BlockStep>⟧.may_refuse self.new ≡ ⟦<ValueWriter as BlockStep>⟧.may_refuse self.old }
        ensures moved { StandsAfterPut (⟦<ValueWriter as BlockStep>⟧.stands self.old) (⟦<ValueWriter as BlockStep>⟧.stands self.new) (⟦<ValueWriter as BlockStep>⟧.kind self.old) }
    {}

    ghost stands_fits = { λ b s n h. h.fits };

    ghost stands_within = { λ b s n h. h.within };

    ghost agrees = { λ b s r n h k a. same-wish _ _ n (moves WriteValueKind s) (moves WriteValueKind r) h.rest.runs k.rest.runs a };
}
