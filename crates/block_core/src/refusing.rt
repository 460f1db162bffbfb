//! A block that refuses after so many takes, to try what a machine does when memory is refused to a block.

ghost use Rattle.std.specs.Prelude.{◌≡◌, ◌+◌, ◌<◌, true, false, IsOk, IsErr, IfOk, IfErr};
ghost use Rattle.block_core.specs.Steps.{MayTake, StandsAfterTake};

use crate::{BlockStep, Wish};
use std::alloc::AllocError;
use stream_tokens::Token;

/// The inner block, which takes `left` tokens more: the next take is answered by want of memory.
#[derive(Drop)]
pub struct Refusing<B> {
    pub block: B,
    pub left: u64,
}

impl<B: BlockStep> BlockStep for Refusing<B> {
    ghost kind = { λ b. B.kind b.block };

    ghost may_refuse = { λ _. true };

    ghost stands = { λ b. B.stands b.block };

    fn ins(&self) -> u32 {
        self.block.ins()
    }

    fn outs(&self) -> u32 {
        self.block.outs()
    }

    fn wish(&self) -> Wish {
        self.block.wish()
    }

    /// Passes on where a take is left, and counts it where it was made.
    fn take(&mut self, port: u32, t: Token) -> Result<(), AllocError>
        requires { MayTake (B.stands self.old.block) (B.kind self.old.block) port t }
        ensures same_kind { B.kind self.new.block ≡ B.kind self.old.block }
        ensures moved { IfOk result (λ _. StandsAfterTake (B.stands self.old.block) (B.stands self.new.block) (B.kind self.old.block) port t) }
        ensures refused { IfErr result (λ _. self.new ≡ self.old) }
        ensures used_up { self.old.left ≡ 0 → IsErr result }
        ensures counted { IfOk result (λ _. self.new.left + 1 ≡ self.old.left) }
        ensures passes_on { 0 < self.old.left → B.may_refuse self.old.block ≡ false → IsOk result }
    {
        if self.left == 0 {
            return Err(AllocError);
        }
        self.block.take(port, t)?;
        self.left -= 1;
        Ok(())
    }

    fn did_put(&mut self) {
        self.block.did_put();
    }

    ghost stands_fits = { λ b s n h. B.stands_fits b.block s n h };

    ghost stands_within = { λ b s n h. B.stands_within b.block s n h };

    ghost agrees = { λ b s r n h k a. B.agrees b.block s r n h k a };
}
