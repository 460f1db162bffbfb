//! What makes the blocks of a graph anew.

ghost use Rattle.std.specs.Prelude.{◌≡◌, List, map, IfOk};
ghost use Rattle.block_core.specs.Kind.{Kind};
ghost use Rattle.sam_sizing.specs.Makers.{AreAtStart};

use block_core::BlockStep;
use std::alloc::AllocError;

/// What makes blocks of fixed kinds, as often as it is asked.
pub trait Maker {
    /// The type of the blocks.
    type B: BlockStep + Drop;

    /// The kinds of the blocks, in order. No call changes them.
    ghost kinds: { Self → List Kind };

    /// Blocks of these kinds, in this order, each before its first move. Want of memory is the one refusal.
    fn make(&self) -> Result<Vec<Self::B>, AllocError>
        ensures same_kinds { IfOk result (λ blocks. map Self.B.kind blocks.items ≡ kinds self.now) }
        ensures starts { IfOk result (λ blocks. AreAtStart Self.B.kind Self.B.stands blocks.items) };
}
