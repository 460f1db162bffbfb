//! The blocks of a graph, made anew for each run.

ghost use Rattle.graph.specs.Assembly.{KindsInRange, FewPayloads};
ghost use Rattle.sam_sizing.specs.Makers.{kinds_over};

use any_block::{AnyBlock, assemble};
use graph::Graph;
use levels::Storage;
use sam_sizing::Maker;
use std::alloc::{AllocError, Global};

/// What makes the blocks of a graph over stored tensors, for one run after another. A scanner or an array reads one of the
/// storages, by its tensor's number.
#[derive(Drop)]
pub struct BlocksAnew<'a> {
    pub alloc: Global,
    pub graph: &'a Graph,
    pub storages: &'a [Storage],
    ghost in_range: { ∥ (KindsInRange storages.now graph.now) ∥₁ },
    ghost few_payloads: { FewPayloads graph.now },
}

impl<'a> Maker for BlocksAnew<'a> {
    type B = AnyBlock<'a>;

    ghost kinds = { λ maker. kinds_over maker.storages.now maker.graph.now };

    fn make(&self) -> Result<Vec<AnyBlock<'a>>, AllocError> {
        assemble(self.alloc, self.graph, self.storages)
    }
}
