//! Drafts of graphs: blocks in the order in which they are made.

ghost use Rattle.std.specs.Prelude.{◌≡◌, ◌+◌, ◌<◌, ◌^◌, [], ◌∷◌, ◌++◌, length, IfOk, OnOk};
ghost use Rattle.custard_lower.specs.Drafts.{outputs_of};

use graph::Kind;
use sam_base::{Items, Nums};
use std::alloc::{AllocError, Global};
use std::marker::Model;
use stream_model::Label;

/// A block of a draft. The outputs of all blocks are counted together, in the order of the blocks and of their ports, and may
/// have any number of readers.
#[derive(Debug, Drop)]
pub struct Made {
    pub kind: Kind,
    /// The outputs that it reads, by their numbers, in the order of its input ports.
    pub ins: Nums,
    /// What passes over each of its outputs.
    pub labels: Items<Label>,
}

/// Blocks as they are made, with the number of their outputs.
#[derive(Drop)]
pub struct Draft {
    alloc: Global,
    made: Items<Made>,
    outputs: u64,
}

impl Model for Draft {
    ghost use Rattle.std.specs.Prelude.{◌≡◌, List};
    ghost use Rattle.custard_lower.specs.declared.drafts.Made.{Made};
    ghost use Rattle.custard_lower.specs.Drafts.{outputs_of};

    ghost Value = { List Made };

    ghost view = { λ draft. draft.made };

    ghost invariant = { λ draft. draft.outputs ≡ outputs_of draft.made };
}

impl Draft {
    /// The draft without blocks.
    pub fn new(alloc: Global) -> Draft
        ensures { result ≡ [] }
    {
        Draft {
            alloc,
            made: Items::new(alloc),
            outputs: 0,
        }
    }

    /// The allocator of its lists.
    pub fn alloc(&self) -> Global {
        self.alloc
    }

    /// The number of the next output.
    pub fn outputs(&self) -> u64
        ensures { result ≡ outputs_of self.now }
    {
        self.outputs
    }

    /// Makes a block that reads these outputs and has outputs with these labels, and gives the number of its first one. More
    /// outputs than a `u64` counts are refused as want of memory.
    pub fn emit(&mut self, kind: Kind, ins: &[u64], labels: &[Label]) -> Result<u64, AllocError>
        ensures made { OnOk result (self.new ≡ self.old ++ record { kind = kind; ins = ins.now; labels = labels.now } ∷ []) }
        ensures first { IfOk result (λ w. w ≡ outputs_of self.old) }
        ensures room { IfOk result (λ w. w + length labels.now < 2 ^ 64) }
    {
        let first = self.outputs;
        let Some(next) = first.checked_add(labels.len() as u64) else {
            return Err(AllocError);
        };
        let ins = Nums::from_vec(Vec::from_slice(self.alloc, ins)?);
        let labels = Items::from_vec(Vec::from_slice(self.alloc, labels)?);
        self.made.push(Made { kind, ins, labels })?;
        self.outputs = next;
        Ok(first)
    }

    /// The blocks.
    pub fn into_made(self) -> Items<Made>
        ensures { result ≡ self }
    {
        let Draft { made, .. } = self;
        made
    }
}
