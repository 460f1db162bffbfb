//! Where the ports of each block lead, and the order in which blocks are visited.

ghost use Rattle.std.specs.Prelude.{◌≡◌, ◌<◌, ◌+◌, ◌^◌, [], ◌∷◌, ◌++◌, length, get_or, All, IfOk};
ghost use Rattle.graph.specs.Wiring.{WellFormed};
ghost use Rattle.plays.specs.Held.{at_port};
ghost use Rattle.stepper.specs.Routes.{table_of, routes_of};
ghost use Rattle.stepper.specs.AtState.{Routed};
ghost use Rattle.stepper.specs.Bursting.{row_of};

use graph::{Graph, forward_order};
use sam_base::Nums;
use std::alloc::{AllocError, Global};

/// The channels at the ports of all blocks, one after another, and the place of each block's first.
#[derive(Drop)]
pub(crate) struct Ports {
    first: Vec<usize>,
    channels: Vec<u32>,
}

impl Ports {
    /// The ports of no block.
    fn new(alloc: Global) -> Ports
        ensures first { result.first.items ≡ [] }
        ensures channels { result.channels.items ≡ [] }
    {
        Ports {
            first: Vec::new(alloc),
            channels: Vec::new(alloc),
        }
    }

    /// Appends a block with its channels in port order.
    fn push(&mut self, channels: &Nums) -> Result<(), AllocError>
        requires { All (λ c. c < 2 ^ 32) channels.now }
        ensures first { IfOk result (λ _. self.new.first.items ≡ self.old.first.items ++ length self.old.channels.items ∷ []) }
        ensures channels { IfOk result (λ _. self.new.channels.items ≡ self.old.channels.items ++ channels.now) }
    {
        self.first.push(self.channels.len())?;
        for channel in channels.as_slice() {
            self.channels.push(*channel as u32)?;
        }
        Ok(())
    }

    /// The channels at the ports of a block and of those after it.
    #[inline]
    pub(crate) fn row(&self, block: usize) -> &[u32]
        requires { block < length (table_of self.now).first }
        ensures { result.now ≡ row_of (table_of self.now) block }
    {
        let first = self.first[block];
        let channels = self.channels.as_slice();
        if first < channels.len() {
            return &channels[first..];
        }
        &[]
    }

    /// The channel at a port of a block.
    #[inline]
    pub(crate) fn at(&self, block: usize, port: u32) -> u32
        requires block { block < length (table_of self.now).first }
        requires port { get_or (table_of self.now).first block 0 + port < length (table_of self.now).channels }
        ensures { result ≡ at_port (table_of self.now) block port }
    {
        self.channels[self.first[block] + port as usize]
    }
}

/// The channels at the inputs and at the outputs of the blocks, and the order in which these are visited.
#[derive(Drop)]
pub(crate) struct Plan {
    pub(crate) ins: Ports,
    pub(crate) outs: Ports,
    pub(crate) order: Vec<u32>,
}

impl Plan {
    pub(crate) fn new(alloc: Global, g: &Graph) -> Result<Plan, AllocError>
        requires formed { WellFormed g.now }
        requires few_blocks { length g.now.blocks < 2 ^ 32 }
        requires few_channels { length g.now.channels < 2 ^ 32 }
        ensures { IfOk result (λ plan. Routed g.now (routes_of plan)) }
    {
        let mut ins = Ports::new(alloc);
        let mut outs = Ports::new(alloc);
        for block in g.blocks.as_slice() {
            ins.push(&block.ins)?;
            outs.push(&block.outs)?;
        }
        let order = forward_order(alloc, g)?;
        Ok(Plan { ins, outs, order })
    }
}
