//! The ports of blocks and the channels at them.

ghost use Rattle.std.specs.Prelude.{◌≡◌, ◌<◌, [], length};
ghost use Rattle.block_core.specs.Kind.{ins_of, outs_of};
ghost use Rattle.graph.specs.Meaning.{meaning};
ghost use Rattle.graph.specs.Wiring.{block, channel};

use crate::graphs::Kind::{
    Add, Array, Cast, Const, Drain, DropFiber, DropValue, Fill, Intersect, Mul, Repeat, Root, Scan,
    Sub, SumMatrix, SumScalar, SumVector, Union, WriteLevel, WriteValue,
};
use crate::graphs::{Block, Channel, Graph, Kind};

impl Kind {
    /// The number of input ports.
    pub fn ins(&self) -> u64
        ensures { result ≡ ins_of (meaning [] self.now) }
    {
        match *self {
            Root => 0,
            Scan { .. } | Cast { .. } | Drain | Array { .. } | Const { .. } => 1,
            WriteLevel { .. } | WriteValue => 1,
            Repeat | Mul | Add | Sub | SumScalar | SumVector | DropValue | DropFiber => 2,
            SumMatrix => 3,
            Intersect { left, right } | Union { left, right } => {
                u64::from(left) + u64::from(right) + 2
            }
            Fill { payloads } => u64::from(payloads) + 2,
        }
    }

    /// The number of output ports.
    pub fn outs(&self) -> u64
        ensures { result ≡ outs_of (meaning [] self.now) }
    {
        match *self {
            Drain | WriteLevel { .. } | WriteValue => 0,
            Root | Repeat | Array { .. } | Const { .. } | Mul | Add | Sub | SumScalar => 1,
            Scan { .. } | SumVector | DropValue | DropFiber => 2,
            SumMatrix => 3,
            Cast { outs } => u64::from(outs),
            Intersect { left, right } | Union { left, right } => {
                u64::from(left) + u64::from(right) + 1
            }
            Fill { payloads } => u64::from(payloads) + 1,
        }
    }
}

impl Graph {
    /// A block by its number.
    pub fn block(&self, b: usize) -> &Block
        requires { b < length self.now.blocks }
        ensures { result.now ≡ block self.now b }
    {
        self.blocks.get(b)
    }

    /// A channel by its number.
    pub fn channel(&self, c: usize) -> &Channel
        requires { c < length self.now.channels }
        ensures { result.now ≡ channel self.now c }
    {
        self.channels.get(c)
    }
}
