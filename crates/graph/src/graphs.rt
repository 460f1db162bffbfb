//! Graphs: blocks of the machine, and the channels between their ports.

use sam_base::{Items, Nums};
use stream_model::Label;

/// The kind of a block, with its numbers. Tensors are counted from 0, and levels from 1.
#[derive(Clone, Copy, Debug, Drop, PartialEq, Eq)]
pub enum Kind {
    /// Puts the root reference.
    Root,
    /// Puts the children of each reference at a level of a stored tensor.
    Scan { tensor: u32, level: u8 },
    /// Puts each reference as often as its fiber is long.
    Repeat,
    /// Puts its stream on each of so many outputs.
    Cast { outs: u32 },
    /// Takes a stream that no other block reads.
    Drain,
    /// Keeps the coordinates that both sides have, with so many payloads on each side.
    Intersect { left: u32, right: u32 },
    /// Puts the coordinates of either side, with so many payloads on each side.
    Union { left: u32, right: u32 },
    /// Puts the value of a stored tensor at each reference.
    Array { tensor: u32 },
    Mul,
    Add,
    Sub,
    /// Puts a constant for each token.
    Const { value: u64 },
    /// Sums each fiber of values into one.
    SumScalar,
    /// Sums the fibers of one outer fiber into one fiber.
    SumVector,
    /// Sums the matrices of one outer fiber into one matrix.
    SumMatrix,
    /// Leaves out the coordinates that have no value.
    DropValue,
    /// Leaves out the coordinates whose fiber is empty.
    DropFiber,
    /// Gives each absent token an empty fiber, with so many payloads.
    Fill { payloads: u32 },
    /// Keeps a level of the result.
    WriteLevel { level: u8 },
    /// Keeps the values of the result.
    WriteValue,
}

/// A block, and the channels at its input and output ports, in the order of the ports.
#[derive(Debug, Drop)]
pub struct Block {
    pub kind: Kind,
    pub ins: Nums,
    pub outs: Nums,
}

/// A channel: the block and the output port from which it leads, the block and the input port to which it leads, and what
/// passes over it.
#[derive(Clone, Copy, Debug, Drop, PartialEq, Eq)]
pub struct Channel {
    pub from_block: u32,
    pub from_port: u32,
    pub to_block: u32,
    pub to_port: u32,
    pub label: Label,
}

/// A graph: its blocks and its channels by their numbers.
#[derive(Debug, Drop)]
pub struct Graph {
    pub blocks: Items<Block>,
    pub channels: Items<Channel>,
}
