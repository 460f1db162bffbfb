//! Small graphs from tables.

use graph::{Block, Channel, Graph, Kind};
use sam_base::{Items, Nums};
use std::alloc::{AllocError, Global};
use stream_model::{Attr, Label, Tree};

/// A port's block, and the channel there.
pub(crate) type Port = (usize, u64);

/// The block and port from which a channel leads, and those to which it leads.
pub(crate) type Ends = (u32, u32, u32, u32);

/// The channels at the ports of a block.
fn ports_of(alloc: Global, ports: &[Port], block: usize) -> Result<Nums, AllocError> {
    let mut channels = Nums::new(alloc);
    for (at, channel) in ports {
        if *at == block {
            channels.push(*channel)?;
        }
    }
    Ok(channels)
}

fn blocks_of(
    alloc: Global,
    kinds: &[Kind],
    ins: &[Port],
    outs: &[Port],
) -> Result<Items<Block>, AllocError> {
    let mut blocks = Items::new(alloc);
    for (b, kind) in kinds.iter().enumerate() {
        blocks.push(Block {
            kind: *kind,
            ins: ports_of(alloc, ins, b)?,
            outs: ports_of(alloc, outs, b)?,
        })?;
    }
    Ok(blocks)
}

fn channels_of(alloc: Global, ends: &[Ends]) -> Result<Items<Channel>, AllocError> {
    let label = Label {
        tree: Tree::Root,
        attr: Attr::Literal(0),
    };
    let mut channels = Items::new(alloc);
    for (from_block, from_port, to_block, to_port) in ends {
        channels.push(Channel {
            from_block: *from_block,
            from_port: *from_port,
            to_block: *to_block,
            to_port: *to_port,
            label,
        })?;
    }
    Ok(channels)
}

/// The graph of these blocks, of whose ports and channels each stands where the table says.
pub(crate) fn graph_of(
    alloc: Global,
    kinds: &[Kind],
    ins: &[Port],
    outs: &[Port],
    ends: &[Ends],
) -> Result<Graph, AllocError> {
    Ok(Graph {
        blocks: blocks_of(alloc, kinds, ins, outs)?,
        channels: channels_of(alloc, ends)?,
    })
}
