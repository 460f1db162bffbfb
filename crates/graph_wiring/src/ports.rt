//! The blocks at the other ends of a block's channels.

ghost use Rattle.std.specs.Prelude.{◌≡◌, ◌<◌, length};
ghost use Rattle.graph.specs.Wiring.{block};
ghost use Rattle.graph.specs.Joined.{IsJoined};
ghost use Rattle.graph.specs.Placing.{sender};
ghost use Rattle.graph_wiring.specs.Searching.{receiver};

use graph::Graph;

/// The block that receives from an output port.
pub(crate) fn receiver(g: &Graph, b: usize, port: usize) -> usize
    requires joined { IsJoined g.now }
    requires block { b < length g.now.blocks }
    requires port { port < length (block g.now b).outs }
    ensures receiver { result ≡ receiver g.now b port }
    ensures there { result < length g.now.blocks }
{
    let channel = g.block(b).outs.get(port);
    g.channel(channel as usize).to_block as usize
}

/// The block that sends to an input port.
pub(crate) fn sender(g: &Graph, b: usize, port: usize) -> usize
    requires joined { IsJoined g.now }
    requires block { b < length g.now.blocks }
    requires port { port < length (block g.now b).ins }
    ensures sender { result ≡ sender g.now b port }
    ensures there { result < length g.now.blocks }
{
    let channel = g.block(b).ins.get(port);
    g.channel(channel as usize).from_block as usize
}
