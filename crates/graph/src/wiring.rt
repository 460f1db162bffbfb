//! Whether a graph is well formed.

ghost use Rattle.std.specs.Prelude.{◌≡◌, ◌<◌, ◌^◌, ◌↔◌, ℕ, true, length, IfOk, IsTrue};
ghost use Rattle.graph.specs.Wiring.{block, channel, NamesInput, NamesOutput, IsReceived, IsSent, WellFormed};
ghost use Rattle.graph.specs.Joined.{BlockFits, ChannelFits, IsJoined};
ghost use Rattle.graph.specs.First.{FailsFirst};

use crate::graphs::Graph;
use crate::order::placed_blocks;
use std::alloc::{AllocError, Global};

/// Whether the channel at an input port of a block names it back.
fn names_input(g: &Graph, b: usize, port: usize) -> bool
    requires block { b < length g.now.blocks }
    requires port { port < length (block g.now b).ins }
    ensures { IsTrue result ↔ NamesInput g.now b port }
{
    let c = g.block(b).ins.get(port) as usize;
    if c >= g.channels.len() {
        return false;
    }
    let channel = g.channel(c);
    channel.to_block as usize == b && channel.to_port as usize == port
}

/// Whether the channel at an output port of a block names it back.
fn names_output(g: &Graph, b: usize, port: usize) -> bool
    requires block { b < length g.now.blocks }
    requires port { port < length (block g.now b).outs }
    ensures { IsTrue result ↔ NamesOutput g.now b port }
{
    let c = g.block(b).outs.get(port) as usize;
    if c >= g.channels.len() {
        return false;
    }
    let channel = g.channel(c);
    channel.from_block as usize == b && channel.from_port as usize == port
}

/// Whether the channels at the input ports of a block all name them back.
fn inputs_named(g: &Graph, b: usize) -> bool
    requires { b < length g.now.blocks }
    ensures { IsTrue result ↔ ((p : ℕ) → p < length (block g.now b).ins → NamesInput g.now b p) }
{
    for port in 0..g.block(b).ins.len() {
        if !names_input(g, b, port) {
            return false;
        }
    }
    true
}

/// Whether the channels at the output ports of a block all name them back.
fn outputs_named(g: &Graph, b: usize) -> bool
    requires { b < length g.now.blocks }
    ensures { IsTrue result ↔ ((p : ℕ) → p < length (block g.now b).outs → NamesOutput g.now b p) }
{
    for port in 0..g.block(b).outs.len() {
        if !names_output(g, b, port) {
            return false;
        }
    }
    true
}

/// Whether a block has the ports of its kind, and the channels there name them back.
fn block_fits(g: &Graph, b: usize) -> bool
    requires { b < length g.now.blocks }
    ensures { IsTrue result ↔ BlockFits g.now b }
{
    let block = g.block(b);
    block.ins.len() as u64 == block.kind.ins()
        && block.outs.len() as u64 == block.kind.outs()
        && inputs_named(g, b)
        && outputs_named(g, b)
}

/// Whether a channel stands at the input port that it names.
fn is_received(g: &Graph, c: usize) -> bool
    requires { c < length g.now.channels }
    ensures { IsTrue result ↔ IsReceived g.now c }
{
    let channel = g.channel(c);
    if channel.to_block as usize >= g.blocks.len() {
        return false;
    }
    let ins = &g.block(channel.to_block as usize).ins;
    let port = channel.to_port as usize;
    port < ins.len() && ins.get(port) == c as u64
}

/// Whether a channel stands at the output port that it names.
fn is_sent(g: &Graph, c: usize) -> bool
    requires { c < length g.now.channels }
    ensures { IsTrue result ↔ IsSent g.now c }
{
    let channel = g.channel(c);
    if channel.from_block as usize >= g.blocks.len() {
        return false;
    }
    let outs = &g.block(channel.from_block as usize).outs;
    let port = channel.from_port as usize;
    port < outs.len() && outs.get(port) == c as u64
}

/// The first block that hasn't its kind's numbers of ports, or has a port whose channel is out of range or doesn't name it back.
///
/// It takes time in proportion to the blocks and their ports.
pub fn misfit_block(g: &Graph) -> Option<usize>
    ensures { FailsFirst (BlockFits g.now) (length g.now.blocks) result }
{
    for b in 0..g.blocks.len() {
        if !block_fits(g, b) {
            return Some(b);
        }
    }
    None
}

/// The first channel that isn't listed at one of the two ports that it names.
///
/// It takes time in proportion to the channels.
pub fn stray_channel(g: &Graph) -> Option<usize>
    ensures { FailsFirst (ChannelFits g.now) (length g.now.channels) result }
{
    for c in 0..g.channels.len() {
        if !is_received(g, c) || !is_sent(g, c) {
            return Some(c);
        }
    }
    None
}

/// Whether each block fits, and each channel stands at both ports that it names.
fn is_joined(g: &Graph) -> bool
    ensures { IsTrue result ↔ IsJoined g.now }
{
    misfit_block(g).is_none() && stray_channel(g).is_none()
}

/// Whether a graph is well formed: each kind has its number of ports, each port has one channel, which names it back, each
/// channel stands at both ports that it names, and no channel leads round to its own block.
///
/// It takes time in proportion to the blocks and channels.
pub fn well_formed(alloc: Global, g: &Graph) -> Result<bool, AllocError>
    requires { length g.now.blocks < 2 ^ 32 }
    ensures { IfOk result (λ answer. IsTrue answer ↔ WellFormed g.now) }
{
    if !is_joined(g) {
        return Ok(false);
    }
    let placed = placed_blocks(alloc, g)?;
    Ok(placed.len() == g.blocks.len())
}
