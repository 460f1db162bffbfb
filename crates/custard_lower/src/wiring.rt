//! The graph of a draft.

ghost use Rattle.std.specs.Prelude.{◌≡◌, ◌<◌, ◌≤◌, ◌+◌, ◌^◌, ◌++◌, length, map, IfOk};
ghost use Rattle.std.specs.List.{range_with_len};
ghost use Rattle.custard_lower.specs.Fans.{fan_channels, fan_blocks};
ghost use Rattle.custard_lower.specs.DraftGraph.{ReadsWithin, DraftIsSmall, reads_of, channel_to, draft_block, graph_of};
ghost use Rattle.custard_lower.specs.DraftFans.{fans_of, port_channel};

use crate::drafts::Made;
use crate::fans::{Fan, channels_to, fans_of, numbers_from, reads_of};
use graph::{Block, Channel, Graph};
use sam_base::{Items, Nums};
use std::alloc::{AllocError, Global};
use stream_model::Label;

/// Appends the channels of a block's outputs, which are the next ones.
fn push_outputs(
    channels: &mut Items<Channel>,
    block: u32,
    labels: &Items<Label>,
    fans: &Items<Fan>,
) -> Result<(), AllocError>
    requires few_labels { length labels.now < 2 ^ 32 }
    requires within { length channels.old + length labels.now ≤ length fans.now }
    ensures { IfOk result (λ _. channels.new ≡ channels.old ++ map (port_channel fans.now (length channels.old) block labels.now) (range_with_len 0 (length labels.now))) }
{
    for (port, label) in labels.as_slice().iter().enumerate() {
        let output = channels.len();
        let taker = fans.get(output).taker(output as u64);
        channels.push(taker.channel_from(block, port as u32, *label))?;
    }
    Ok(())
}

/// Appends the channels from the cast of an output.
fn push_copies(channels: &mut Items<Channel>, fan: &Fan, label: Label) -> Result<(), AllocError>
    requires { length fan.now.readers < 2 ^ 32 }
    ensures { IfOk result (λ _. channels.new ≡ channels.old ++ fan_channels fan.now label) }
{
    if fan.has_one() {
        return Ok(());
    }
    for (port, read) in fan.readers.as_slice().iter().enumerate() {
        channels.push(read.channel_from(fan.ending, port as u32, label))?;
    }
    Ok(())
}

/// The channels of the graph.
fn channels_of(
    alloc: Global,
    made: &Items<Made>,
    fans: &Items<Fan>,
) -> Result<Items<Channel>, AllocError>
    requires small { DraftIsSmall made.now }
    requires fans { fans.now ≡ fans_of made.now }
    ensures { IfOk result (λ channels. channels ≡ (graph_of made.now).channels) }
{
    let mut channels = Items::new(alloc);
    for (block, made) in made.as_slice().iter().enumerate() {
        push_outputs(&mut channels, block as u32, &made.labels, fans)?;
    }
    for (output, fan) in fans.as_slice().iter().enumerate() {
        let label = channels.get(output).label;
        push_copies(&mut channels, fan, label)?;
    }
    Ok(channels)
}

/// The blocks of the draft, where the channels of its reads are given.
fn draft_blocks(
    alloc: Global,
    made: &Items<Made>,
    channels: &[u64],
) -> Result<Items<Block>, AllocError>
    requires small { DraftIsSmall made.now }
    requires channels { channels.now ≡ map (channel_to made.now) (reads_of made.now) }
    ensures { IfOk result (λ blocks. blocks ≡ map (draft_block made.now) (range_with_len 0 (length made.now))) }
{
    let mut blocks = Items::new(alloc);
    let mut first_read = 0;
    let mut first_output = 0;
    for made in made.as_slice() {
        let next_read = first_read + made.ins.len();
        let ins = Vec::from_slice(alloc, &channels[first_read..next_read])?;
        let outs = numbers_from(alloc, first_output, made.labels.len())?;
        blocks.push(Block {
            kind: made.kind,
            ins: Nums::from_vec(ins),
            outs,
        })?;
        first_read = next_read;
        first_output += made.labels.len() as u64;
    }
    Ok(blocks)
}

/// Appends the drain or cast of an output that needs one.
fn push_ending(
    alloc: Global,
    blocks: &mut Items<Block>,
    fan: &Fan,
    output: u64,
) -> Result<(), AllocError>
    requires number { length fan.now.readers < 2 ^ 32 }
    requires channels { fan.now.first_copy + length fan.now.readers < 2 ^ 64 }
    ensures { IfOk result (λ _. blocks.new ≡ blocks.old ++ fan_blocks fan.now output) }
{
    if !fan.has_one() {
        blocks.push(fan.ending_block(alloc, output)?)?;
    }
    Ok(())
}

/// The blocks of the graph, where the channels of the draft's reads are given.
fn blocks_of(
    alloc: Global,
    made: &Items<Made>,
    fans: &Items<Fan>,
    channels: &[u64],
) -> Result<Items<Block>, AllocError>
    requires small { DraftIsSmall made.now }
    requires fans { fans.now ≡ fans_of made.now }
    requires channels { channels.now ≡ map (channel_to made.now) (reads_of made.now) }
    ensures { IfOk result (λ blocks. blocks ≡ (graph_of made.now).blocks) }
{
    let mut blocks = draft_blocks(alloc, made, channels)?;
    for (output, fan) in fans.as_slice().iter().enumerate() {
        push_ending(alloc, &mut blocks, fan, output as u64)?;
    }
    Ok(blocks)
}

/// The graph of a draft: its blocks, then a drain for each output that has no reader, and a cast for each that has two or more.
///
/// It takes time in proportion to the draft.
pub fn graph_of(alloc: Global, made: &Items<Made>) -> Result<Graph, AllocError>
    requires within { ReadsWithin made.now }
    requires small { DraftIsSmall made.now }
    ensures { IfOk result (λ g. g ≡ graph_of made.now) }
{
    let reads = reads_of(alloc, made)?;
    let fans = fans_of(alloc, made, &reads)?;
    let into = channels_to(alloc, &reads, &fans)?;
    Ok(Graph {
        blocks: blocks_of(alloc, made, &fans, &into)?,
        channels: channels_of(alloc, made, &fans)?,
    })
}
