//! The outputs of a draft with their readers, and the channels of the reads.

ghost use Rattle.std.specs.Prelude.{◌≡◌, ◌<◌, ◌+◌, ◌^◌, [], ◌++◌, length, map, eqb, IfOk, All};
ghost use Rattle.std.specs.List.{filter, range_with_len};
ghost use Rattle.custard_lower.specs.Drafts.{outputs_of};
ghost use Rattle.custard_lower.specs.Fans.{is_single, channel_from, fan_taker, fan_channel, fan_block};
ghost use Rattle.custard_lower.specs.DraftGraph.{ReadsWithin, DraftIsSmall, reads_of, port_reads};
ghost use Rattle.custard_lower.specs.DraftFans.{fans_of, read_channel};

use crate::drafts::Made;
use graph::{Block, Channel, Kind};
use sam_base::{Items, Nums};
use std::alloc::{AllocError, Global};
use stream_model::Label;

/// An output of a draft, and a block and an input port that read it.
#[derive(Clone, Copy, Debug, Drop)]
pub(crate) struct Read {
    output: u64,
    block: u32,
    port: u32,
}

impl Read {
    /// The channel that leads here from an output port.
    pub(crate) fn channel_from(&self, block: u32, port: u32, label: Label) -> Channel
        ensures { result ≡ channel_from block port self.now label }
    {
        Channel {
            from_block: block,
            from_port: port,
            to_block: self.block,
            to_port: self.port,
            label,
        }
    }
}

/// The readers of an output. Where there is one, it needs no drain and no cast.
#[derive(Debug, Drop)]
pub(crate) struct Fan {
    pub(crate) readers: Items<Read>,
    /// The number of its drain or cast.
    pub(crate) ending: u32,
    /// The number of the first channel from there.
    first_copy: u64,
}

impl Fan {
    pub(crate) fn has_one(&self) -> bool
        ensures { result ≡ is_single self.now.readers }
    {
        self.readers.len() == 1
    }

    /// What reads the output in the graph.
    pub(crate) fn taker(&self, output: u64) -> Read
        ensures { result ≡ fan_taker self.now output }
    {
        if self.has_one() {
            *self.readers.get(0)
        } else {
            Read {
                output,
                block: self.ending,
                port: 0,
            }
        }
    }

    /// The channel to a reader that has so many before it.
    fn channel_to(&self, output: u64, place: u64) -> u64
        requires { self.now.first_copy + place < 2 ^ 64 }
        ensures { result ≡ fan_channel self.now output place }
    {
        if self.has_one() {
            output
        } else {
            self.first_copy + place
        }
    }

    /// The drain or cast of the output.
    pub(crate) fn ending_block(&self, alloc: Global, output: u64) -> Result<Block, AllocError>
        requires number { length self.now.readers < 2 ^ 32 }
        requires channels { self.now.first_copy + length self.now.readers < 2 ^ 64 }
        ensures { IfOk result (λ block. block ≡ fan_block self.now output) }
    {
        let number = self.readers.len();
        let kind = if number == 0 {
            Kind::Drain
        } else {
            Kind::Cast {
                outs: number as u32,
            }
        };
        let mut ins = Nums::new(alloc);
        ins.push(output)?;
        let outs = numbers_from(alloc, self.first_copy, number)?;
        Ok(Block { kind, ins, outs })
    }
}

/// So many numbers from one on.
pub(crate) fn numbers_from(alloc: Global, first: u64, count: usize) -> Result<Nums, AllocError>
    requires { first + count < 2 ^ 64 }
    ensures { IfOk result (λ numbers. numbers ≡ range_with_len first count) }
{
    let mut numbers = Nums::new(alloc);
    for number in first..first + count as u64 {
        numbers.push(number)?;
    }
    Ok(numbers)
}

/// Appends the reads of a block's ports.
fn push_reads(reads: &mut Vec<Read>, block: u32, ins: &Nums) -> Result<(), AllocError>
    requires { length ins.now < 2 ^ 32 }
    ensures { IfOk result (λ _. reads.new.items ≡ reads.old.items ++ port_reads block ins.now) }
{
    for (port, output) in ins.as_slice().iter().enumerate() {
        reads.push(Read {
            output: *output,
            block,
            port: port as u32,
        })?;
    }
    Ok(())
}

/// The reads of all blocks, in the order of block and port.
pub(crate) fn reads_of(alloc: Global, made: &Items<Made>) -> Result<Vec<Read>, AllocError>
    requires { DraftIsSmall made.now }
    ensures { IfOk result (λ reads. reads.items ≡ reads_of made.now) }
{
    let mut reads = Vec::new(alloc);
    for (block, made) in made.as_slice().iter().enumerate() {
        push_reads(&mut reads, block as u32, &made.ins)?;
    }
    Ok(reads)
}

/// The number of outputs of all blocks.
pub(crate) fn output_count(made: &Items<Made>) -> usize
    requires { DraftIsSmall made.now }
    ensures { result ≡ outputs_of made.now }
{
    let mut outputs = 0;
    for made in made.as_slice() {
        outputs += made.labels.len();
    }
    outputs
}

/// So many empty lists.
fn no_readers(alloc: Global, outputs: usize) -> Result<Vec<Items<Read>>, AllocError>
    ensures { IfOk result (λ readers. readers.items ≡ map (λ _. []) (range_with_len 0 outputs)) }
{
    let mut readers = Vec::new(alloc);
    for _ in 0..outputs {
        readers.push(Items::new(alloc))?;
    }
    Ok(readers)
}

/// The reads of each output.
fn readers_of(alloc: Global, reads: &[Read], outputs: usize) -> Result<Vec<Items<Read>>, AllocError>
    requires { All (λ r. r.output < outputs) reads.now }
    ensures { IfOk result (λ readers. readers.items ≡ map (λ w. filter (λ r. eqb r.output w) reads.now) (range_with_len 0 outputs)) }
{
    let mut readers = no_readers(alloc, outputs)?;
    for read in reads {
        readers[read.output as usize].push(*read)?;
    }
    Ok(readers)
}

/// The readers of each output of a draft whose reads are given, and its drain or cast.
pub(crate) fn fans_of(
    alloc: Global,
    made: &Items<Made>,
    reads: &[Read],
) -> Result<Items<Fan>, AllocError>
    requires within { ReadsWithin made.now }
    requires small { DraftIsSmall made.now }
    requires reads { reads.now ≡ reads_of made.now }
    ensures { IfOk result (λ fans. fans ≡ fans_of made.now) }
{
    let outputs = output_count(made);
    let mut ending = made.len() as u32;
    let mut first_copy = outputs as u64;
    let mut fans = Items::new(alloc);
    for readers in readers_of(alloc, reads, outputs)? {
        let number = readers.len();
        fans.push(Fan {
            readers,
            ending,
            first_copy,
        })?;
        if number != 1 {
            ending += 1;
            first_copy += number as u64;
        }
    }
    Ok(fans)
}

/// The channel of each read.
pub(crate) fn channels_to(
    alloc: Global,
    reads: &[Read],
    fans: &Items<Fan>,
) -> Result<Vec<u64>, AllocError>
    requires within { All (λ r. r.output < length fans.now) reads.now }
    requires few_reads { length reads.now < 2 ^ 31 }
    requires few_channels { All (λ fan. fan.first_copy < 2 ^ 32) fans.now }
    ensures { IfOk result (λ channels. channels.items ≡ map (read_channel fans.now reads.now) (range_with_len 0 (length reads.now))) }
{
    let mut places = vec![in alloc; 0; fans.len()]?;
    let mut channels = Vec::new(alloc);
    for read in reads {
        let output = read.output as usize;
        let channel = fans.get(output).channel_to(read.output, places[output]);
        channels.push(channel)?;
        places[output] += 1;
    }
    Ok(channels)
}
