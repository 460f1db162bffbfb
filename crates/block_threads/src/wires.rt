//! The wires of a graph's channels.

ghost use Rattle.std.specs.Prelude.{◌≡◌, ◌<◌, ◌≤◌, ◌^◌, ◌+◌, ◌≢◌, ℕ, length, slice_get, slice_index, Some, IfOk};
ghost use Rattle.sam_base.specs.declared.TheConstants.{CAPACITY_MOST};
ghost use Rattle.graph.specs.Wiring.{WellFormed};
ghost use Rattle.ruled_wires.specs.Ends.{fresh_end};
ghost use Rattle.block_threads.specs.Wires.{EndWaits, WaitFrom, HasWires};

use crate::nest::Job;
use graph::Graph;
use ruled_wires::{Rx, Streams, Tx, wire};
use sam_base::Nums;
use std::alloc::{AllocError, Global};

/// The ends of all wires, by their channels, until blocks take them.
#[derive(Drop)]
pub(crate) struct Wires<W: Streams> {
    senders: Vec<Option<Tx<W>>>,
    receivers: Vec<Option<Rx<W>>>,
}

/// Takes the ends of these channels, in their order.
fn ends_of<T: Drop>(
    alloc: Global,
    ends: &mut Vec<Option<T>>,
    channels: &Nums,
) -> Result<Vec<T>, AllocError>
    requires waiting { (p : ℕ) → p < length channels.now → (x : T) × (slice_get ends.old.items (slice_index channels.now p) ≡ Some (Some x)) }
    requires distinct { (p q : ℕ) → p < q → q < length channels.now → slice_index channels.now p ≢ slice_index channels.now q }
    ensures number { IfOk result (λ taken. length taken.items ≡ length channels.now) }
    ensures taken { IfOk result (λ taken. (p : ℕ) (x : T) → p < length channels.now → slice_get ends.old.items (slice_index channels.now p) ≡ Some (Some x) → slice_get taken.items p ≡ Some x) }
    ensures others { IfOk result (λ _. (c : ℕ) → ((p : ℕ) → p < length channels.now → slice_index channels.now p ≢ c) → slice_get ends.new.items c ≡ slice_get ends.old.items c) }
{
    let mut taken = Vec::with_capacity(alloc, channels.len())?;
    for channel in channels.as_slice() {
        let Some(end) = ends[*channel as usize].take() else {
            unreachable!()
        };
        taken.push(end)?;
    }
    Ok(taken)
}

impl<W: Streams> Wires<W> {
    /// A wire for each channel of a graph, which holds at most `capacity` messages.
    pub(crate) fn new(alloc: Global, g: &Graph, capacity: u32) -> Result<Wires<W>, AllocError>
        requires streams { length W.streams ≡ length g.now.channels }
        requires few_channels { length g.now.channels < 2 ^ 32 }
        requires capacity { (1 ≤ capacity) × (capacity ≤ CAPACITY_MOST) }
        ensures { IfOk result (λ wires. WaitFrom g.now 0 wires.senders.items wires.receivers.items) }
    {
        let count = g.channels.len();
        let mut senders = Vec::with_capacity(alloc, count)?;
        let mut receivers = Vec::with_capacity(alloc, count)?;
        for channel in 0..count {
            let (tx, rx) = wire::<W>(alloc, channel as u32, capacity)?;
            senders.push(Some(tx))?;
            receivers.push(Some(rx))?;
        }
        Ok(Wires { senders, receivers })
    }

    /// The job of a block, which takes the ends of its wires.
    pub(crate) fn job<B: Drop>(
        &mut self,
        alloc: Global,
        g: &Graph,
        number: usize,
        block: B,
    ) -> Result<Job<W, B>, AllocError>
        requires formed { WellFormed g.now }
        requires few_blocks { length g.now.blocks < 2 ^ 32 }
        requires number { number < length g.now.blocks }
        requires waits { WaitFrom g.now number self.old.senders.items self.old.receivers.items }
        ensures block { IfOk result (λ job. job.block ≡ block) }
        ensures wires { IfOk result (λ job. HasWires g.now number job.ins.items job.outs.items) }
        ensures waits { IfOk result (λ _. WaitFrom g.now (number + 1) self.new.senders.items self.new.receivers.items) }
    {
        let ports = g.block(number);
        let ins = ends_of(alloc, &mut self.receivers, &ports.ins)?;
        let outs = ends_of(alloc, &mut self.senders, &ports.outs)?;
        Ok(Job {
            number: number as u32,
            block,
            ins,
            outs,
        })
    }
}
