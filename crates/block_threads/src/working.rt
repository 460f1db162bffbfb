//! The work of one block.

ghost use Rattle.std.specs.Prelude.{◌≡◌, ◌⊎◌, true, false, length};
ghost use Rattle.std.specs.List.{All};
ghost use Rattle.block_core.specs.Ports.{AllStreams};
ghost use Rattle.block_core.specs.Kind.{moves};
ghost use Rattle.ruled_wires.specs.Ends.{IsEmptied};
ghost use Rattle.block_threads.specs.Ports.{channels_of, streams_of, IsFresh, IsEnded, IsThrough, HasLost, HasRoom};
ghost use Rattle.block_threads.specs.Working.{StandsWired};

use crate::gate::Gate;
use crate::hands::{drain_all, end_all, put_to, send_all, send_before_wait, take_from};
use block_core::{BlockStep, Wish};
use ruled_wires::{Rx, Sent, Streams, Tx};
use std::sync::Wait;

/// A block whose work has ended, with the ends of its wires. `lost` says that it could not go on.
#[derive(Drop)]
pub struct Worked<W: Streams, B> {
    pub block: B,
    pub ins: Vec<Rx<W>>,
    pub outs: Vec<Tx<W>>,
    pub lost: bool,
}

/// Makes the moves of a block on its wires, which have one end for each port. What it puts is sent when an output keeps as much as it
/// may, before a take that may wait, and before the work ends.
///
/// Where the block finds no memory, or a `Lost` is taken, it puts `Lost` on each output that has not carried `Done`, takes
/// from each input up to `Done` or `Lost`, and ends with `lost`. Otherwise the block is finished, and each stream went through.
pub fn work<W: Streams, B: BlockStep, G: Gate, R: Wait>(
    rt: &R,
    gate: &G,
    number: u32,
    mut block: B,
    mut ins: Vec<Rx<W>>,
    mut outs: Vec<Tx<W>>,
) -> Worked<W, B>
    requires wired { StandsWired B.BlockStep W.streams block ins.items outs.items }
    requires fresh_ins { All IsFresh ins.items }
    requires fresh_outs { All IsFresh outs.items }
    ensures same_kind { B.kind result.block ≡ B.kind block }
    ensures same_ins { channels_of result.ins.items ≡ channels_of ins.items }
    ensures same_outs { channels_of result.outs.items ≡ channels_of outs.items }
    ensures finished { result.lost ≡ false → B.stands result.block (streams_of W.streams ins.items) (length (moves (B.kind block) (streams_of W.streams ins.items))) }
    ensures through { result.lost ≡ false → All (IsThrough W.streams) result.ins.items × All (IsThrough W.streams) result.outs.items }
    ensures ended { result.lost ≡ true → All (IsEnded W.streams) result.ins.items × All (IsEnded W.streams) result.outs.items }
    ensures cause { result.lost ≡ true → (B.may_refuse block ≡ true) ⊎ HasLost result.ins.items }
    ensures emptied { All IsEmptied result.outs.items }
{
    gate.enter(number);
    for _ in rt.forever() {
        match block.wish() {
            Wish::Finished => {
                send_all(rt, &mut outs);
                return Worked {
                    block,
                    ins,
                    outs,
                    lost: false,
                };
            }
            Wish::Put(port, t) => {
                put_to(rt, &mut outs, port, Sent::Token(t));
                block.did_put();
            }
            Wish::Take(port) => {
                send_before_wait(rt, ins.as_slice(), port, &mut outs);
                let Sent::Token(t) = take_from(rt, &mut ins, port) else {
                    return give_up(rt, block, ins, outs);
                };
                gate.taken(number, &t);
                let Ok(()) = block.take(port, t) else {
                    return give_up(rt, block, ins, outs);
                };
            }
        }
    }
    unreachable!()
}

/// Ends every wire of a block that cannot go on.
fn give_up<W: Streams, B, R: Wait>(
    rt: &R,
    block: B,
    mut ins: Vec<Rx<W>>,
    mut outs: Vec<Tx<W>>,
) -> Worked<W, B>
    requires whole { AllStreams (streams_of W.streams outs.items) }
    requires room { All HasRoom outs.items }
    ensures lost { result.lost ≡ true }
    ensures same_block { result.block ≡ block }
    ensures same_ins { channels_of result.ins.items ≡ channels_of ins.items }
    ensures same_outs { channels_of result.outs.items ≡ channels_of outs.items }
    ensures ended { All (IsEnded W.streams) result.ins.items × All (IsEnded W.streams) result.outs.items }
    ensures cause { HasLost ins.items → HasLost result.ins.items }
    ensures emptied { All IsEmptied result.outs.items }
{
    end_all(rt, outs.as_mut_slice());
    drain_all(rt, ins.as_mut_slice());
    Worked {
        block,
        ins,
        outs,
        lost: true,
    }
}
