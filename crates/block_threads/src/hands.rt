//! Messages on one or all of a block's ends.

ghost use Rattle.std.specs.Prelude.{◌≡◌, ◌<◌, ◌+◌, ℕ, true, false, Some, slice_get, slice_set, length};
ghost use Rattle.std.specs.List.{All};
ghost use Rattle.stream_tokens.specs.Nest.{IsStream};
ghost use Rattle.block_core.specs.Ports.{AllStreams};
ghost use Rattle.ruled_wires.specs.Ends.{End, after_message, keeping, wire_stream, is_ended, AllOnwards, IsEmptied};
ghost use Rattle.ruled_wires.specs.Rule.{IsNext};
ghost use Rattle.block_threads.specs.Ports.{channels_of, streams_of, IsEnded, HasLost, HasRoom};

use ruled_wires::{PACKET_MOST, Rx, Sent, Streams, Tx, flush};
use std::sync::Wait;

/// Takes a message from the end at a port.
pub(crate) fn take_from<W: Streams, R: Wait>(rt: &R, ins: &mut Vec<Rx<W>>, port: u32) -> Sent
    requires within { port < length ins.old.items }
    requires unended { (e : End) → slice_get ins.old.items port ≡ Some e → is_ended (wire_stream W.streams e.channel) e ≡ false }
    ensures { (e : End) × (slice_get ins.old.items port ≡ Some e) × IsNext (wire_stream W.streams e.channel) e.count result
        × (kept : ℕ) × (ins.new.items ≡ slice_set ins.old.items port (keeping kept (after_message e result))) }
{
    let rx = &mut ins[port as usize];
    rx.take(rt)
}

/// Sends all that these ends keep.
pub(crate) fn send_all<W: Streams, R: Wait>(rt: &R, outs: &mut Vec<Tx<W>>)
    ensures onwards { AllOnwards outs.old.items outs.new.items }
    ensures emptied { All IsEmptied outs.new.items }
{
    flush(rt, outs.as_mut_slice());
}

/// Puts a message on the end at a port. Where that end then keeps as much as it may, all ends send what they keep.
pub(crate) fn put_to<W: Streams, R: Wait>(rt: &R, outs: &mut Vec<Tx<W>>, port: u32, s: Sent)
    requires within { port < length outs.old.items }
    requires room { All HasRoom outs.old.items }
    requires next { (e : End) → slice_get outs.old.items port ≡ Some e → (e.lost ≡ false) × IsNext (wire_stream W.streams e.channel) e.count s }
    ensures room { All HasRoom outs.new.items }
    ensures put { (e : End) × (slice_get outs.old.items port ≡ Some e)
        × AllOnwards (slice_set outs.old.items port (keeping (e.kept + 1) (after_message e s))) outs.new.items }
{
    let tx = &mut outs[port as usize];
    tx.put(s);
    if tx.kept() >= PACKET_MOST {
        send_all(rt, outs);
    }
}

/// Sends all that these outputs keep, where a take from the input at a port may have to wait.
pub(crate) fn send_before_wait<W: Streams, R: Wait>(
    rt: &R,
    ins: &[Rx<W>],
    port: u32,
    outs: &mut Vec<Tx<W>>,
)
    requires within { port < length ins.now }
    requires room { All HasRoom outs.old.items }
    ensures room { All HasRoom outs.new.items }
    ensures onwards { AllOnwards outs.old.items outs.new.items }
    ensures sent { (e : End) → slice_get ins.now port ≡ Some e → e.kept ≡ 0 → All IsEmptied outs.new.items }
{
    if !ins[port as usize].ready() {
        send_all(rt, outs);
    }
}

/// Takes up to `Done` or `Lost`.
#[tactic(auto, using(crate::proofs::Ends::after_channel, crate::proofs::Ends::after_lost))]
pub(crate) fn drain<W: Streams, R: Wait>(rt: &R, rx: &mut Rx<W>)
    ensures channel { rx.new.channel ≡ rx.old.channel }
    ensures ended { is_ended (wire_stream W.streams rx.new.channel) rx.new ≡ true }
    ensures lost { rx.old.lost ≡ true → rx.new.lost ≡ true }
{
    for _ in rt.forever() {
        if rx.ended() {
            return;
        }
        rx.take(rt);
    }
    unreachable!()
}

/// Puts `Lost` where neither `Done` nor `Lost` was put.
pub(crate) fn lose<W: Streams>(tx: &mut Tx<W>)
    requires whole { IsStream (wire_stream W.streams tx.old.channel) }
    requires room { HasRoom tx.old }
    ensures channel { tx.new.channel ≡ tx.old.channel }
    ensures ended { is_ended (wire_stream W.streams tx.new.channel) tx.new ≡ true }
{
    if !tx.ended() {
        tx.put(Sent::Lost);
    }
}

/// Takes from each end up to `Done` or `Lost`.
pub(crate) fn drain_all<W: Streams, R: Wait>(rt: &R, ins: &mut [Rx<W>])
    ensures ended { All (IsEnded W.streams) ins.new }
    ensures lost { HasLost ins.old → HasLost ins.new }
    ensures same { channels_of ins.new ≡ channels_of ins.old }
{
    for rx in ins.iter_mut() {
        drain(rt, rx);
    }
}

/// Puts `Lost` on each end where neither `Done` nor `Lost` was put.
pub(crate) fn lose_all<W: Streams>(outs: &mut [Tx<W>])
    requires whole { AllStreams (streams_of W.streams outs.old) }
    requires room { All HasRoom outs.old }
    ensures ended { All (IsEnded W.streams) outs.new }
    ensures same { channels_of outs.new ≡ channels_of outs.old }
{
    for tx in outs.iter_mut() {
        lose(tx);
    }
}

/// Ends each of these ends, and sends all that they keep.
pub(crate) fn end_all<W: Streams, R: Wait>(rt: &R, outs: &mut [Tx<W>])
    requires whole { AllStreams (streams_of W.streams outs.old) }
    requires room { All HasRoom outs.old }
    ensures ended { All (IsEnded W.streams) outs.new }
    ensures emptied { All IsEmptied outs.new }
    ensures same { channels_of outs.new ≡ channels_of outs.old }
{
    lose_all(outs);
    flush(rt, outs);
}
