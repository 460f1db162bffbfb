//! The two ends of a wire.

ghost use Rattle.std.specs.Prelude.{◌≡◌, ◌<◌, ◌≤◌, IfOk, length};
ghost use Rattle.sam_base.specs.declared.TheConstants.{CAPACITY_MOST};
ghost use Rattle.ruled_wires.specs.Ends.{fresh_end, wire_stream};

use crate::known::Known;
use crate::message::{Message, PACKET_MOST};
use crate::rule::{Chosen, Cut, Wired};
use crate::streams::Streams;
use crossbeam_channel::{Pass, RuledReceiver, RuledSender, bounded_with};
use std::alloc::{AllocError, Global};
use std::marker::{Brand, Model, PhantomData};
use stream_tokens::Token;

/// The sender's end of a wire. Contracts see the wire's number, how many tokens were put, and whether Lost was, how many of these are
/// kept and not yet sent, and how many messages were sent.
#[derive(Drop)]
pub struct Tx<W: Streams> {
    pub(crate) channel: u32,
    pub(crate) sender: RuledSender<Message, Known, Wired>,
    pub(crate) pass: Pass<Message, Known>,
    pub(crate) kept: Vec<Token>,
    pub(crate) kept_lost: bool,
    pub(crate) messages: u64,
    pub(crate) ended: bool,
    of: PhantomData<W>,
}

impl<W: Streams> Model for Tx<W> {
    ghost use Rattle.std.specs.Prelude.{◌+◌, ◌≤◌, ◌||◌, length, vec_capacity};
    ghost use Rattle.crossbeam_channel.specs.Claims.{IsSeatAt};
    ghost use Rattle.crossbeam_channel.specs.Ends.{sends_on, ruled_capacity};
    ghost use Rattle.ruled_wires.specs.Ends.{End, wire_stream, lost_count, SenderKeeps};
    ghost use Rattle.ruled_wires.specs.Passes.{known};

    ghost Value = { End };

    ghost view = { λ t. record { channel = t.channel; count = (known t.pass).sent + length t.kept.items; lost = (known t.pass).sent_lost || t.kept_lost; kept = length t.kept.items + lost_count t.kept_lost; messages = (known t.pass).messages } };

    ghost invariant = { λ t. IsSeatAt (sends_on t.sender) t.pass × SenderKeeps (wire_stream W.streams t.channel) (ruled_capacity (sends_on t.sender)) t.kept.items t.kept_lost t.messages t.ended (known t.pass) × (64 ≤ vec_capacity t.kept) };
}

/// The receiver's end of a wire. Contracts see the wire's number, how many tokens were taken, and whether Lost was, and how many
/// were received and not taken.
#[derive(Drop)]
pub struct Rx<W: Streams> {
    pub(crate) channel: u32,
    pub(crate) receiver: RuledReceiver<Message, Known, Wired>,
    pub(crate) pass: Pass<Message, Known>,
    pub(crate) packet: Vec<Token>,
    pub(crate) place: usize,
    pub(crate) ended: bool,
    of: PhantomData<W>,
}

impl<W: Streams> Model for Rx<W> {
    ghost use Rattle.std.specs.Prelude.{◌-◌, length};
    ghost use Rattle.crossbeam_channel.specs.Claims.{IsSeatAt};
    ghost use Rattle.crossbeam_channel.specs.Ends.{receives_on, ruled_capacity};
    ghost use Rattle.ruled_wires.specs.Ends.{End, wire_stream, ReceiverKeeps};
    ghost use Rattle.ruled_wires.specs.Passes.{known};

    ghost Value = { End };

    ghost view = { λ t. record { channel = t.channel; count = (known t.pass).received - (length t.packet.items - t.place); lost = (known t.pass).got_lost; kept = length t.packet.items - t.place; messages = 0 } };

    ghost invariant = { λ t. IsSeatAt (receives_on t.receiver) t.pass × ReceiverKeeps (wire_stream W.streams t.channel) (ruled_capacity (receives_on t.receiver)) t.packet.items t.place t.ended (known t.pass) };
}

/// A wire for the stream with this number, whose channel holds at most `capacity` messages, from 1 to `CAPACITY_MOST`. Its
/// memory is taken here.
pub fn wire<W: Streams>(
    alloc: Global,
    channel: u32,
    capacity: u32,
) -> Result<(Tx<W>, Rx<W>), AllocError>
    requires capacity { (1 ≤ capacity) × (capacity ≤ CAPACITY_MOST) }
    requires channel { channel < length W.streams }
    ensures fresh { IfOk result (λ ends. (ends.0 ≡ fresh_end channel) × (ends.1 ≡ fresh_end channel)) }
{
    wire_for::<W, Brand>(alloc, channel, capacity)
}

/// A wire whose rule has this stream and capacity from the start.
fn wire_for<W: Streams, C: Chosen>(
    alloc: Global,
    channel: u32,
    capacity: u32,
) -> Result<(Tx<W>, Rx<W>), AllocError>
    requires positive { 0 < capacity }
    requires stream { C.stream ≡ wire_stream W.streams channel }
    requires capacity { C.capacity ≡ capacity }
    ensures fresh { IfOk result (λ ends. (ends.0 ≡ fresh_end channel) × (ends.1 ≡ fresh_end channel)) }
{
    let kept = Vec::with_capacity(alloc, PACKET_MOST as usize)?;
    let (sender, receiver, mut mine) = bounded_with::<Message, Known, Wired, Global>(
        alloc,
        capacity as usize,
    )?;
    let theirs = sender.another::<Cut<C>>(&mut mine);
    let tx = Tx {
        channel,
        sender,
        pass: mine,
        kept,
        kept_lost: false,
        messages: 0,
        ended: false,
        of: PhantomData,
    };
    let rx = Rx {
        channel,
        receiver,
        pass: theirs,
        packet: Vec::new(alloc),
        place: 0,
        ended: false,
        of: PhantomData,
    };
    Ok((tx, rx))
}
