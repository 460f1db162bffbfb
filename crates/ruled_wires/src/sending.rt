//! What a sender's end keeps, and how it is sent.

ghost use Rattle.std.specs.Prelude.{◌≡◌, ◌<◌, ◌≤◌, ◌+◌, ◌-◌, ◌^◌, ◌⊎◌, ℕ, Some, true, false, min, drop, take, length, slice_get, slice_range, vec_capacity};
ghost use Rattle.std.specs.List.{All};
ghost use Rattle.ruled_wires.specs.declared.message.Sent.TheVariants.{Token as SentToken, Lost as SentLost};
ghost use Rattle.ruled_wires.specs.Ends.{after_message, keeping, Onwards, AllOnwards, AllFlushed, IsEmptied, wire_stream, is_ended};
ghost use Rattle.ruled_wires.specs.Passes.{known};
ghost use Rattle.ruled_wires.specs.Rule.{IsNext, AreNext, IsSized, tokens_of, is_lost, after_send};
ghost use Rattle.crossbeam_channel.specs.Claims.{IsSeatAt};
ghost use Rattle.crossbeam_channel.specs.Ends.{sends_on, ruled_capacity};

use crate::ends::Tx;
use crate::known::Known;
use crate::message::{Message, Sent, ended_by};
use crate::rule::{Sends, Wired};
use crate::streams::Streams;
use crossbeam_channel::{Pass, RuledSender};
use std::alloc::Global;
use std::sync::Wait;
use std::thread;
use stream_tokens::Token;

/// Tries to send a message. One that is handed back is dropped, and nothing changes.
fn try_message<R: Wait>(
    rt: &R,
    sender: &RuledSender<Message, Known, Wired>,
    pass: &mut Pass<Message, Known>,
    message: Message,
) -> bool
    requires seat { IsSeatAt (sends_on sender.now) pass.old }
    requires sends { (known pass.old).sends ≡ true }
    requires capacity { (known pass.old).capacity ≡ ruled_capacity (sends_on sender.now) }
    requires unlost { (known pass.old).sent_lost ≡ false }
    requires sized { IsSized message }
    requires next { AreNext (known pass.old).stream (known pass.old).sent message }
    ensures seat { IsSeatAt (sends_on sender.now) pass.new }
    ensures sent { result ≡ true → known pass.new ≡ after_send (known pass.old) message }
    ensures back { result ≡ false → known pass.new ≡ known pass.old }
{
    match sender.try_send_as::<Sends, R>(rt, pass, message) {
        Ok(()) => true,
        Err(_) => false,
    }
}

/// All tokens that are kept as one message, or the first alone where no memory is found for a packet.
fn message_of(alloc: Global, kept: &[Token]) -> Message
    requires some { 0 < length kept.now }
    requires few { length kept.now ≤ 64 }
    ensures sized { IsSized result }
    ensures tokens { is_lost result ≡ false }
    ensures first { take (length (tokens_of result)) kept.now ≡ tokens_of result }
    ensures one_or_all { (length (tokens_of result) ≡ 1) ⊎ (length (tokens_of result) ≡ length kept.now) }
{
    if kept.len() > 1 {
        if let Ok(packet) = kept.to_vec(alloc) {
            return Message::Packet(packet);
        }
    }
    Message::One(kept[0])
}

/// Drops the first token, or all.
fn drop_front(kept: &mut Vec<Token>, count: usize)
    requires some { 0 < length kept.old.items }
    requires one_or_all { (count ≡ 1) ⊎ (count ≡ length kept.old.items) }
    ensures items { kept.new.items ≡ drop count kept.old.items }
    ensures capacity { vec_capacity kept.new ≡ vec_capacity kept.old }
{
    if count < kept.len() {
        kept.remove(0);
    } else {
        kept.clear();
    }
}

/// Tries to send the tokens that are kept, as one message where memory is found for it. The answer says whether some were sent.
fn send_kept<R: Wait>(
    rt: &R,
    sender: &RuledSender<Message, Known, Wired>,
    pass: &mut Pass<Message, Known>,
    kept: &mut Vec<Token>,
) -> bool
    requires seat { IsSeatAt (sends_on sender.now) pass.old }
    requires sends { (known pass.old).sends ≡ true }
    requires capacity { (known pass.old).capacity ≡ ruled_capacity (sends_on sender.now) }
    requires unlost { (known pass.old).sent_lost ≡ false }
    requires some { 0 < length kept.old.items }
    requires few { length kept.old.items ≤ 64 }
    requires next { slice_range (known pass.old).stream (known pass.old).sent ((known pass.old).sent + length kept.old.items) ≡ kept.old.items }
    ensures seat { IsSeatAt (sends_on sender.now) pass.new }
    ensures sent { result ≡ true → (k : ℕ) × (0 < k) × (k ≤ length kept.old.items) × (kept.new.items ≡ drop k kept.old.items)
        × (known pass.new ≡ record (known pass.old) { sent = (known pass.old).sent + k; messages = (known pass.old).messages + 1 }) }
    ensures back { result ≡ false → (kept.new.items ≡ kept.old.items) × (known pass.new ≡ known pass.old) }
    ensures room { vec_capacity kept.new ≡ vec_capacity kept.old }
{
    let message = message_of(*kept.allocator(), kept.as_slice());
    let count = message.tokens();
    let sent = try_message(rt, sender, pass, message);
    if sent {
        drop_front(kept, count);
    }
    sent
}

impl<W: Streams> Tx<W> {
    /// Keeps the next token of the stream.
    fn put_token(&mut self, t: Token)
        requires unlost { self.old.lost ≡ false }
        requires room { self.old.kept < 64 }
        requires next { slice_get (wire_stream W.streams self.old.channel) self.old.count ≡ Some t }
        ensures kept { self.new ≡ keeping (self.old.kept + 1) (after_message self.old (SentToken t)) }
    {
        self.kept.push_reserved(t);
        self.ended = ended_by(self.ended, Sent::Token(t));
    }

    /// Keeps `Lost`.
    fn put_lost(&mut self)
        requires unlost { self.old.lost ≡ false }
        requires room { self.old.kept < 64 }
        requires next { self.old.count < length (wire_stream W.streams self.old.channel) }
        ensures kept { self.new ≡ keeping (self.old.kept + 1) (after_message self.old SentLost) }
    {
        self.kept_lost = true;
        self.ended = true;
    }

    /// Keeps the next token of the stream, or `Lost` in place of the rest, where some tokens remain. At most 64 are kept.
    pub fn put(&mut self, s: Sent)
        requires unlost { self.old.lost ≡ false }
        requires room { self.old.kept < 64 }
        requires next { IsNext (wire_stream W.streams self.old.channel) self.old.count s }
        ensures kept { self.new ≡ keeping (self.old.kept + 1) (after_message self.old s) }
    {
        match s {
            Sent::Token(t) => self.put_token(t),
            Sent::Lost => self.put_lost(),
        }
    }

    /// How many tokens are kept, and one more where `Lost` is.
    pub fn kept(&self) -> u32
        ensures number { result ≡ self.now.kept }
        ensures few { result ≤ 64 }
    {
        self.kept.len() as u32 + u32::from(self.kept_lost)
    }

    /// How many messages were sent, as far as they are counted.
    pub fn messages(&self) -> u64
        ensures { result ≡ min self.now.messages (2 ^ 64 - 1) }
    {
        self.messages
    }

    /// Tries to send the tokens that are kept.
    fn try_tokens<R: Wait>(&mut self, rt: &R)
        ensures { Onwards self.old self.new }
    {
        if !self.kept.is_empty() && send_kept(rt, &self.sender, &mut self.pass, &mut self.kept) {
            self.messages = self.messages.saturating_add(1);
        }
    }

    /// Tries to send `Lost`, where it is kept and no token is.
    fn try_lost<R: Wait>(&mut self, rt: &R)
        ensures { Onwards self.old self.new }
    {
        if self.kept_lost
            && self.kept.is_empty()
            && try_message(rt, &self.sender, &mut self.pass, Message::Lost)
        {
            self.kept_lost = false;
            self.messages = self.messages.saturating_add(1);
        }
    }

    /// Tries once to send what is kept, and does not wait for room.
    pub(crate) fn try_flush<R: Wait>(&mut self, rt: &R)
        ensures { Onwards self.old self.new }
    {
        self.try_tokens(rt);
        self.try_lost(rt);
    }

    /// Whether `Done` or `Lost` was put.
    pub fn ended(&self) -> bool
        ensures { result ≡ is_ended (wire_stream W.streams self.now.channel) self.now }
    {
        self.ended
    }

    /// The wire's number.
    pub fn channel(&self) -> u32
        ensures { result ≡ self.now.channel }
    {
        self.channel
    }
}

/// Tries each wire once. The answer says whether no wire keeps anything now.
fn flush_round<W: Streams, R: Wait>(rt: &R, outs: &mut [Tx<W>]) -> bool
    ensures onwards { AllOnwards outs.old outs.new }
    ensures empty { result ≡ true → All IsEmptied outs.new }
{
    let mut emptied = true;
    for tx in outs.iter_mut() {
        tx.try_flush(rt);
        emptied = emptied && tx.kept() == 0;
    }
    emptied
}

/// Sends all that these wires keep: wire by wire in ascending order, as one message where memory is found for it and without waiting
/// for room, and round again until no wire keeps anything.
pub fn flush<W: Streams, R: Wait>(rt: &R, outs: &mut [Tx<W>])
    ensures { AllFlushed outs.old outs.new }
{
    for _ in rt.forever() {
        if flush_round(rt, outs) {
            return;
        }
        thread::yield_now();
    }
    unreachable!()
}
