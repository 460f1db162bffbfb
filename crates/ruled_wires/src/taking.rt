//! What a receiver's end keeps, and how it is taken.

ghost use Rattle.std.specs.Prelude.{◌≡◌, ◌<◌, ◌≤◌, ◌↔◌, [], ◌∷◌, true, false, IsTrue, length, drop};
ghost use Rattle.stream_tokens.specs.declared.Token.{Token as Tok};
ghost use Rattle.ruled_wires.specs.declared.message.Sent.TheVariants.{Token as SentToken, Lost as SentLost};
ghost use Rattle.ruled_wires.specs.Ends.{after_message, keeping, wire_stream, is_ended};
ghost use Rattle.ruled_wires.specs.Passes.{known};
ghost use Rattle.ruled_wires.specs.Rule.{IsNext, AreNext, IsSized, tokens_of, is_lost, after_receive};
ghost use Rattle.crossbeam_channel.specs.Claims.{IsSeatAt};
ghost use Rattle.crossbeam_channel.specs.Ends.{receives_on};

use crate::ends::Rx;
use crate::known::Known;
use crate::message::{Message, Sent, ended_by};
use crate::rule::{Receives, Wired};
use crate::streams::Streams;
use crossbeam_channel::{Pass, RuledReceiver};
use std::sync::Wait;
use stream_tokens::Token;

/// Receives one message, and waits until there is one.
fn receive<R: Wait>(
    rt: &R,
    receiver: &RuledReceiver<Message, Known, Wired>,
    pass: &mut Pass<Message, Known>,
) -> Message
    requires seat { IsSeatAt (receives_on receiver.now) pass.old }
    requires takes { (known pass.old).takes ≡ true }
    ensures seat { IsSeatAt (receives_on receiver.now) pass.new }
    ensures next { AreNext (known pass.old).stream (known pass.old).received result }
    ensures sized { IsSized result }
    ensures received { known pass.new ≡ after_receive (known pass.old) result }
{
    for _ in rt.forever() {
        if let Ok(message) = receiver.recv_as::<Receives, R>(rt, pass) {
            return message;
        }
    }
    unreachable!()
}

/// The first token of a message, the rest of which is kept, or `Lost`.
fn first_of(message: Message, packet: &mut Vec<Token>, place: &mut usize) -> Sent
    requires sized { IsSized message }
    requires taken { place.old ≡ length packet.old.items }
    ensures within { place.new ≤ length packet.new.items }
    ensures token { (t : Tok) → result ≡ SentToken t → (is_lost message ≡ false) × (tokens_of message ≡ t ∷ drop place.new packet.new.items) }
    ensures lost { result ≡ SentLost → (is_lost message ≡ true) × (tokens_of message ≡ []) × (place.new ≡ length packet.new.items) }
{
    match message {
        Message::One(t) => Sent::Token(t),
        Message::Lost => Sent::Lost,
        Message::Packet(tokens) => {
            let first = tokens[0];
            *packet = tokens;
            *place = 1;
            Sent::Token(first)
        }
    }
}

impl<W: Streams> Rx<W> {
    /// Takes the next token of the stream, or `Lost` in place of the rest. Waits for a message where none is kept. Neither `Done` nor
    /// `Lost` may have been taken before.
    pub fn take<R: Wait>(&mut self, rt: &R) -> Sent
        requires unended { is_ended (wire_stream W.streams self.old.channel) self.old ≡ false }
        ensures next { IsNext (wire_stream W.streams self.old.channel) self.old.count result }
        ensures taken { self.new ≡ keeping self.new.kept (after_message self.old result) }
        ensures lost_last { result ≡ SentLost → self.new.kept ≡ 0 }
    {
        if self.ready() {
            return self.next_kept();
        }
        let message = receive(rt, &self.receiver, &mut self.pass);
        let s = first_of(message, &mut self.packet, &mut self.place);
        self.ended = ended_by(self.ended, s);
        s
    }

    /// The next token of the packet, where one is left.
    fn next_kept(&mut self) -> Sent
        requires { 0 < self.old.kept }
        ensures token { result ≡ SentLost → ⊥ }
        ensures next { IsNext (wire_stream W.streams self.old.channel) self.old.count result }
        ensures taken { self.new ≡ keeping self.new.kept (after_message self.old result) }
    {
        let s = Sent::Token(self.packet[self.place]);
        self.place += 1;
        self.ended = ended_by(self.ended, s);
        s
    }

    /// Whether a token is kept that was received and not taken: then `take` does not wait.
    pub fn ready(&self) -> bool
        ensures { IsTrue result ↔ (0 < self.now.kept) }
    {
        self.place < self.packet.len()
    }

    /// Whether `Done` or `Lost` was taken.
    pub fn ended(&self) -> bool
        ensures { result ≡ is_ended (wire_stream W.streams self.now.channel) self.now }
    {
        self.ended
    }

    /// The wire's number.
    pub fn channel(&self) -> u32
        ensures { result ≡ self.now.channel }
    {
        self.channel
    }
}
