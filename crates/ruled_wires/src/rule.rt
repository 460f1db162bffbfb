//! The rule of a wire as the protocol of its channel, and the kinds of step that keep it.

use crate::known::Known;
use crate::message::Message;
use crossbeam_channel::protocol::{Lesson, Outcome, Protocol, Split};
use std::marker::{Brand, PhantomData};

/// The rule of a wire.
pub struct Wired;

impl Protocol<Message, Known> for Wired {
    ghost use Rattle.ruled_wires.specs.Rule.{Wire, unmade};

    ghost holds = { λ items views. Wire items views };

    ghost first = { unmade };
}

/// The stream and the capacity that a wire is made for. A call at `Brand` chooses them.
pub trait Chosen {
    ghost use Rattle.std.specs.Prelude.{ℕ, List};
    ghost use Rattle.stream_tokens.specs.declared.Token.{Token};

    ghost stream: { List Token };

    ghost capacity: { ℕ };
}

impl Chosen for Brand {
    ghost use Rattle.std.specs.Prelude.{[]};

    ghost stream = { [] };

    ghost capacity = { 0 };
}

/// Gives a wire its stream and its capacity, and cuts the first view in the sender's and the receiver's.
pub struct Cut<C> {
    of: PhantomData<C>,
}

impl<C: Chosen> Split<Known> for Cut<C> {
    ghost use Rattle.std.specs.Prelude.{false};
    ghost use Rattle.ruled_wires.specs.Rule.{sender_view, receiver_view};

    ghost left = { λ v. sender_view C.stream C.capacity 0 0 false };

    ghost right = { λ v. receiver_view C.stream C.capacity 0 false };
}

/// A message is sent: the sender knows of it.
pub struct Sends;

impl Outcome<Message, Known> for Sends {
    ghost use Rattle.std.specs.Prelude.{◌≡◌};
    ghost use Rattle.ruled_wires.specs.Rule.{after_send};

    ghost then = { λ v x w. w ≡ after_send v x };
}

impl Lesson<Message, Known> for Sends {
    ghost fact = { λ v items. Unit {0} };
}

/// A message is received: it has the next tokens of the stream, and the receiver knows of it.
pub struct Receives;

impl Outcome<Message, Known> for Receives {
    ghost use Rattle.std.specs.Prelude.{◌≡◌};
    ghost use Rattle.ruled_wires.specs.Rule.{after_receive, AreNext, IsSized};

    ghost then = { λ v x w. AreNext v.stream v.received x × IsSized x × (w ≡ after_receive v x) };
}

impl Lesson<Message, Known> for Receives {
    ghost fact = { λ v items. Unit {0} };
}
