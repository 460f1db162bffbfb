//! The states of a filler: a row of held tokens, and what is done with it next.

ghost use Rattle.std.specs.Prelude.{◌≡◌, ◌≤◌};
ghost use Rattle.shape_blocks.specs.FillSteps.{IsFillState, fill_opened, presence_took, seek_took, head_took, draining_took, fill_steps, new_state};

use block_core::Wish;
use stream_tokens::Token;

/// The most coordinates and payloads together.
const PORTS: usize = 9;

/// What follows once a token was put on all outputs.
#[derive(Clone, Copy)]
pub enum Then {
    /// The presence goes on; the flag says whether it had a token since its last stop.
    Resume(bool),
    /// The next fiber is looked for.
    Seek,
    End,
}

/// What a filler does next. The ports of coordinates and payloads are counted from 0, as the outputs are.
#[derive(Clone, Copy)]
pub enum Stage {
    /// The next token of the presence is wanted; the flag says whether it had one since its last stop.
    Presence(bool),
    /// This token is put on each output, from a port on.
    Spreading(Token, u32, Then),
    /// An item is wanted at a port and at those after it, past the stops of empty fibers.
    Seeking(u32),
    /// The row is put, from a port on.
    Putting(u32),
    /// The next head is wanted, from a port on.
    Head(u32),
    /// The stream at a port is taken to its end, and those after it.
    Draining(u32),
    Ended,
}

/// A filler with some payloads: the head at hand, a token for each port, and what is done next.
#[derive(Clone, Copy)]
pub struct FillState {
    pub payloads: u32,
    stage: Stage,
    row: [Token; PORTS],
}

/// What follows where the presence has a token: a stop is put first where it had another before.
#[inline]
fn after_token(more: bool, then: Then) -> Stage
    ensures { result ≡ fill_opened more then }
{
    match then {
        _ if more => Stage::Spreading(Token::Stop(0), 0, then),
        Then::Resume(more) => Stage::Presence(more),
        Then::Seek => Stage::Seeking(0),
        Then::End => Stage::Ended,
    }
}

/// What follows a token of the presence. The stops of a stream are far below the greatest number.
#[inline]
fn after_presence(more: bool, t: Token) -> Stage
    ensures { result ≡ presence_took more t }
{
    match t {
        Token::Item(_) => after_token(more, Then::Seek),
        Token::Empty => after_token(more, Then::Resume(true)),
        Token::Stop(n) => Stage::Spreading(
            Token::Stop(n.saturating_add(1)),
            0,
            Then::Resume(false),
        ),
        Token::Done => Stage::Draining(0),
    }
}

impl FillState {
    pub fn new(payloads: u32) -> FillState
        requires payloads { payloads ≤ 8 }
        ensures made { result ≡ new_state payloads }
        ensures within { IsFillState result }
    {
        FillState {
            payloads,
            stage: Stage::Presence(false),
            row: [Token::Empty; PORTS],
        }
    }

    #[inline]
    pub fn wants(&self) -> Wish
        requires within { IsFillState self.now }
        ensures { result ≡ fill_steps.wants self.now }
    {
        match self.stage {
            Stage::Presence(_) => Wish::Take(0),
            Stage::Spreading(t, port, _) => Wish::Put(port, t),
            Stage::Seeking(port) | Stage::Head(port) | Stage::Draining(port) => Wish::Take(
                port + 1,
            ),
            Stage::Putting(port) => Wish::Put(port, self.row[port as usize]),
            Stage::Ended => Wish::Finished,
        }
    }

    #[inline]
    pub fn took(&mut self, t: Token)
        requires within { IsFillState self.old }
        ensures steps { self.new ≡ fill_steps.took self.old t }
        ensures payloads { self.new.payloads ≡ self.old.payloads }
        ensures within { IsFillState self.new }
    {
        match self.stage {
            Stage::Presence(more) => self.stage = after_presence(more, t),
            Stage::Seeking(port) => self.found(port, t),
            Stage::Head(port) => self.headed(port, t),
            Stage::Draining(port) => self.drained(port, t),
            Stage::Spreading(_, _, _) | Stage::Putting(_) | Stage::Ended => {}
        }
    }

    #[inline]
    pub fn put(&mut self)
        requires within { IsFillState self.old }
        ensures steps { self.new ≡ fill_steps.put self.old }
        ensures payloads { self.new.payloads ≡ self.old.payloads }
        ensures within { IsFillState self.new }
    {
        self.stage = match self.stage {
            Stage::Spreading(t, port, then) if port < self.payloads => Stage::Spreading(
                t,
                port + 1,
                then,
            ),
            Stage::Spreading(_, _, then) => after_token(false, then),
            Stage::Putting(port) if port < self.payloads => Stage::Putting(port + 1),
            Stage::Putting(_) => Stage::Head(0),
            other => other,
        };
    }

    /// A token came where an item is looked for at this port.
    #[inline]
    fn found(&mut self, port: u32, t: Token)
        requires payloads { self.old.payloads ≤ 8 }
        requires port { port ≤ self.old.payloads }
        ensures steps { self.new ≡ seek_took self.old port t }
    {
        if let Token::Item(_) = t {
            self.row[port as usize] = t;
            self.stage = if port < self.payloads {
                Stage::Seeking(port + 1)
            } else {
                Stage::Putting(0)
            };
        }
    }

    /// A token of the next head came at this port.
    #[inline]
    fn headed(&mut self, port: u32, t: Token)
        requires payloads { self.old.payloads ≤ 8 }
        requires port { port ≤ self.old.payloads }
        ensures steps { self.new ≡ head_took self.old port t }
    {
        self.row[port as usize] = t;
        self.stage = if port < self.payloads {
            Stage::Head(port + 1)
        } else if let Token::Item(_) = self.row[0] {
            Stage::Putting(0)
        } else {
            Stage::Presence(true)
        };
    }

    /// A token came where the stream at this port is taken to its end.
    #[inline]
    fn drained(&mut self, port: u32, t: Token)
        requires payloads { self.old.payloads ≤ 8 }
        requires port { port ≤ self.old.payloads }
        ensures steps { self.new ≡ draining_took self.old port t }
    {
        if let Token::Done = t {
            self.stage = if port < self.payloads {
                Stage::Draining(port + 1)
            } else {
                Stage::Spreading(Token::Done, 0, Then::End)
            };
        }
    }
}
