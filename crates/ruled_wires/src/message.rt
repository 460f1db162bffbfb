//! The messages of a wire.

ghost use Rattle.std.specs.Prelude.{◌≡◌, ◌||◌, length};
ghost use Rattle.ruled_wires.specs.Ends.{is_last};
ghost use Rattle.ruled_wires.specs.Rule.{tokens_of};

use stream_tokens::Token;

/// What a wire carries.
#[derive(Clone, Copy, Debug, Drop, PartialEq, Eq)]
pub enum Sent {
    /// The next token of the stream.
    Token(Token),
    /// The rest of the stream will not come.
    Lost,
}

/// The most tokens of a packet, and the most that a sender's end keeps.
pub const PACKET_MOST: u32 = 64;

/// What the channel of a wire holds: from two tokens on they go together.
#[derive(Drop)]
pub enum Message {
    One(Token),
    Packet(Vec<Token>),
    Lost,
}

impl Message {
    /// The number of its tokens.
    pub(crate) fn tokens(&self) -> usize
        ensures { result ≡ length (tokens_of self.now) }
    {
        match self {
            Message::One(_) => 1,
            Message::Packet(tokens) => tokens.len(),
            Message::Lost => 0,
        }
    }
}

/// Whether nothing comes after this message, or after those before.
pub(crate) fn ended_by(before: bool, s: Sent) -> bool
    ensures { result ≡ (before || is_last s) }
{
    match s {
        Sent::Lost => true,
        Sent::Token(t) => before || matches!(t, Token::Done),
    }
}
