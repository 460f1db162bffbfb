//! Tokens, streams of tokens, and the trees that streams stand for.
//!
//! A stream carries a tree of fixed depth one token at a time, as in the Sparse Abstract Machine: its leaves in order,
//! a stop of level n where n + 1 lists end together, and one last token.
#![tactic(auto)]

ghost use Rattle.std.specs.Prelude.{◌≡◌};
ghost use Rattle.stream_tokens.specs.Nest.{leaf, leaf_of};

mod depth;
mod stream;
mod text;

pub use depth::has_depth;
pub use stream::Stream;
pub use text::stream_text;

/// One token of a stream.
#[derive(Clone, Copy, Debug, Drop, PartialEq, Eq)]
pub enum Token {
    /// A coordinate, a reference or a value, as the stream's place in the graph says.
    Item(u64),
    /// A leaf without a number.
    Empty,
    /// The end of this many lists and one more.
    Stop(u8),
    /// The end of the stream.
    Done,
}

impl Token {
    /// The number that a token holds, if it holds one.
    #[inline]
    pub fn value(self) -> Option<u64>
        ensures { result ≡ leaf_of self }
    {
        match self {
            Token::Item(value) => Some(value),
            _ => None,
        }
    }
}

/// A leaf as a token: an item, or an empty token.
impl From<Option<u64>> for Token {
    ghost from_gives = { λ value t. t ≡ leaf value };

    #[inline]
    fn from(value: Option<u64>) -> Token
        ensures { result ≡ leaf value }
    {
        match value {
            Some(value) => Token::Item(value),
            None => Token::Empty,
        }
    }
}
