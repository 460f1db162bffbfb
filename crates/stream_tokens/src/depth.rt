//! Whether a list of tokens is the stream of a tree of a given depth.

ghost use Rattle.std.specs.Prelude.{◌≡◌, ◌↔◌, IsTrue};
ghost use Rattle.std.specs.List.{list_all};
ghost use Rattle.stream_tokens.specs.Nest.{HasDepth};
ghost use Rattle.stream_tokens.specs.Body.{is_inside, EndsAtDepth};

use crate::{Stream, Token};

/// Whether a token may stand in a body whose stops are below a level.
fn stands_inside(t: Token, level: u8) -> bool
    ensures { result ≡ is_inside level t }
{
    match t {
        Token::Item(_) | Token::Empty => true,
        Token::Stop(n) => n < level,
        Token::Done => false,
    }
}

/// Whether all tokens may stand in such a body.
fn is_body(tokens: &[Token], level: u8) -> bool
    ensures { result ≡ list_all (is_inside level) tokens.now }
{
    tokens.iter().all(|&t| stands_inside(t, level))
}

/// Whether a stream of this depth may have this last token before `Done`, and these tokens before that.
fn ends_well(body: &[Token], end: Token, depth: u8) -> bool
    ensures { IsTrue result ↔ EndsAtDepth depth end body.now }
{
    match end {
        Token::Item(_) | Token::Empty => depth == 0 && body.is_empty(),
        Token::Stop(level) => u16::from(level) + 1 == u16::from(depth) && is_body(body, level),
        Token::Done => false,
    }
}

/// Whether a list of tokens is the stream of some tree of this depth.
///
/// A tree of depth 0 is one leaf. Any leaves and stops below `depth - 1` are the body of some deeper tree, since each stop
/// parts two lists of its level; so the tokens are looked at once, without a stack.
pub fn has_depth(s: &Stream, depth: u8) -> bool
    ensures { IsTrue result ↔ HasDepth depth s.now }
{
    let Some((Token::Done, rest)) = s.as_slice().split_last() else {
        return false;
    };
    let Some((&end, body)) = rest.split_last() else {
        return false;
    };
    ends_well(body, end, depth)
}
