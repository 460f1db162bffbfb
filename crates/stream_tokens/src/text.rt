//! Tokens as text.

ghost use Rattle.std.specs.Prelude.{◌≡◌, ◌++◌, IfOk, OnOk};
ghost use Rattle.stream_tokens.specs.Texts.{token_bytes, stream_bytes};

use crate::{Stream, Token};
use itoa::Buffer;
use sam_base::Name;
use std::alloc::{AllocError, Global};

/// Appends one token.
fn append_token(text: &mut Name, t: Token) -> Result<(), AllocError>
    ensures { OnOk result (text.new ≡ text.old ++ token_bytes t) }
{
    let mut digits = Buffer::new();
    match t {
        Token::Item(n) => text.append(digits.format(n).as_bytes()),
        Token::Empty => text.push(b'N'),
        Token::Stop(n) => {
            text.push(b'S')?;
            text.append(digits.format(n).as_bytes())
        }
        Token::Done => text.push(b'D'),
    }
}

/// The tokens joined by one space: an item's unsigned decimal, `N`, `S` with the level, `D`.
pub fn stream_text(alloc: Global, s: &Stream) -> Result<Name, AllocError>
    ensures { IfOk result (λ text. text ≡ stream_bytes s.now) }
{
    let mut text = Name::new(alloc);
    let Some((&first, others)) = s.as_slice().split_first() else {
        return Ok(text);
    };
    append_token(&mut text, first)?;
    for &t in others {
        text.push(b' ')?;
        append_token(&mut text, t)?;
    }
    Ok(text)
}
