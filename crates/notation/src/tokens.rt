//! The tokens of a statement's text.

ghost use Rattle.std.specs.Prelude.{◌≡◌, ◌≤◌, ◌<◌, [], ◌∷◌, length, drop, true, IfOk, IfSome, MatchOption};
ghost use Rattle.std.specs.List.{prefix_len};
ghost use Rattle.notation.specs.Tokens.{front_length, front_token, symbol, tokens, word_token, digits_token};
ghost use Rattle.sam_text.specs.Numbers.{is_decimal};
ghost use Rattle.sam_text.specs.Bytes.{is_blank, is_digit, is_name_byte};

use sam_base::{FILE_MOST, Name};
use sam_text::{is_blank, is_digit, is_letter, is_name_byte, read_u64};
use std::alloc::{AllocError, Global};

#[derive(Drop)]
pub(crate) enum Token {
    Name(Name),
    Number(u64),
    /// A decimal above 2^64-1.
    TooLarge,
    /// The word `sum`, which is no name.
    Sum,
    Plus,
    Minus,
    Star,
    Open,
    Close,
    Comma,
    Equals,
    /// A byte that begins no token.
    Bad,
}

/// A token, and the place of its first byte.
#[derive(Drop)]
pub(crate) struct Placed {
    pub token: Token,
    pub place: u32,
}

/// A token, and the place behind it.
#[derive(Drop)]
pub(crate) struct Found {
    pub placed: Placed,
    pub end: usize,
}

fn blank_count(bytes: &[u8]) -> usize
    ensures { result ≡ prefix_len is_blank bytes.now }
{
    bytes.iter().take_while(|byte| is_blank(**byte)).count()
}

fn word_length(bytes: &[u8]) -> usize
    ensures { result ≡ prefix_len is_name_byte bytes.now }
{
    bytes.iter().take_while(|byte| is_name_byte(**byte)).count()
}

fn digits_length(bytes: &[u8]) -> usize
    ensures { result ≡ prefix_len is_digit bytes.now }
{
    bytes.iter().take_while(|byte| is_digit(**byte)).count()
}

/// The token of a word of letters, digits and `_`.
fn word(alloc: Global, bytes: &[u8]) -> Result<Token, AllocError>
    ensures { IfOk result (λ token. token ≡ word_token bytes.now) }
{
    if bytes == b"sum".as_slice() {
        Ok(Token::Sum)
    } else {
        Ok(Token::Name(Name::from_slice(alloc, bytes)?))
    }
}

fn number(digits: &[u8]) -> Token
    requires { is_decimal digits.now ≡ true }
    ensures { result ≡ digits_token digits.now }
{
    match read_u64(digits, 0, digits.len()) {
        Ok(number) => Token::Number(number),
        Err(_) => Token::TooLarge,
    }
}

fn symbol_token(byte: u8) -> Token
    ensures { result ≡ symbol byte }
{
    match byte {
        b'+' => Token::Plus,
        b'-' => Token::Minus,
        b'*' => Token::Star,
        b'(' => Token::Open,
        b')' => Token::Close,
        b',' => Token::Comma,
        b'=' => Token::Equals,
        _ => Token::Bad,
    }
}

/// The token in front of a text, and its length.
fn token_in_front(alloc: Global, bytes: &[u8]) -> Result<(Token, usize), AllocError>
    requires { 0 < length bytes.now }
    ensures token { IfOk result (λ front. front.0 ≡ front_token bytes.now) }
    ensures count { IfOk result (λ front. front.1 ≡ front_length bytes.now) }
{
    let first = bytes[0];
    if is_letter(first) {
        let count = word_length(bytes);
        Ok((word(alloc, &bytes[..count])?, count))
    } else if is_digit(first) {
        let count = digits_length(bytes);
        Ok((number(&bytes[..count]), count))
    } else {
        Ok((symbol_token(first), 1))
    }
}

/// The first token from a place on, if there is one.
pub(crate) fn token_at(alloc: Global, text: &[u8], from: usize) -> Result<Option<Found>, AllocError>
    requires in_text { from ≤ length text.now }
    requires short { length text.now ≤ FILE_MOST }
    ensures next { IfOk result (λ found. MatchOption found (tokens 0 from (drop from text.now) ≡ [])
        (λ t. tokens 0 from (drop from text.now) ≡ t.placed ∷ tokens 0 t.end (drop t.end text.now))) }
    ensures within { IfOk result (λ found. IfSome found (λ t. (from < t.end) × (t.end ≤ length text.now))) }
{
    let begin = from + blank_count(&text[from..]);
    if begin == text.len() {
        return Ok(None);
    }
    let (token, count) = token_in_front(alloc, &text[begin..])?;
    Ok(Some(Found {
        placed: Placed {
            token,
            place: begin as u32,
        },
        end: begin + count,
    }))
}
