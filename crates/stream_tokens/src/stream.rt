//! A list of tokens that grows.

ghost use Rattle.std.specs.Prelude.{◌≡◌, ◌<◌, [], ◌∷◌, ◌++◌, length, slice_get, OnOk, OnErr};

use crate::Token;
use std::alloc::{AllocError, Global};
use std::marker::Model;

/// A list of tokens, which contracts see as that list.
#[derive(Debug, Drop)]
pub struct Stream {
    tokens: Vec<Token>,
}

impl Model for Stream {
    ghost use Rattle.std.specs.Prelude.{List};
    ghost use Rattle.stream_tokens.specs.declared.Token.{Token};

    ghost Value = { List Token };

    ghost view = { λ stream. stream.tokens.items };
}

impl Stream {
    /// The empty list; it takes no memory.
    pub fn new(alloc: Global) -> Stream
        ensures { result ≡ [] }
    {
        Stream {
            tokens: Vec::new(alloc),
        }
    }

    /// The tokens of a `Vec`, without a copy.
    pub fn from_vec(tokens: Vec<Token>) -> Stream
        ensures { result ≡ tokens.items }
    {
        Stream { tokens }
    }

    /// The tokens as a `Vec`, without a copy.
    pub fn into_vec(self) -> Vec<Token>
        ensures { result.items ≡ self }
    {
        self.tokens
    }

    /// Appends a token; without memory the list stays as it was.
    pub fn push(&mut self, t: Token) -> Result<(), AllocError>
        ensures ok { OnOk result (self.new ≡ self.old ++ t ∷ []) }
        ensures err { OnErr result (self.new ≡ self.old) }
    {
        self.tokens.push(t)?;
        Ok(())
    }

    /// The number of tokens.
    pub fn len(&self) -> usize
        ensures { result ≡ length self.now }
    {
        self.tokens.len()
    }

    /// The token at place `n`, counted from 0.
    pub fn get(&self, n: usize) -> Token
        requires { n < length self.now }
        ensures { slice_get self.now n ≡ Some result }
    {
        self.tokens[n]
    }

    /// All tokens in order.
    pub fn as_slice(&self) -> &[Token]
        ensures { result.now ≡ self.now }
    {
        &self.tokens
    }
}
