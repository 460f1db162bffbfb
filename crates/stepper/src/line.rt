//! Tokens that wait without a limit.

ghost use Rattle.std.specs.Prelude.{◌≡◌, ◌-◌, ℕ, List, [], ◌∷◌, ◌++◌, length, take, drop, slice_get, OnOk, OnErr};
ghost use Rattle.stream_tokens.specs.declared.Token.{Token as TheToken};

use std::alloc::{AllocError, Global};
use std::marker::Model;
use stream_tokens::Token;

/// Tokens that wait, one behind the other in memory. Those before the head were taken; their memory is used again where none
/// waits any more, and where there would be need of more memory while at least half of the tokens there were taken.
#[derive(Drop)]
pub(crate) struct Line {
    tokens: Vec<Token>,
    head: usize,
}

impl Model for Line {
    ghost use Rattle.std.specs.Prelude.{◌≤◌, List, length, drop};
    ghost use Rattle.stream_tokens.specs.declared.Token.{Token as TheToken};

    ghost Value = { List TheToken };

    ghost view = { λ line. drop line.head line.tokens.items };

    ghost invariant = { λ line. line.head ≤ length line.tokens.items };
}

impl Line {
    pub(crate) fn new(alloc: Global) -> Line
        ensures { result ≡ [] }
    {
        Line {
            tokens: Vec::new(alloc),
            head: 0,
        }
    }

    #[inline]
    pub(crate) fn len(&self) -> usize
        ensures { result ≡ length self.now }
    {
        self.tokens.len() - self.head
    }

    #[inline]
    pub(crate) fn front(&self) -> Option<Token>
        ensures { result ≡ slice_get self.now 0 }
    {
        self.tokens.get(self.head).copied()
    }

    #[inline]
    pub(crate) fn as_slice(&self) -> &[Token]
        ensures { result.now ≡ self.now }
    {
        &self.tokens[self.head..]
    }

    /// Puts a token at the back.
    #[inline]
    pub(crate) fn push(&mut self, t: Token) -> Result<(), AllocError>
        ensures ok { OnOk result (self.new ≡ self.old ++ t ∷ []) }
        ensures err { OnErr result (self.new ≡ self.old) }
    {
        if self.tokens.len() == self.tokens.capacity() {
            self.move_up();
        }
        self.tokens.push(t)?;
        Ok(())
    }

    /// Takes the token at the front away.
    #[inline]
    pub(crate) fn pop(&mut self)
        ensures { self.new ≡ drop 1 self.old }
    {
        if self.len() > 1 {
            self.head += 1;
        } else {
            self.tokens.clear();
            self.head = 0;
        }
    }

    /// Takes the token at the back away again.
    #[inline]
    pub(crate) fn unpush(&mut self)
        ensures { self.new ≡ take (length self.old - 1) self.old }
    {
        if self.len() > 0 {
            let _back = self.tokens.pop();
        }
    }

    /// The tokens that wait move to the front of the memory, where at least as many were taken.
    fn move_up(&mut self)
        ensures { self.new ≡ self.old }
    {
        let waiting = self.len();
        if self.head >= waiting {
            self.tokens.copy_within(self.head.., 0);
            self.tokens.truncate(waiting);
            self.head = 0;
        }
    }
}
