//! A block that runs alone on whole inputs.

ghost use Rattle.std.specs.Prelude.{◌≡◌, ℕ, [], ◌∷◌, ◌++◌, length, drop, set, slice_get, get_or, IfOk, refl};
ghost use mathlib.Core.List.{map};
ghost use Rattle.block_core.specs.Move.{Move, Taking, Putting};
ghost use Rattle.block_tests.specs.Feeding.{Feeds, Fed, fed-then, feeds-after, feeds-comes};

use block_core::{BlockStep, Ports, Wish};
use sam_base::Name;
use std::alloc::{AllocError, Global};
use std::marker::Model;
use std::test::Fail;
use stream_tokens::{Stream, Token, stream_text};

/// What is left of one whole input.
#[derive(Drop)]
pub struct Feed<'a> {
    left: &'a [Token],
}

impl<'a> Model for Feed<'a> {
    ghost use Rattle.std.specs.Prelude.{List};
    ghost use Rattle.stream_tokens.specs.declared.Token.{Token as Tok};

    ghost Value = { List Tok };

    ghost view = { λ feed. feed.left.now };
}

impl<'a> Feed<'a> {
    fn new(left: &'a [Token]) -> Feed<'a>
        ensures { result ≡ left.now }
    {
        Feed { left }
    }

    fn front(&self) -> Option<Token>
        ensures { result ≡ slice_get self.now 0 }
    {
        self.left.first().copied()
    }

    fn pop(&mut self)
        ensures { self.new ≡ drop 1 self.old }
    {
        if let Some((_, rest)) = self.left.split_first() {
            self.left = rest;
        }
    }

    fn tokens(&self) -> &[Token]
        ensures { result.now ≡ self.now }
    {
        self.left
    }
}

/// The ports of a block that runs alone: what is left of its inputs, and what it put on each output.
#[derive(Drop)]
pub struct Bench<'a> {
    feeds: Vec<Feed<'a>>,
    outs: Vec<Stream>,
}

impl<'a> Bench<'a> {
    /// A bench with these whole inputs and so many outputs.
    fn new(alloc: Global, ins: &[&'a [Token]], outs: u32) -> Result<Bench<'a>, AllocError>
        ensures { IfOk result (λ b. b.feeds.items ≡ map (λ s. s.now) ins.now) }
    {
        let mut bench = Bench {
            feeds: Vec::new(alloc),
            outs: Vec::new(alloc),
        };
        for _ in 0..outs {
            bench.outs.push(Stream::new(alloc))?;
        }
        for tokens in ins {
            bench.feeds.push(Feed::new(tokens))?;
        }
        Ok(bench)
    }

    /// Whether all inputs are through.
    fn is_through(&self) -> bool {
        self.feeds.iter().all(|feed| feed.tokens().is_empty())
    }
}

impl<'a> Ports for Bench<'a> {
    ghost fed = { λ b ms. Feeds b.feeds.items ms };

    ghost waits = { λ b p. get_or b.feeds.items p [] };

    ghost same = { λ _ _. Unit {0} };

    ghost did = { λ b ms b'. Fed b.feeds.items ms b'.feeds.items };

    fn front(&self, port: u32) -> Option<Token> {
        match self.feeds.get(port as usize) {
            Some(feed) => feed.front(),
            None => None,
        }
    }

    fn waiting(&self, port: u32) -> &[Token] {
        match self.feeds.get(port as usize) {
            Some(feed) => feed.tokens(),
            None => &[],
        }
    }

    // Nothing is relayed, so that each move goes through `front`, `pop` and `put`.
    fn relay(&mut self, _from: u32, _to: u32, _out: &[Token]) -> Result<usize, AllocError> {
        Ok(0)
    }

    fn pop(&mut self, port: u32) {
        if (port as usize) < self.feeds.len() {
            self.feeds[port as usize].pop();
        }
    }

    fn put(&mut self, port: u32, t: Token) -> Result<bool, AllocError> {
        match self.outs.get_mut(port as usize) {
            Some(out) => out.push(t)?,
            None => return Ok(false),
        }
        Ok(true)
    }

    ghost same_none = { λ p. tt };

    ghost same_then = { λ p q r a b. tt };

    ghost did_none = { λ p port. refl };

    ghost did_then = { λ p q r xs ys a b. fed-then p.feeds.items q.feeds.items r.feeds.items xs ys a b };

    ghost fed_after = { λ p q xs rest a b. feeds-after p.feeds.items q.feeds.items xs rest a b };

    ghost comes = { λ p port t rest a. feeds-comes p.feeds.items port (Taking port t ∷ rest) a };
}

/// Lets a block run alone on whole inputs, and gives what it put on each output, with commas between them. It must take
/// all.
pub fn outputs_of<B: BlockStep>(
    alloc: Global,
    block: &mut B,
    ins: &[&[Token]],
) -> Result<Name, Fail>
    requires { B.stands block.old (map (λ s. s.now) ins.now) 0 }
{
    let mut bench = Bench::new(alloc, ins, block.outs())?;
    block.burst(&mut bench, 1000)?;
    if block.wish() != Wish::Finished || !bench.is_through() {
        return Err(Fail::from("it does not end with its inputs"));
    }
    let mut text = Name::new(alloc);
    for out in &bench.outs {
        if !text.as_bytes().is_empty() {
            text.append(b", ")?;
        }
        text.append(stream_text(alloc, out)?.as_bytes())?;
    }
    Ok(text)
}
