//! The machine of both blocks: it holds the head of each side, and puts rows made of them.

ghost use Rattle.std.specs.Prelude.{◌≡◌, ◌+◌, ◌≤◌};
ghost use Rattle.merge_blocks.specs.MergeSteps.{IsMergerState, first_port, end_port, row_token, sooner, chosen, after_row, new_merger, merge_steps};

use block_core::Wish;
use stream_tokens::Token;

/// The most input ports: two coordinates and eight payloads.
const PORTS: usize = 10;

/// Heads of the two sides. A head is a coordinate with its payloads, or what stands at each port where a fiber or the
/// stream ends.
#[derive(Clone, Copy)]
pub enum Heads {
    Left,
    Right,
    Both,
}

/// What a merger does next.
#[derive(Clone, Copy)]
pub enum Stage {
    /// These heads are taken, from this input port on.
    Taking(Heads, u32),
    /// The row of these heads is put, from this output port on.
    Putting(Heads, u32),
    Ended,
}

/// Two sides, of which the heads are held.
#[derive(Clone, Copy)]
pub struct Merger {
    /// Whether the coordinates of one side alone are put too.
    unites: bool,
    /// The number of payloads of each side.
    left: u32,
    right: u32,
    stage: Stage,
    /// The token last taken at each input port: the left head, then the right.
    tokens: [Token; PORTS],
}

impl Heads {
    /// The heads that come next, by the tokens at the two coordinate ports: those with the smaller coordinate, or both.
    /// A side that stands at an end comes after all coordinates.
    #[inline]
    fn sooner(left: Token, right: Token) -> Heads
        ensures { result ≡ sooner left right }
    {
        match (left, right) {
            (Token::Item(a), Token::Item(b)) if a < b => Heads::Left,
            (Token::Item(a), Token::Item(b)) if b < a => Heads::Right,
            (Token::Item(_), Token::Item(_)) => Heads::Both,
            (Token::Item(_), _) => Heads::Left,
            (_, Token::Item(_)) => Heads::Right,
            _ => Heads::Both,
        }
    }
}

impl Merger {
    /// A merger of sides with so many payloads; `unites` says that the coordinates of one side alone are put too.
    pub fn new(unites: bool, left: u32, right: u32) -> Merger
        requires payloads { left + right ≤ 8 }
        ensures made { result ≡ new_merger unites left right }
        ensures within { IsMergerState result }
    {
        Merger {
            unites,
            left,
            right,
            stage: Stage::Taking(Heads::Both, 0),
            tokens: [Token::Empty; PORTS],
        }
    }

    /// The number of input ports.
    #[inline]
    pub fn ins(&self) -> u32
        requires within { IsMergerState self.now }
        ensures { result ≡ self.now.left + self.now.right + 2 }
    {
        self.left + self.right + 2
    }

    /// The number of output ports.
    #[inline]
    pub fn outs(&self) -> u32
        requires within { IsMergerState self.now }
        ensures { result ≡ self.now.left + self.now.right + 1 }
    {
        self.left + self.right + 1
    }

    /// The input port of the first token of these heads.
    #[inline]
    fn first(&self, heads: Heads) -> u32
        requires payloads { self.now.left + self.now.right ≤ 8 }
        ensures { result ≡ first_port self.now.left heads }
    {
        match heads {
            Heads::Left | Heads::Both => 0,
            Heads::Right => self.left + 1,
        }
    }

    /// The input port after the last token of these heads.
    #[inline]
    fn end(&self, heads: Heads) -> u32
        requires payloads { self.now.left + self.now.right ≤ 8 }
        ensures { result ≡ end_port self.now.left self.now.right heads }
    {
        match heads {
            Heads::Left => self.left + 1,
            Heads::Right | Heads::Both => self.left + self.right + 2,
        }
    }

    /// The token at an output port of the row of these heads; the payloads of a side that has no part in it are empty.
    #[inline]
    fn token(&self, heads: Heads, port: u32) -> Token
        requires payloads { self.now.left + self.now.right ≤ 8 }
        requires port { port ≤ self.now.left + self.now.right }
        ensures { result ≡ row_token self.now.left self.now.tokens heads port }
    {
        match heads {
            Heads::Left if port > self.left => Token::Empty,
            Heads::Right if port == 0 => self.tokens[self.left as usize + 1],
            Heads::Right if port <= self.left => Token::Empty,
            _ if port <= self.left => self.tokens[port as usize],
            _ => self.tokens[port as usize + 1],
        }
    }

    /// What follows once both heads are there: a row is put, or heads that the row would be made of are passed over.
    #[inline]
    fn chosen(&self) -> Stage
        requires payloads { self.now.left + self.now.right ≤ 8 }
        ensures { result ≡ chosen self.now.unites self.now.left self.now.tokens }
    {
        let heads = Heads::sooner(self.tokens[0], self.tokens[self.left as usize + 1]);
        match heads {
            Heads::Both => Stage::Putting(heads, 0),
            _ if self.unites => Stage::Putting(heads, 0),
            _ => Stage::Taking(heads, self.first(heads)),
        }
    }

    /// What follows once the row of these heads was put: they are taken anew, unless the streams ended.
    #[inline]
    fn after_row(&self, row: Heads) -> Stage
        requires payloads { self.now.left + self.now.right ≤ 8 }
        ensures { result ≡ after_row self.now.left self.now.tokens row }
    {
        match (row, self.tokens[0]) {
            (Heads::Both, Token::Done) => Stage::Ended,
            _ => Stage::Taking(row, self.first(row)),
        }
    }

    #[inline]
    pub fn wants(&self) -> Wish
        requires within { IsMergerState self.now }
        ensures { result ≡ merge_steps.wants self.now }
    {
        match self.stage {
            Stage::Taking(_, port) => Wish::Take(port),
            Stage::Putting(heads, port) => Wish::Put(port, self.token(heads, port)),
            Stage::Ended => Wish::Finished,
        }
    }

    #[inline]
    pub fn took(&mut self, t: Token)
        requires within { IsMergerState self.old }
        ensures steps { self.new ≡ merge_steps.took self.old t }
        ensures left { self.new.left ≡ self.old.left }
        ensures right { self.new.right ≡ self.old.right }
        ensures within { IsMergerState self.new }
    {
        if let Stage::Taking(heads, port) = self.stage {
            self.tokens[port as usize] = t;
            self.stage = if port + 1 < self.end(heads) {
                Stage::Taking(heads, port + 1)
            } else {
                self.chosen()
            };
        }
    }

    #[inline]
    pub fn put(&mut self)
        requires within { IsMergerState self.old }
        ensures steps { self.new ≡ merge_steps.put self.old }
        ensures left { self.new.left ≡ self.old.left }
        ensures right { self.new.right ≡ self.old.right }
        ensures within { IsMergerState self.new }
    {
        if let Stage::Putting(heads, port) = self.stage {
            self.stage = if port + 1 < self.outs() {
                Stage::Putting(heads, port + 1)
            } else {
                self.after_row(heads)
            };
        }
    }
}
