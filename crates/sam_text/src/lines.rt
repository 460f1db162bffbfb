//! The lines of a text that count, one by one.

ghost use Rattle.std.specs.Prelude.{◌≡◌, ◌≤◌, ◌<◌, ◌+◌, ◌^◌, ◌∷◌, length, MatchResult, IfOk};

use crate::places::line_at;
use crate::words::is_skipped;

/// A line that counts, with its number, from 1.
#[derive(Clone, Copy)]
pub struct Line<'a> {
    pub number: u32,
    pub text: &'a [u8],
}

/// The lines of a text that aren't skipped and are still to be read.
#[derive(Drop)]
pub struct Lines<'a> {
    text: &'a [u8],
    at: usize,
    number: u32,
    ghost in_text: { at ≤ length text.now },
    ghost short: { length text.now + 1 < 2 ^ 32 },
    ghost counted: { number ≤ at + 1 },
}

impl<'a> Lines<'a> {
    ghost use Rattle.sam_text.specs.Lines.{lines};
    ghost use Rattle.sam_text.specs.Counted.{counted_lines};
    ghost use Rattle.sam_text.specs.Remaining.{lines_left, past_end, text_length, numbered, AtEnd};

    pub fn new(text: &'a [u8]) -> Lines<'a>
        requires { length text.now + 1 < 2 ^ 32 }
        ensures left { lines_left result ≡ counted_lines 1 (lines text.now) }
        ensures past { past_end result ≡ 1 + length (lines text.now) }
        ensures length { text_length result ≡ length text.now }
    {
        Lines {
            text,
            at: 0,
            number: 1,
        }
    }

    /// The next line that counts; or, where none is left, one more than the number of lines.
    pub fn next(&mut self) -> Result<Line<'a>, u32>
        ensures next { MatchResult result (λ line. lines_left self.old ≡ numbered line ∷ lines_left self.new) (AtEnd self.old) }
        ensures past { past_end self.new ≡ past_end self.old }
        ensures within { IfOk result (λ line. length line.text.now ≤ text_length self.old) }
        ensures length { text_length self.new ≡ text_length self.old }
    {
        while self.at < self.text.len() {
            let (end, next) = line_at(self.text, self.at);
            let line = Line {
                number: self.number,
                text: &self.text[self.at..end],
            };
            self.at = next;
            self.number += 1;
            if !is_skipped(line.text) {
                return Ok(line);
            }
        }
        Err(self.number)
    }
}
