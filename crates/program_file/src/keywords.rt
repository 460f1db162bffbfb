//! The words that begin the lines of a program file.

ghost use Rattle.std.specs.Prelude.{◌≡◌, false, MatchOption};
ghost use Rattle.sam_text.specs.Words.{words};
ghost use Rattle.program_file.specs.Keywords.{starts, Behind};

use sam_text::first_word;

/// What stands behind the first word of a line, where that is this one.
pub(crate) fn behind<'a>(line: &'a [u8], keyword: &[u8]) -> Option<&'a [u8]>
    ensures { MatchOption result (starts keyword.now (words line.now) ≡ false) (Behind line.now keyword.now) }
{
    let (word, rest) = first_word(line)?;
    if word == keyword { Some(rest) } else { None }
}
