//! The words of a line, and the lines that are skipped.

ghost use Rattle.std.specs.Prelude.{◌≡◌, ◌<◌, [], ◌∷◌, length, MatchOption, IfSome};
ghost use Rattle.sam_text.specs.Words.{words, behind_word, begins_comment, is_skipped};

use crate::places::{behind_gaps, word_at};

/// The first word of a line, and what stands behind it.
pub fn first_word(line: &[u8]) -> Option<(&[u8], &[u8])>
    // There is none exactly where the line has no word.
    ensures found { MatchOption result (words line.now ≡ [])
        (λ found. words line.now ≡ found.0.now ∷ words found.1.now) }
    ensures rest { IfSome result (λ found. found.1.now ≡ behind_word line.now) }
    ensures shorter { IfSome result (λ found. length found.1.now < length line.now) }
{
    let (begin, end) = word_at(line, 0, line.len())?;
    Some((&line[begin..end], &line[end..]))
}

fn begins_comment(word: &[u8]) -> bool
    ensures { result ≡ begins_comment word.now }
{
    match word {
        [] => false,
        [first, ..] => *first == b'#',
    }
}

/// Whether a line is skipped: it is one of blanks, or its first byte that isn't a blank is `#`.
pub fn is_skipped(line: &[u8]) -> bool
    ensures { result ≡ is_skipped (words line.now) }
{
    let rest = behind_gaps(line);
    rest.is_empty() || begins_comment(rest)
}
