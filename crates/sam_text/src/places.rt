//! Where lines and words begin and end.

ghost use Rattle.std.specs.Prelude.{◌≡◌, ◌+◌, ◌-◌, ◌≤◌, ◌<◌, [], ◌∷◌, length, drop, min, slice_range, MatchOption, IfSome};
ghost use Rattle.std.specs.List.{prefix_len, position_or_len};
ghost use Rattle.sam_text.specs.Bytes.{is_newline, is_gap};
ghost use Rattle.sam_text.specs.Lines.{lines};
ghost use Rattle.sam_text.specs.Words.{behind_gaps, words};

use crate::bytes::is_gap;

/// How many bytes stand before the first newline.
fn line_length(bytes: &[u8]) -> usize
    ensures { result ≡ position_or_len is_newline bytes.now }
{
    bytes.iter().take_while(|byte| **byte != b'\n').count()
}

/// How many gaps stand at the beginning.
fn gap_length(bytes: &[u8]) -> usize
    ensures { result ≡ prefix_len is_gap bytes.now }
{
    bytes.iter().take_while(|byte| is_gap(**byte)).count()
}

/// How many bytes stand before the first gap.
fn word_length(bytes: &[u8]) -> usize
    ensures { result ≡ position_or_len is_gap bytes.now }
{
    bytes.iter().take_while(|byte| !is_gap(**byte)).count()
}

/// What stands behind the gaps at the beginning.
pub(crate) fn behind_gaps(line: &[u8]) -> &[u8]
    ensures { result.now ≡ behind_gaps line.now }
{
    &line[gap_length(line)..]
}

/// The end of the line that starts at `from`, and the start of the next line.
pub fn line_at(text: &[u8], from: usize) -> (usize, usize)
    requires { from ≤ length text.now }
    // The line ends at the first newline, or else with the text.
    ensures end { result.0 ≡ from + position_or_len is_newline (drop from text.now) }
    // The next line starts behind the newline.
    ensures next { result.1 ≡ min (result.0 + 1) (length text.now) }
    ensures line { from < length text.now
        → lines (drop from text.now) ≡ slice_range text.now from result.0 ∷ lines (drop result.1 text.now) }
    ensures in_text { result.0 ≤ length text.now }
{
    let end = from + line_length(&text[from..]);
    if end < text.len() {
        (end, end + 1)
    } else {
        (end, end)
    }
}

/// The beginning and the end of the first word of a part of a text.
pub fn word_at(text: &[u8], from: usize, to: usize) -> Option<(usize, usize)>
    requires ordered { from ≤ to }
    requires in_text { to ≤ length text.now }
    // There is none exactly where each byte of the part is a gap.
    ensures found { MatchOption result (prefix_len is_gap (slice_range text.now from to) ≡ to - from)
        (λ word. prefix_len is_gap (slice_range text.now from to) < to - from) }
    // The word begins at the first byte that is no gap, and ends at the gap behind it.
    ensures begin { IfSome result (λ word. word.0 ≡ from + prefix_len is_gap (slice_range text.now from to)) }
    ensures end { IfSome result (λ word. word.1 ≡ word.0 + position_or_len is_gap (slice_range text.now word.0 to)) }
    ensures words { MatchOption result (words (slice_range text.now from to) ≡ [])
        (λ word. words (slice_range text.now from to)
        ≡ slice_range text.now word.0 word.1 ∷ words (slice_range text.now word.1 to)) }
    ensures within { IfSome result (λ word. (from ≤ word.0) × (word.0 < word.1) × (word.1 ≤ to)) }
{
    let begin = from + gap_length(&text[from..to]);
    if begin == to {
        return None;
    }
    let end = begin + word_length(&text[begin..to]);
    Some((begin, end))
}
