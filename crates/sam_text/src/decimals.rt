//! Words that are decimals.

ghost use Rattle.std.specs.Prelude.{◌≡◌, ◌≤◌, ◌+◌, ℕ, List, ◌∷◌, true, length, take, drop, min, slice_range, IfSome};
ghost use Rattle.std.specs.List.{list_all, prefix_len};
ghost use Rattle.sam_text.specs.Bytes.{is_digit};
ghost use Rattle.sam_text.specs.Numbers.{decimal, is_decimal};
ghost use Rattle.sam_text.specs.Words.{words};

use crate::bytes::{is_digit, is_gap};
use crate::places::behind_gaps;

/// So many digits always spell a number of 64 bits.
const DIGITS_MOST: usize = 19;

/// The number that the digits at the beginning spell, of at most 19 of them, and how many these are.
fn leading_number(word: &[u8]) -> (u64, usize)
    ensures count { result.1 ≡ min 19 (prefix_len is_digit word.now) }
    ensures within { result.1 ≤ length word.now }
    ensures number { result.0 ≡ decimal (take result.1 word.now) }
    ensures digits { list_all is_digit (take result.1 word.now) ≡ true }
{
    let most = word.len().min(DIGITS_MOST);
    let mut number = 0;
    let mut count = 0;
    while count < most && is_digit(word[count]) {
        number = number * 10 + u64::from(word[count] - b'0');
        count += 1;
    }
    (number, count)
}

/// The number that the digits from a place on spell, of at most 19 of them, and the place behind these. No digit may stand there:
/// the number is 0 then.
pub fn digits_at(text: &[u8], from: usize) -> (u64, usize)
    requires { from ≤ length text.now }
    ensures end { result.1 ≡ from + min 19 (prefix_len is_digit (drop from text.now)) }
    ensures in_text { result.1 ≤ length text.now }
    ensures number { result.0 ≡ decimal (slice_range text.now from result.1) }
    ensures digits { list_all is_digit (slice_range text.now from result.1) ≡ true }
{
    let (number, count) = leading_number(&text[from..]);
    (number, from + count)
}

/// The number that the first word of a line spells where this is a decimal of at most 19 digits, and what stands behind the word.
/// Any other word is left to the reader of words: this is the way for most, in one pass.
pub fn first_decimal(line: &[u8]) -> Option<(u64, &[u8])>
    ensures { IfSome result (λ found. ((word : List ℕ) × (words line.now ≡ word ∷ words found.1.now) × (is_decimal word ≡ true) × (decimal word ≡ found.0))) }
{
    let word = behind_gaps(line);
    let (number, count) = leading_number(word);
    if count == 0 || (count < word.len() && !is_gap(word[count])) {
        return None;
    }
    Some((number, &word[count..]))
}
