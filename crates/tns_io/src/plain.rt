//! The commonest lines of a tensor file, each read in one pass that doesn't look for its end first.

ghost use Rattle.std.specs.Prelude.{◌≡◌, ◌≤◌, ◌<◌, ◌+◌, ◌∷◌, length, take, drop, slice_range, true, false, not, Ok, IfOk, IfSome, IfNone};
ghost use Rattle.std.specs.List.{list_all, before_first, after_first};
ghost use Rattle.std.specs.Vec.{vec_len, vec_capacity};
ghost use Rattle.sam_text.specs.Bytes.{is_newline, is_gap};
ghost use Rattle.sam_text.specs.Lines.{lines};
ghost use Rattle.sam_text.specs.Words.{words, is_skipped};
ghost use Rattle.tns_io.specs.Answers.{coordinates_then, entries_then};
ghost use Rattle.tns_io.specs.Entries.{next_entry};
ghost use Rattle.tns_io.specs.Fields.{fields_of};
ghost use Rattle.tns_io.specs.Values.{word_value};

use crate::values::{coordinate_of, keep};
use sam_base::ENTRIES_MOST;
use sam_text::{digits_at, is_blank};
use std::alloc::AllocError;

/// The value at a place that is written as digits, with at most a minus before them, and the place behind it.
fn plain_value(text: &[u8], from: usize) -> Option<(u64, usize)>
    requires { from ≤ length text.now }
    ensures value { IfSome result (λ found. word_value (slice_range text.now from found.1) ≡ Ok found.0) }
    ensures word { IfSome result (λ found. list_all (λ b. not (is_gap b)) (slice_range text.now from found.1) ≡ true) }
    ensures some { IfSome result (λ found. from < found.1) }
    ensures in_text { IfSome result (λ found. found.1 ≤ length text.now) }
{
    let minus = from < text.len() && text[from] == b'-';
    let begin = if minus { from + 1 } else { from };
    let (number, end) = digits_at(text, begin);
    if end == begin {
        return None;
    }
    match keep(minus, number) {
        Ok(value) => Some((value, end)),
        Err(_) => None,
    }
}

/// Reads the fields of a plain line: coordinates in range as plain decimals, each with one blank behind it, a plain value, and a
/// newline behind that. Appends the coordinates, for which there is room, and gives the value and the place of the next line.
/// Any other line is left to the reader of words; coordinates of it may be appended.
fn plain_fields(
    coords: &mut Vec<u64>,
    sizes: &[u64],
    text: &[u8],
    from: usize,
) -> Option<(u64, usize)>
    requires room { vec_len coords.old + length sizes.now ≤ vec_capacity coords.old }
    requires place { from ≤ length text.now }
    ensures fields { IfSome result (λ found. coordinates_then coords.old.items (fields_of sizes.now (words (before_first is_newline (drop from text.now)))) ≡ Ok (coords.new.items, found.0)) }
    ensures counted { IfSome result (λ found. length (words (before_first is_newline (drop from text.now))) ≡ length sizes.now + 1) }
    ensures behind { IfSome result (λ found. after_first is_newline (drop from text.now) ≡ drop found.1 text.now) }
    ensures some { IfSome result (λ found. from < found.1) }
    ensures in_text { IfSome result (λ found. found.1 ≤ length text.now) }
    ensures kept { take (length coords.old.items) coords.new.items ≡ coords.old.items }
{
    let mut at = from;
    for size in sizes {
        let (number, end) = digits_at(text, at);
        if end == at || end >= text.len() || !is_blank(text[end]) {
            return None;
        }
        match coordinate_of(number, *size) {
            Ok(coordinate) => coords.push_reserved(coordinate),
            Err(_) => return None,
        }
        at = end + 1;
    }
    let (value, end) = plain_value(text, at)?;
    if end >= text.len() || text[end] != b'\n' {
        return None;
    }
    Some((value, end + 1))
}

/// Reads a plain line and appends its entry, where there may be one more, and gives the place of the next line. Any other line is
/// left to the reader of words, and nothing is appended.
pub fn plain_line(
    coords: &mut Vec<u64>,
    values: &mut Vec<u64>,
    sizes: &[u64],
    text: &[u8],
    from: usize,
) -> Result<Option<usize>, AllocError>
    requires { from < length text.now }
    ensures line { IfOk result (λ found. IfSome found (λ next. lines (drop from text.now) ≡ before_first is_newline (drop from text.now) ∷ lines (drop next text.now))) }
    ensures entry { IfOk result (λ found. IfSome found (λ _. entries_then coords.old.items values.old.items (next_entry sizes.now (length values.old.items) (before_first is_newline (drop from text.now))) ≡ Ok (coords.new.items, values.new.items))) }
    ensures counts { IfOk result (λ found. IfSome found (λ _. is_skipped (words (before_first is_newline (drop from text.now))) ≡ false)) }
    ensures some { IfOk result (λ found. IfSome found (λ next. from < next)) }
    ensures in_text { IfOk result (λ found. IfSome found (λ next. next ≤ length text.now)) }
    ensures coordinates_stay { IfOk result (λ found. IfNone found (coords.new.items ≡ coords.old.items)) }
    ensures values_stay { IfOk result (λ found. IfNone found (values.new.items ≡ values.old.items)) }
{
    if values.len() >= ENTRIES_MOST {
        return Ok(None);
    }
    let kept = coords.len();
    coords.reserve(sizes.len())?;
    match plain_fields(coords, sizes, text, from) {
        Some((value, next)) => {
            values.push(value)?;
            Ok(Some(next))
        }
        None => {
            coords.truncate(kept);
            Ok(None)
        }
    }
}
