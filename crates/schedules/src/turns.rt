//! One line of a schedule.

ghost use Rattle.std.specs.Prelude.{◌≡◌, ◌<◌, IfSome};
ghost use Rattle.sam_text.specs.Words.{words};
ghost use Rattle.schedules.specs.Schedules.{turn_of};

use sam_text::{first_word, read_u64};

/// The block whose turn a line says: one decimal below the number of blocks.
pub(crate) fn turn(line: &[u8], blocks: u32) -> Option<u64>
    ensures read { result ≡ turn_of blocks (words line.now) }
    ensures below { IfSome result (λ block. block < blocks) }
{
    let (word, rest) = first_word(line)?;
    if first_word(rest).is_some() {
        return None;
    }
    match read_u64(word, 0, word.len()) {
        Ok(number) if number < blocks as u64 => Some(number),
        _ => None,
    }
}
