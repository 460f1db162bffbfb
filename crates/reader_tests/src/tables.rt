//! Tables of cases, each as one text: a case is a line, with what is read, `>`, and what is told of it. In what is read,
//! `|` stands for a newline.

use sam_base::Name;
use sam_text::line_at;
use std::alloc::{AllocError, Global};

/// What stands before and behind the first `>` of a line.
fn split(line: &[u8]) -> Option<(&[u8], &[u8])> {
    for (place, byte) in line.iter().enumerate() {
        if *byte == b'>' {
            return Some((&line[..place], &line[place + 1..]));
        }
    }
    None
}

/// What is read in a case of a table, and what is told of it.
pub(crate) fn case_at(table: &[u8], number: usize) -> Option<(&[u8], &[u8])> {
    let mut from = 0;
    for _ in 0..number {
        if from >= table.len() {
            return None;
        }
        let (_, next) = line_at(table, from);
        from = next;
    }
    if from >= table.len() {
        return None;
    }
    let (end, _) = line_at(table, from);
    split(&table[from..end])
}

/// A text with newlines for `|`.
pub(crate) fn unfolded(alloc: Global, text: &[u8]) -> Result<Name, AllocError> {
    let mut unfolded = Name::new(alloc);
    for byte in text {
        unfolded.push(if *byte == b'|' { b'\n' } else { *byte })?;
    }
    Ok(unfolded)
}
