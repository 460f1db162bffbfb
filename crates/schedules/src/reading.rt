//! A whole schedule.

ghost use Rattle.std.specs.Prelude.{◌≡◌, ◌≤◌, ◌<◌, length, All, IfOk, IfSome};
ghost use Rattle.sam_text.specs.Lines.{lines};
ghost use Rattle.sam_text.specs.Counted.{counted_lines};
ghost use Rattle.parts.specs.Parts.{gives};
ghost use Rattle.parts.specs.Answers.{ComesAlways};
ghost use Rattle.schedules.specs.Schedules.{turns_of, schedule_in};

use crate::turns::turn;
use sam_base::{FILE_MOST, Fault, Name, Nums};
use sam_text::Lines;
use std::alloc::Global;

/// The turns of a text, line by line.
fn turns(alloc: Global, text: &[u8], blocks: u32) -> Result<Nums, Fault>
    requires { length text.now ≤ FILE_MOST }
    ensures below { IfOk result (λ schedule. All (λ block. block < blocks) schedule) }
    ensures comes { ComesAlways (gives (turns_of blocks (counted_lines 1 (lines text.now)))) result }
{
    let mut schedule = Nums::new(alloc);
    let mut lines = Lines::new(text);
    while let Ok(line) = lines.next() {
        match turn(line.text, blocks) {
            None => return Err(Fault::Schedule { line: line.number }),
            Some(block) => match schedule.push(block) {
                Ok(()) => {}
                Err(_) => return Err(Fault::OutOfMemory),
            },
        }
    }
    Ok(schedule)
}

/// The schedule that a file's bytes spell: a block number, below the number of blocks, on each line that isn't blank or a comment.
/// `None` stands for a file of more bytes than a file may have.
///
/// `Schedule` tells the first line that is bad, or line 0 where the file is too long.
pub fn schedule(alloc: Global, text: Option<Name>, blocks: u32) -> Result<Nums, Fault>
    requires { IfSome text (λ bytes. length bytes ≤ FILE_MOST) }
    ensures below { IfOk result (λ schedule. All (λ block. block < blocks) schedule) }
    ensures comes { ComesAlways (gives (schedule_in blocks text)) result }
{
    match text {
        None => Err(Fault::Schedule { line: 0 }),
        Some(text) => turns(alloc, text.as_bytes(), blocks),
    }
}
