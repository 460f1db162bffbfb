//! How much room a run of a graph that computes a program's tensor needs.

ghost use Rattle.std.specs.Prelude.{◌≡◌, List, IfOk};
ghost use Rattle.sam_model.specs.declared.tensors.Entries.{Entries};
ghost use Rattle.custard_lower.specs.Lowered.{Computes};
ghost use Rattle.inputs.specs.Tensors.{AreStored};
ghost use Rattle.parts.specs.Answers.{ComesAlways};
ghost use Rattle.runs.specs.Sizes.{size_text, size_part};

use graph::Graph;
use itoa::Buffer;
use levels::Storage;
use machines::BlocksAnew;
use sam_base::{CAPACITY_MOST, Fault, Name, Waiting, waiting_lines};
use sam_model::Program;
use sam_sizing::{Least, least_capacity};
use std::alloc::{AllocError, Global};

/// The line of a least capacity, and a line for each block that waits with one less.
fn size_text(alloc: Global, capacity: u32, below: &[Waiting]) -> Result<Name, AllocError>
    ensures { IfOk result (λ text. text ≡ size_text capacity below.now) }
{
    let mut digits = Buffer::new();
    let mut text = Name::from_slice(alloc, b"capacity ")?;
    text.append(digits.format(capacity).as_bytes())?;
    text.push(b'\n')?;
    text.append(waiting_lines(alloc, "block ", below)?.as_bytes())?;
    Ok(text)
}

/// The text of the least capacity under which a run of a graph over the program's tensors finishes, given to every channel
/// alike, with the blocks that wait with one less; or the blocks that wait under `CAPACITY_MOST`, where that is too small.
pub fn size_program(
    alloc: Global,
    p: &Program,
    g: &Graph,
    storages: &[Storage],
) -> Result<Name, Fault>
    requires computes { Computes p.now g.now }
    requires stored { (entries : List Entries) × AreStored p.now.tensors entries storages.now }
    ensures { (entries : List Entries) → AreStored p.now.tensors entries storages.now →
        ComesAlways (size_part p.now g.now entries) result }
{
    let maker = BlocksAnew {
        alloc,
        graph: g,
        storages,
    };
    match least_capacity(alloc, g, &maker, CAPACITY_MOST) {
        Err(_) => Err(Fault::OutOfMemory),
        Ok(Least::Above(list)) => Err(Fault::Stalled(list)),
        Ok(Least::Found { capacity, below }) => match size_text(alloc, capacity, below.as_slice()) {
            Ok(text) => Ok(text),
            Err(_) => Err(Fault::OutOfMemory),
        },
    }
}
