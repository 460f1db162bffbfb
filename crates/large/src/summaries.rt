//! A whole run, and what is told of it.

ghost use Rattle.std.specs.Prelude.{◌≡◌, ◌%◌, ◌^◌, length, sum, IfOk};
ghost use Rattle.graph.specs.Writers.{value_stream};
ghost use Rattle.block_core.specs.Written.{vals_of};
ghost use Rattle.machines.specs.Runnable.{Runnable};
ghost use Rattle.large.specs.Summaries.{told_line, summary_text, moves_of};

use any_block::gather;
use graph::Graph;
use levels::Storage;
use machines::{machine_for, unbounded};
use sam_base::Name;
use std::alloc::{AllocError, Global};
use stepper::{Ending, NoTap};
use tns_io::{append_number, append_signed};

/// What is told of a run: the number of values that were written, their sum modulo 2^64, and the number of events, or 2^64-1
/// where there were more.
#[derive(Clone, Copy, Debug, Drop)]
pub(crate) struct Summary {
    entries: u64,
    values: u64,
    moves: u64,
}

/// The sum of some numbers modulo 2^64.
fn sum_of(numbers: &[u64]) -> u64
    ensures { result ≡ sum numbers.now % 2 ^ 64 }
{
    let mut total = 0_u64;
    for number in numbers {
        total = total.wrapping_add(*number);
    }
    total
}

/// Runs a graph over stored tensors to its end. The machine is gone before anything is told.
pub(crate) fn run(alloc: Global, g: &Graph, storages: &[Storage]) -> Result<Summary, AllocError>
    requires { Runnable storages.now g.now }
    ensures entries { IfOk result (λ summary. summary.entries ≡ length (vals_of (value_stream storages.now g.now))) }
    ensures values { IfOk result (λ summary. summary.values ≡ sum (vals_of (value_stream storages.now g.now)) % 2 ^ 64) }
    ensures moves { IfOk result (λ summary. summary.moves ≡ moves_of storages.now g.now) }
{
    let capacities = unbounded(alloc, g.channels.len())?;
    let mut machine = machine_for(alloc, g, storages, &capacities)?;
    match machine.finish(&mut NoTap)? {
        Ending::Finished => {
            // The values are asked for, and no level.
            let written = gather(alloc, g, machine.blocks(), 0)?;
            Ok(Summary {
                entries: written.vals.len() as u64,
                values: sum_of(written.vals.as_slice()),
                moves: machine.moves(),
            })
        }
        // Without capacities no run stalls.
        Ending::Stalled(_) => unreachable!(),
    }
}

impl Summary {
    /// Three lines: `entries`, `sum` and `moves`.
    pub(crate) fn text(&self, alloc: Global) -> Result<Name, AllocError>
        ensures { IfOk result (λ text. text ≡ summary_text self.now.entries self.now.values self.now.moves) }
    {
        let mut text = Name::new(alloc);
        text.append(b"entries ")?;
        append_number(&mut text, self.entries)?;
        text.append(b"\nsum ")?;
        append_signed(&mut text, self.values)?;
        text.append(b"\nmoves ")?;
        append_number(&mut text, self.moves)?;
        text.push(b'\n')?;
        Ok(text)
    }
}
