//! `large`: the run of the generated workload.

ghost use Rattle.std.specs.Prelude.{◌≤◌};
ghost use Rattle.sam_base.specs.declared.TheConstants.{LARGE_MOST};
ghost use Rattle.parts.specs.Answers.{ComesAlways};
ghost use Rattle.sam_cmd.specs.Commands.{large_part};

use large::large_text;
use sam_base::{Fault, Name};
use std::alloc::Global;

/// Runs the workload of a number, and answers what is told of it.
pub fn large(alloc: Global, number: u32) -> Result<Name, Fault>
    requires least { 1 ≤ number }
    requires most { number ≤ LARGE_MOST }
    ensures { ComesAlways (large_part number) result }
{
    match large_text(alloc, number) {
        Ok(text) => Ok(text),
        Err(_) => Err(Fault::OutOfMemory),
    }
}
