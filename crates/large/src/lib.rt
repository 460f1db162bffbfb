//! The run of the generated workload, and what is told of it.
#![tactic(auto)]

ghost use Rattle.std.specs.Prelude.{◌≡◌, ◌≤◌, true, IfOk};
ghost use Rattle.sam_base.specs.declared.TheConstants.{LARGE_MOST};
ghost use Rattle.sam_model.specs.Program.{accepted};
ghost use Rattle.inputs.specs.Tensors.{AreStored};
ghost use Rattle.gen_data.specs.Workload.{workload, workload_entries};
ghost use Rattle.large.specs.Summaries.{large_text};

mod storing;
mod summaries;

use crate::storing::storages;
use crate::summaries::run;
use custard_lower::lower;
use gen_data::large_program;
use levels::Storage;
use sam_base::{Items, Name};
use sam_model::Program;
use std::alloc::{AllocError, Global};

/// The workload of a number: its program, and its tensors as they are stored.
fn stored_workload(alloc: Global, n: u32) -> Result<(Program, Items<Storage>), AllocError>
    requires least { 1 ≤ n }
    requires most { n ≤ LARGE_MOST }
    ensures program { IfOk result (λ work. work.0 ≡ workload n) }
    ensures accepted { IfOk result (λ work. accepted work.0 ≡ true) }
    ensures stored { IfOk result (λ work. AreStored work.0.tensors (workload_entries n) work.1) }
{
    let large = large_program(alloc, n)?;
    let storages = storages(
        alloc,
        large.program.tensors.as_slice(),
        large.entries.as_slice(),
    )?;
    Ok((large.program, storages))
}

/// Runs the workload of a number from 1 to `LARGE_MOST`, and tells the number of the result's entries, the sum of their values
/// modulo 2^64 as a signed number, and the number of events, or 2^64-1 where there were more.
pub fn large_text(alloc: Global, n: u32) -> Result<Name, AllocError>
    requires least { 1 ≤ n }
    requires most { n ≤ LARGE_MOST }
    ensures { IfOk result (λ text. text ≡ large_text n) }
{
    let (program, storages) = stored_workload(alloc, n)?;
    let graph = lower(alloc, &program)?;
    let summary = run(alloc, &graph, storages.as_slice())?;
    summary.text(alloc)
}
