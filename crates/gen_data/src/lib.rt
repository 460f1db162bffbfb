//! The generated workload of `large`: a program over two square matrices, and the entries of both.
#![tactic(auto)]

ghost use Rattle.std.specs.Prelude.{◌≡◌, ◌≤◌, ℕ, true, Some, slice_get, IfOk};
ghost use Rattle.sam_base.specs.declared.TheConstants.{LARGE_MOST};
ghost use Rattle.sam_model.specs.Program.{accepted};
ghost use Rattle.gen_data.specs.Workload.{workload, workload_entries, MayBeStored};

mod matrices;
mod statements;

use crate::matrices::{Matrix, entries};
use crate::statements::program;
use sam_base::Items;
use sam_model::{Entries, Program, Tensor};
use std::alloc::{AllocError, Global};

/// A program, and the entries of each of its tensors in their order.
#[derive(Debug, Drop)]
pub struct Large {
    pub program: Program,
    pub entries: Items<Entries>,
}

/// The workload of a number n from 1 to `LARGE_MOST`: `x(i) = B(i,j) * C(i,j)` over matrices of n rows and columns with four entries
/// a row, whose columns may repeat.
pub fn large_program(alloc: Global, n: u32) -> Result<Large, AllocError>
    requires least { 1 ≤ n }
    requires most { n ≤ LARGE_MOST }
    ensures program { IfOk result (λ large. large.program ≡ workload n) }
    ensures entries { IfOk result (λ large. large.entries ≡ workload_entries n) }
    ensures accepted { IfOk result (λ large. accepted large.program ≡ true) }
    ensures stored { IfOk result (λ large. (k : ℕ) (t : Tensor) (e : Entries) →
        slice_get large.program.tensors k ≡ Some t → slice_get large.entries k ≡ Some e → MayBeStored t e) }
{
    let program = program(alloc, n as u64)?;
    let left = entries(alloc, Matrix::B, n as u64)?;
    let right = entries(alloc, Matrix::C, n as u64)?;
    let entries = Items::from_vec(vec![in alloc; left, right]?);
    Ok(Large { program, entries })
}
