//! The entries of the workload's matrices.

ghost use Rattle.std.specs.Prelude.{◌≡◌, ◌≤◌, ◌<◌, ◌++◌, [], ◌∷◌, map, IfOk, OnOk};
ghost use Rattle.std.specs.List.{flat_map};
ghost use Rattle.sam_base.specs.declared.TheConstants.{LARGE_MOST};
ghost use Rattle.gen_data.specs.Workload.{entry_of, row_entries, matrix_entries};

use sam_base::Nums;
use sam_model::Entries;
use std::alloc::{AllocError, Global};

/// A matrix of the workload.
#[derive(Clone, Copy, Debug, PartialEq, Eq)]
pub enum Matrix {
    B,
    C,
}

impl Matrix {
    /// The column and the value of entry s of a row, of n rows.
    fn entry(self, n: u64, row: u64, s: u64) -> (u64, u64)
        requires rows { n ≤ LARGE_MOST }
        requires row { row < n }
        requires four { s < 4 }
        ensures { (row ∷ result.0 ∷ [], result.1) ≡ entry_of self n row s }
    {
        match self {
            Matrix::B => ((row * row + 7 * s) % n, row + s + 1),
            Matrix::C => ((row * row + 5 * s) % n, s + 1),
        }
    }
}

/// Adds the entries of a row.
fn add_row(
    coords: &mut Vec<u64>,
    values: &mut Vec<u64>,
    matrix: Matrix,
    n: u64,
    row: u64,
) -> Result<(), AllocError>
    requires rows { n ≤ LARGE_MOST }
    requires row { row < n }
    ensures coords { OnOk result (coords.new.items ≡ coords.old.items ++ flat_map (λ entry. entry.0) (row_entries matrix n row)) }
    ensures values { OnOk result (values.new.items ≡ values.old.items ++ map (λ entry. entry.1) (row_entries matrix n row)) }
{
    for s in 0..4 {
        let (column, value) = matrix.entry(n, row, s);
        coords.push(row)?;
        coords.push(column)?;
        values.push(value)?;
    }
    Ok(())
}

/// The entries of a matrix of n rows.
pub fn entries(alloc: Global, matrix: Matrix, n: u64) -> Result<Entries, AllocError>
    requires { n ≤ LARGE_MOST }
    ensures { IfOk result (λ entries. entries ≡ matrix_entries matrix n) }
{
    let count = 4 * n as usize;
    let mut coords = Vec::with_capacity(alloc, 2 * count)?;
    let mut values = Vec::with_capacity(alloc, count)?;
    for row in 0..n {
        add_row(&mut coords, &mut values, matrix, n, row)?;
    }
    Ok(Entries {
        arity: 2,
        coords: Nums::from_vec(coords),
        values: Nums::from_vec(values),
    })
}
