//! Results in coordinate form: a coordinate of every level for each value.

ghost use Rattle.std.specs.Prelude.{◌≡◌, ◌≤◌, ◌<◌, ◌*◌, ◌^◌, suc, length, IfOk};
ghost use Rattle.sam_model.specs.Listing.{InRange, listing};
ghost use Rattle.sam_model.specs.Lists.{below};
ghost use Rattle.sam_model.specs.Tensors.{entry_list};
ghost use Rattle.tns_io.specs.Coordinates.{column, level_ends};

use sam_base::{Items, Nums};
use sam_model::Written;
use std::alloc::{AllocError, Global};

/// The ends of fibers of one coordinate each, so many of them.
fn single_ends(alloc: Global, count: usize) -> Result<Nums, AllocError>
    requires { count < 2 ^ 63 }
    ensures { IfOk result (λ ends. ends ≡ below (suc count)) }
{
    let mut ends = Nums::new(alloc);
    for end in 0..count as u64 + 1 {
        ends.push(end)?;
    }
    Ok(ends)
}

/// The ends of a level's fibers: one of everything at the outermost level, and of one coordinate each further in.
fn ends_at(alloc: Global, level: usize, count: usize) -> Result<Nums, AllocError>
    requires { count < 2 ^ 63 }
    ensures { IfOk result (λ ends. ends ≡ level_ends level count) }
{
    if level == 0 {
        let mut ends = Nums::new(alloc);
        ends.push(0)?;
        ends.push(count as u64)?;
        Ok(ends)
    } else {
        single_ends(alloc, count)
    }
}

/// The coordinates of a level, row by row.
fn column(
    alloc: Global,
    rows: &[u64],
    levels: usize,
    level: usize,
    count: usize,
) -> Result<Nums, AllocError>
    requires there { level < levels }
    requires rows { length rows.now ≡ count * levels }
    ensures { IfOk result (λ coordinates. coordinates ≡ column levels rows.now count level) }
{
    let mut coordinates = Nums::new(alloc);
    for row in 0..count {
        coordinates.push(rows[row * levels + level])?;
    }
    Ok(coordinates)
}

/// A written result in coordinate form: under its outermost level one fiber has the first coordinate of every row, repeated ones too, and each
/// further level has one coordinate under each place (a singleton level). The rows stand one after another, with one coordinate for each level.
pub(crate) fn in_coordinates(
    alloc: Global,
    rows: &[u64],
    levels: usize,
    vals: Nums,
) -> Result<Written, AllocError>
    requires some { 1 ≤ levels }
    requires rows { length rows.now ≡ length vals * levels }
    ensures in_range { IfOk result (InRange levels) }
    ensures listed { IfOk result (λ w. listing w ≡ entry_list levels rows.now vals) }
{
    let count = vals.len();
    let mut segs = Items::new(alloc);
    let mut crds = Items::new(alloc);
    for level in 0..levels {
        segs.push(ends_at(alloc, level, count)?)?;
        crds.push(column(alloc, rows, levels, level, count)?)?;
    }
    Ok(Written { segs, crds, vals })
}
