//! Paths with every coordinate of dense levels below them.

ghost use Rattle.std.specs.Prelude.{◌≡◌, ◌≤◌, ◌<◌, ◌*◌, ◌++◌, length, drop, slice_index, true, IfOk, IfSome, OnOk, None};
ghost use Rattle.std.specs.List.{flat_map};
ghost use Rattle.sam_base.specs.declared.TheConstants.{ENTRIES_MOST, DIMENSION_MOST};
ghost use Rattle.sam_model.specs.Accepted.{is_well_formed};
ghost use Rattle.sam_model.specs.Lists.{items_at};
ghost use Rattle.tns_io.specs.Closing.{longer_below, spread, multiplied};
ghost use Rattle.tns_io.specs.Rows.{joined, rows_of};

use super::fronts::Paths;
use sam_base::ENTRIES_MOST;
use sam_model::Tensor;
use std::alloc::{AllocError, Global};

/// The size of a level.
fn size_of_level(declared: &Tensor, level: usize) -> u64
    requires formed { is_well_formed declared.now ≡ true }
    requires there { level < length declared.now.order }
    ensures size { result ≡ slice_index (items_at declared.now.dims declared.now.order) level }
    ensures some { 1 ≤ result }
    ensures most { result ≤ DIMENSION_MOST }
{
    declared.dims.get(declared.order.get(level) as usize)
}

/// How many paths there are once the levels from one on are spread below so many, where a result may have them.
pub fn spread_count(declared: &Tensor, from: usize, paths: usize) -> Option<usize>
    requires formed { is_well_formed declared.now ≡ true }
    requires there { from ≤ length declared.now.order }
    ensures counted { IfSome result (λ count. count ≡ multiplied paths (drop from (items_at declared.now.dims declared.now.order))) }
    ensures few { IfSome result (λ count. count ≤ ENTRIES_MOST) }
    ensures many { result ≡ None → ENTRIES_MOST < multiplied paths (drop from (items_at declared.now.dims declared.now.order)) }
{
    let mut count = paths;
    let mut level = from;
    while count <= ENTRIES_MOST {
        if level == declared.order.len() {
            return Some(count);
        }
        count *= size_of_level(declared, level) as usize;
        level += 1;
    }
    None
}

/// Appends a path with each coordinate below a size.
fn append_below(numbers: &mut Vec<u64>, path: &[u64], size: u64) -> Result<(), AllocError>
    ensures { OnOk result (numbers.new.items ≡ numbers.old.items ++ joined (longer_below size path.now)) }
{
    for coordinate in 0..size {
        numbers.extend_from_slice(path)?;
        numbers.push(coordinate)?;
    }
    Ok(())
}

/// Each path with each coordinate below a size.
fn spread_level(
    alloc: Global,
    paths: &Paths,
    long: usize,
    size: u64,
) -> Result<Vec<u64>, AllocError>
    requires whole { length paths.now.numbers.items ≡ paths.now.count * long }
    ensures { IfOk result (λ numbers. numbers.items ≡ joined (flat_map (longer_below size) (rows_of long paths.now.count paths.now.numbers.items))) }
{
    let mut numbers = Vec::new(alloc);
    for path in 0..paths.count {
        append_below(&mut numbers, paths.path(long, path), size)?;
    }
    Ok(numbers)
}

/// Paths down to a level with every coordinate of the levels from there on.
pub fn spread_paths(
    alloc: Global,
    declared: &Tensor,
    from: usize,
    fronts: Paths,
) -> Result<Paths, AllocError>
    requires formed { is_well_formed declared.now ≡ true }
    requires there { from ≤ length declared.now.order }
    requires whole { length fronts.numbers.items ≡ fronts.count * from }
    requires few { multiplied fronts.count (drop from (items_at declared.now.dims declared.now.order)) ≤ ENTRIES_MOST }
    ensures paths { IfOk result (λ paths. paths.numbers.items ≡ joined (spread (rows_of from fronts.count fronts.numbers.items) (drop from (items_at declared.now.dims declared.now.order)))) }
    ensures count { IfOk result (λ paths. paths.count ≡ multiplied fronts.count (drop from (items_at declared.now.dims declared.now.order))) }
    ensures whole { IfOk result (λ paths. length paths.numbers.items ≡ paths.count * length declared.now.order) }
{
    let mut paths = fronts;
    for level in from..declared.order.len() {
        let size = size_of_level(declared, level);
        paths = Paths {
            numbers: spread_level(alloc, &paths, level, size)?,
            count: paths.count * size as usize,
        };
    }
    Ok(paths)
}
