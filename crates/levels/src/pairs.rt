//! The pairs of parent and coordinate that rows have.

ghost use Rattle.std.specs.Prelude.{◌≡◌, ◌+◌, ◌^◌, ◌<◌, ◌≤◌, [], length, slice_index_or, IfOk, OnOk, IsErrOf};
ghost use mathlib.Core.List.{map};
ghost use Rattle.sam_base.specs.Each.{Each};
ghost use Rattle.levels.specs.Pairs.{ends_with, with_pair, with_pairs};
ghost use Rattle.levels.specs.Rows.{row_pairs};

use crate::faults::BuildFault;
use crate::rows::Row;
use sam_base::POSITIONS_MOST;
use std::alloc::Global;

/// A parent's rank and a coordinate.
pub type Pair = (u32, u32);

fn is_last(pairs: &[Pair], pair: Pair) -> bool
    ensures { result ≡ ends_with pairs.now pair }
{
    match pairs.last() {
        Some(last) => *last == pair,
        None => false,
    }
}

/// The place of a pair that is the last of these, or comes after them and is put at the end.
fn place_of(pairs: &mut Vec<Pair>, pair: Pair) -> Result<u32, BuildFault>
    requires { length pairs.old.items ≤ 2 ^ 24 }
    ensures added { OnOk result (pairs.new.items ≡ with_pair pairs.old.items pair) }
    ensures place { IfOk result (λ place. place + 1 ≡ length (with_pair pairs.old.items pair)) }
    ensures few { OnOk result (length (with_pair pairs.old.items pair) ≤ 2 ^ 24) }
    ensures many { IsErrOf result BuildFault.TooManyPositions → 2 ^ 24 < length (with_pair pairs.old.items pair) }
{
    let place = pairs.len();
    if is_last(pairs, pair) {
        return Ok((place - 1) as u32);
    }
    if place as u64 >= POSITIONS_MOST {
        return Err(BuildFault::TooManyPositions);
    }
    pairs.push(pair)?;
    Ok(place as u32)
}

/// The pairs that rows have at a place, ascending and each once, and the place of each row's pair among them. The rows
/// have their pairs in ascending order.
pub fn distinct_pairs(
    alloc: Global,
    rows: &[Row],
    place: usize,
    parents: &[u32],
) -> Result<(Vec<Pair>, Vec<u32>), BuildFault>
    requires all { length parents.now ≡ length rows.now }
    requires place { place < 8 }
    ensures pairs { IfOk result (λ made. made.0.items ≡ with_pairs [] (row_pairs parents.now place rows.now)) }
    ensures few { IfOk result (λ made. length made.0.items ≤ 2 ^ 24) }
    ensures ranks { IfOk result (λ made. Each (λ r. r < length made.0.items) made.1.items) }
    ensures placed { IfOk result (λ made. map (λ r. slice_index_or made.0.items r (0, 0)) made.1.items ≡ row_pairs parents.now place rows.now) }
    ensures many { IsErrOf result BuildFault.TooManyPositions → 2 ^ 24 < length (with_pairs [] (row_pairs parents.now place rows.now)) }
{
    let mut pairs = Vec::new(alloc);
    let mut ranks = Vec::with_capacity(alloc, rows.len())?;
    for (n, row) in rows.iter().enumerate() {
        ranks.push(place_of(&mut pairs, (parents[n], row.coordinates[place]))?)?;
    }
    Ok((pairs, ranks))
}
