//! How a tensor is stored: its entries are sorted once, and each level is made in one pass over them.

ghost use Rattle.std.specs.Prelude.{◌≡◌, ℕ, suc, ◌+◌, ◌*◌, ◌^◌, ◌<◌, ◌≤◌, [], length, slice_index, IfOk, OnOk, IsErrOf, slice_index_or};
ghost use mathlib.Core.List.{map};
ghost use Rattle.sam_model.specs.Lists.{below};
ghost use Rattle.sam_model.specs.Tensors.{stored_prefixes};
ghost use Rattle.sam_model.specs.Children.{children_of};
ghost use Rattle.levels.specs.Arrays.{dense_children};
ghost use Rattle.sam_base.specs.Each.{Each};
ghost use Rattle.levels.specs.Sorted.{Sorted};
ghost use Rattle.levels.specs.Matches.{IsStorable};
ghost use Rattle.levels.specs.Pairs.{NotAfter, with_pairs};
ghost use Rattle.levels.specs.Placed.{InOrder, Placed};
ghost use Rattle.levels.specs.Rows.{of_rows, row_pairs, sum_at, ranked_values};
ghost use Rattle.levels.specs.Shown.{level_count, level_children, pair_children};

use crate::compressed::{Compressed, coordinates_of, segments_of};
use crate::dense::Dense;
use crate::faults::BuildFault;
use crate::level::Level;
use crate::pairs::distinct_pairs;
use crate::positions::Positions;
use crate::rows::Row;
use sam_base::POSITIONS_MOST;
use sam_model::{Format, Tensor};
use std::alloc::{AllocError, Global};

/// The empty prefix, whose rank is 0.
fn root(alloc: Global, rows: &[Row]) -> Result<Positions, AllocError>
    ensures one { IfOk result (λ at. at.count ≡ 1) }
    ensures ranked { IfOk result (λ at. Each (λ r. r < 1) at.ranks.items) }
    ensures all { IfOk result (λ at. length at.ranks.items ≡ length rows.now) }
{
    Ok(Positions {
        count: 1,
        ranks: vec![in alloc; 0; rows.len()]?,
    })
}

/// Each parent has every coordinate below the size.
fn dense_level(
    alloc: Global,
    rows: &[Row],
    place: usize,
    size: u64,
    at: &Positions,
) -> Result<(Level, Positions), BuildFault>
    requires all { length at.now.ranks.items ≡ length rows.now }
    requires place { place < 8 }
    requires size { size < 2 ^ 31 }
    requires inside { Each (λ x. (x.0 < at.now.count) × (x.1 < size)) (row_pairs at.now.ranks.items place rows.now) }
    ensures children { IfOk result (λ made. level_children made.0 ≡ dense_children size at.now.count) }
    ensures counted { IfOk result (λ made. level_count made.0 ≡ at.now.count * size) }
    ensures count { IfOk result (λ made. made.1.count ≡ at.now.count * size) }
    ensures ranks { IfOk result (λ made. made.1.ranks.items ≡ map (λ x. x.0 * size + x.1) (row_pairs at.now.ranks.items place rows.now)) }
    ensures many { IsErrOf result BuildFault.TooManyPositions → 2 ^ 24 < at.now.count * size }
{
    let count = at.count * size;
    if count > POSITIONS_MOST {
        return Err(BuildFault::TooManyPositions);
    }
    let mut ranks = Vec::with_capacity(alloc, rows.len())?;
    for (n, row) in rows.iter().enumerate() {
        ranks.push((u64::from(at.ranks[n]) * size + u64::from(row.coordinates[place])) as u32)?;
    }
    let level = Dense {
        size,
        parents: at.count,
    };
    Ok((Level::Dense(level), Positions { count, ranks }))
}

/// Each parent has the coordinates of its rows.
fn compressed_level(
    alloc: Global,
    rows: &[Row],
    place: usize,
    at: &Positions,
) -> Result<(Level, Positions), BuildFault>
    requires all { length at.now.ranks.items ≡ length rows.now }
    requires place { place < 8 }
    requires inside { Each (λ x. x.0 < at.now.count) (row_pairs at.now.ranks.items place rows.now) }
    requires sorted { Sorted NotAfter (row_pairs at.now.ranks.items place rows.now) }
    ensures children { IfOk result (λ made. level_children made.0 ≡ pair_children (with_pairs [] (row_pairs at.now.ranks.items place rows.now)) at.now.count) }
    ensures counted { IfOk result (λ made. level_count made.0 ≡ length (with_pairs [] (row_pairs at.now.ranks.items place rows.now))) }
    ensures count { IfOk result (λ made. made.1.count ≡ length (with_pairs [] (row_pairs at.now.ranks.items place rows.now))) }
    ensures ranks { IfOk result (λ made. Each (λ r. r < length (with_pairs [] (row_pairs at.now.ranks.items place rows.now))) made.1.ranks.items) }
    ensures placed { IfOk result (λ made. map (λ r. slice_index_or (with_pairs [] (row_pairs at.now.ranks.items place rows.now)) r (0, 0)) made.1.ranks.items ≡ row_pairs at.now.ranks.items place rows.now) }
    ensures many { IsErrOf result BuildFault.TooManyPositions → 2 ^ 24 < length (with_pairs [] (row_pairs at.now.ranks.items place rows.now)) }
{
    let (pairs, ranks) = distinct_pairs(alloc, rows, place, &at.ranks)?;
    let count = pairs.len() as u64;
    let level = Compressed {
        segments: segments_of(alloc, &pairs, at.count)?,
        coordinates: coordinates_of(alloc, &pairs)?,
    };
    Ok((Level::Compressed(level), Positions { count, ranks }))
}

/// The level at a place, and the stored prefixes that end there.
fn next_level(
    alloc: Global,
    rows: &[Row],
    t: &Tensor,
    place: usize,
    at: &Positions,
) -> Result<(Level, Positions), BuildFault>
    requires storable { IsStorable t.now }
    requires inside { place < length t.now.order }
    requires order { InOrder (of_rows t.now rows.now) }
    requires placed { Placed (of_rows t.now rows.now) place at.now.count at.now.ranks.items }
    ensures children { IfOk result (λ made. level_children made.0 ≡ children_of (of_rows t.now rows.now) (suc place)) }
    ensures counted { IfOk result (λ made. level_count made.0 ≡ length (stored_prefixes (of_rows t.now rows.now) (suc place))) }
    ensures placed { IfOk result (λ made. Placed (of_rows t.now rows.now) (suc place) made.1.count made.1.ranks.items) }
    ensures many { IsErrOf result BuildFault.TooManyPositions → 2 ^ 24 < length (stored_prefixes (of_rows t.now rows.now) (suc place)) }
{
    match t.formats.get(place) {
        Format::Dense => {
            let size = t.dims.get(t.order.get(place) as usize);
            dense_level(alloc, rows, place, size, at)
        }
        Format::Compressed => compressed_level(alloc, rows, place, at),
    }
}

/// All levels, and the full stored prefixes.
pub fn all_levels(
    alloc: Global,
    rows: &[Row],
    t: &Tensor,
) -> Result<(Vec<Level>, Positions), BuildFault>
    requires storable { IsStorable t.now }
    requires order { InOrder (of_rows t.now rows.now) }
    ensures children { IfOk result (λ made. map level_children made.0.items ≡ map (λ k. children_of (of_rows t.now rows.now) (suc k)) (below (length t.now.order))) }
    ensures counts { IfOk result (λ made. map level_count made.0.items ≡ map (λ k. length (stored_prefixes (of_rows t.now rows.now) (suc k))) (below (length t.now.order))) }
    ensures placed { IfOk result (λ made. Placed (of_rows t.now rows.now) (length t.now.order) made.1.count made.1.ranks.items) }
    ensures few { OnOk result ((k : ℕ) → k ≤ length t.now.order → length (stored_prefixes (of_rows t.now rows.now) k) ≤ 2 ^ 24) }
    ensures many { IsErrOf result BuildFault.TooManyPositions → (k : ℕ) × (k ≤ length t.now.order) × (2 ^ 24 < length (stored_prefixes (of_rows t.now rows.now) k)) }
{
    let mut levels = Vec::new(alloc);
    let mut at = root(alloc, rows)?;
    for place in 0..t.order.len() {
        let (level, next) = next_level(alloc, rows, t, place, &at)?;
        levels.push(level)?;
        at = next;
    }
    Ok((levels, at))
}

/// The sum of the values of all rows at each rank.
pub fn values_at(alloc: Global, rows: &[Row], at: &Positions) -> Result<Vec<u64>, AllocError>
    requires all { length at.now.ranks.items ≡ length rows.now }
    requires inside { Each (λ r. r < at.now.count) at.now.ranks.items }
    ensures { IfOk result (λ values. values.items ≡ map (sum_at (ranked_values at.now.ranks.items rows.now)) (below at.now.count)) }
{
    let mut values = vec![in alloc; 0u64; at.count as usize]?;
    for (n, row) in rows.iter().enumerate() {
        let rank = at.ranks[n] as usize;
        values[rank] = values[rank].wrapping_add(row.value);
    }
    Ok(values)
}
