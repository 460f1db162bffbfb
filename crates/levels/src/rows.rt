//! The entries of a tensor in storage order.

ghost use Rattle.std.specs.Prelude.{◌≡◌, ◌<◌, ◌^◌, [], length, IfOk, IfSome, slice_index, slice_index_or};
ghost use Rattle.std.specs.Ordering.{nat_cmp};
ghost use Rattle.std.specs.Cmp.Lexicographic.{slice_cmp};
ghost use Rattle.std.specs.List.Sorted.{IsPermutation};
ghost use mathlib.Core.List.{map};
ghost use Rattle.sam_base.specs.Each.{Each};
ghost use Rattle.sam_model.specs.Tensors.{stored_as};
ghost use Rattle.levels.specs.Keys.{IsKey, AreInOrder, AreWeights, key_entry};
ghost use Rattle.levels.specs.Matches.{IsStorable, Matches};
ghost use Rattle.levels.specs.Placed.{InOrder};
ghost use Rattle.levels.specs.Rows.{outer, row_entry, of_rows};

use crate::keys::{Key, sorted_keys, weights_of};
use sam_base::VARIABLES_MOST;
use sam_model::{Entries, Tensor};
use std::alloc::{AllocError, Global};
use std::cmp::Ordering;

/// Over how many rows a row may go back to its place.
const NEAR: usize = 16;

/// An entry: its coordinates by level, with 0 for levels that the tensor lacks, and its value.
#[derive(Clone, Copy, Debug)]
pub struct Row {
    pub coordinates: [u32; VARIABLES_MOST],
    pub value: u64,
}

impl Row {
    /// The two outermost coordinates as one number.
    fn outer(&self) -> u64
        ensures number { result ≡ outer self.now.coordinates }
        ensures second { slice_index self.now.coordinates 1 < 2 ^ 32 }
    {
        u64::from(self.coordinates[0]) * (1 << 32) + u64::from(self.coordinates[1])
    }
}

/// Entry n of a tensor.
fn row_at(entries: &Entries, t: &Tensor, n: usize) -> Row
    requires storable { IsStorable t.now }
    requires matches { Matches t.now entries.now }
    requires there { n < length entries.now.values }
    ensures { row_entry (length t.now.order) result ≡ slice_index_or (stored_as t.now entries.now).entries n ([], 0) }
{
    let coords = entries.coords.as_slice();
    let from = n * entries.arity as usize;
    let mut coordinates = [0; VARIABLES_MOST];
    for (level, mode) in t.order.as_slice().iter().enumerate() {
        coordinates[level] = coords[from + *mode as usize] as u32;
    }
    Row {
        coordinates,
        value: entries.values.get(n),
    }
}

/// The order of rows is that of their coordinates. The two outermost are compared as one number.
fn row_order(x: &Row, y: &Row) -> Ordering
    ensures { result ≡ slice_cmp nat_cmp x.now.coordinates y.now.coordinates }
{
    let (left, right) = (x.outer(), y.outer());
    if left == right {
        x.coordinates.cmp(&y.coordinates)
    } else {
        left.cmp(&right)
    }
}

/// The last row goes back to its place among those before it, if that is near. The answer says whether it was.
fn settle(rows: &mut [Row]) -> bool
    ensures { IsPermutation rows.old rows.new }
{
    let mut place = rows.len().saturating_sub(1);
    let least = place.saturating_sub(NEAR);
    while place > least && row_order(&rows[place], &rows[place - 1]) == Ordering::Less {
        rows.swap(place - 1, place);
        place -= 1;
    }
    place > least || place == 0
}

/// The rows of all entries, ascending, where they come nearly in order: then each goes to its place at once, and the sort only finds
/// them sorted. Repeated entries stay in their order.
fn settled_rows(
    alloc: Global,
    entries: &Entries,
    t: &Tensor,
) -> Result<Option<Vec<Row>>, AllocError>
    requires storable { IsStorable t.now }
    requires matches { Matches t.now entries.now }
    ensures { IfOk result (λ found. IfSome found (λ rows. AreInOrder t.now entries.now (map (row_entry (length t.now.order)) rows.items))) }
{
    let mut rows = Vec::with_capacity(alloc, entries.values.len())?;
    for n in 0..entries.values.len() {
        rows.push(row_at(entries, t, n))?;
        if !settle(rows.as_mut_slice()) {
            return Ok(None);
        }
    }
    rows.sort_by(
        |x, y|
            ensures { result ≡ slice_cmp nat_cmp x.now.coordinates y.now.coordinates }
        { row_order(x, y) },
    )?;
    Ok(Some(rows))
}

/// The row of a key: its digits, one for each level.
fn keyed_row(t: &Tensor, key: Key, weights: &[u64; VARIABLES_MOST]) -> Row
    requires storable { IsStorable t.now }
    requires key { IsKey t.now key }
    requires weights { AreWeights t.now weights.now }
    ensures { row_entry (length t.now.order) result ≡ key_entry t.now key }
{
    let mut rest = key.number;
    let mut coordinates = [0; VARIABLES_MOST];
    for level in 0..t.order.len() {
        coordinates[level] = (rest / weights[level]) as u32;
        rest %= weights[level];
    }
    Row {
        coordinates,
        value: key.value,
    }
}

/// The rows of these keys.
fn keyed_rows(
    alloc: Global,
    t: &Tensor,
    keys: &[Key],
    weights: &[u64; VARIABLES_MOST],
) -> Result<Vec<Row>, AllocError>
    requires storable { IsStorable t.now }
    requires keys { Each (IsKey t.now) keys.now }
    requires weights { AreWeights t.now weights.now }
    ensures { IfOk result (λ rows. map (row_entry (length t.now.order)) rows.items ≡ map (key_entry t.now) keys.now) }
{
    let mut rows = Vec::with_capacity(alloc, keys.len())?;
    for key in keys {
        rows.push(keyed_row(t, *key, weights))?;
    }
    Ok(rows)
}

/// The rows of all entries, ascending by their coordinates. Repeated entries stay in their order.
fn compared_rows(alloc: Global, entries: &Entries, t: &Tensor) -> Result<Vec<Row>, AllocError>
    requires storable { IsStorable t.now }
    requires matches { Matches t.now entries.now }
    ensures { IfOk result (λ rows. AreInOrder t.now entries.now (map (row_entry (length t.now.order)) rows.items)) }
{
    let mut rows = Vec::with_capacity(alloc, entries.values.len())?;
    for n in 0..entries.values.len() {
        rows.push(row_at(entries, t, n))?;
    }
    rows.sort_by(
        |x, y|
            ensures { result ≡ slice_cmp nat_cmp x.now.coordinates y.now.coordinates }
        { row_order(x, y) },
    )?;
    Ok(rows)
}

/// The rows of all entries by keys, where these fit.
fn rows_by_keys(
    alloc: Global,
    entries: &Entries,
    t: &Tensor,
) -> Result<Option<Vec<Row>>, AllocError>
    requires storable { IsStorable t.now }
    requires matches { Matches t.now entries.now }
    ensures { IfOk result (λ found. IfSome found (λ rows. AreInOrder t.now entries.now (map (row_entry (length t.now.order)) rows.items))) }
{
    let Some(weights) = weights_of(t) else {
        return Ok(None);
    };
    let Some(keys) = sorted_keys(alloc, entries, t)? else {
        return Ok(None);
    };
    Ok(Some(keyed_rows(alloc, t, keys.as_slice(), &weights)?))
}

/// The rows of all entries, ascending, where they come in any order: they are sorted by keys where these fit, since a key is moved
/// and compared in less time than a row, and carries all that its row has.
fn shuffled_rows(alloc: Global, entries: &Entries, t: &Tensor) -> Result<Vec<Row>, AllocError>
    requires storable { IsStorable t.now }
    requires matches { Matches t.now entries.now }
    ensures { IfOk result (λ rows. AreInOrder t.now entries.now (map (row_entry (length t.now.order)) rows.items)) }
{
    match rows_by_keys(alloc, entries, t)? {
        Some(rows) => Ok(rows),
        None => compared_rows(alloc, entries, t),
    }
}

/// The entries by their coordinates, ascending.
pub fn sorted_rows(alloc: Global, entries: &Entries, t: &Tensor) -> Result<Vec<Row>, AllocError>
    requires storable { IsStorable t.now }
    requires matches { Matches t.now entries.now }
    ensures same { IfOk result (λ rows. IsPermutation (stored_as t.now entries.now).entries (of_rows t.now rows.items).entries) }
    ensures sorted { IfOk result (λ rows. InOrder (of_rows t.now rows.items)) }
{
    let rows = match settled_rows(alloc, entries, t)? {
        Some(rows) => rows,
        None => shuffled_rows(alloc, entries, t)?,
    };
    Ok(rows)
}
