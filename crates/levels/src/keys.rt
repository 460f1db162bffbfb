//! Keys: the coordinates of an entry as one number, by which entries are sorted where all fit.

ghost use Rattle.std.specs.Prelude.{◌≡◌, ◌<◌, [], length, IfOk, IfSome, slice_index_or};
ghost use mathlib.Core.List.{map};
ghost use Rattle.std.specs.Ordering.{nat_cmp};
ghost use Rattle.sam_base.specs.Each.{Each};
ghost use Rattle.levels.specs.Matches.{IsStorable, Matches};
ghost use Rattle.sam_model.specs.Tensors.{stored_as};
ghost use Rattle.levels.specs.Keys.{IsKey, AreInOrder, AreWeights, key_entry};

use sam_base::VARIABLES_MOST;
use sam_model::{Entries, Tensor};
use std::alloc::{AllocError, Global};

/// The coordinates of an entry by level as one number, with a digit for each level to the base of its size; and its value.
#[derive(Clone, Copy, Debug)]
pub struct Key {
    pub number: u64,
    pub value: u64,
}

/// For each level, how many numbers the digits of the levels inside it spell, where that fits and is not 0.
pub fn weights_of(t: &Tensor) -> Option<[u64; VARIABLES_MOST]>
    requires storable { IsStorable t.now }
    ensures { IfSome result (λ weights. AreWeights t.now weights) }
{
    let mut weights = [1; VARIABLES_MOST];
    let mut all: u64 = 1;
    let mut level = t.order.len();
    while level > 0 {
        level -= 1;
        if all == 0 {
            return None;
        }
        weights[level] = all;
        all = all.checked_mul(t.dims.get(t.order.get(level) as usize))?;
    }
    Some(weights)
}

/// The key of entry n, where it fits.
fn key_at(entries: &Entries, t: &Tensor, n: usize) -> Option<Key>
    requires storable { IsStorable t.now }
    requires matches { Matches t.now entries.now }
    requires there { n < length entries.now.values }
    ensures key { IfSome result (λ key. IsKey t.now key) }
    ensures entry { IfSome result (λ key. key_entry t.now key ≡ slice_index_or (stored_as t.now entries.now).entries n ([], 0)) }
{
    let coords = entries.coords.as_slice();
    let from = n * entries.arity as usize;
    let mut number: u64 = 0;
    for stored in t.order.as_slice() {
        let mode = *stored as usize;
        number = number
            .checked_mul(t.dims.get(mode))?
            .checked_add(coords[from + mode])?;
    }
    Some(Key {
        number,
        value: entries.values.get(n),
    })
}

/// The keys of all entries, ascending, where they fit. Repeated entries come in any order.
pub fn sorted_keys(
    alloc: Global,
    entries: &Entries,
    t: &Tensor,
) -> Result<Option<Vec<Key>>, AllocError>
    requires storable { IsStorable t.now }
    requires matches { Matches t.now entries.now }
    ensures keys { IfOk result (λ found. IfSome found (λ keys. Each (IsKey t.now) keys.items)) }
    ensures order { IfOk result (λ found. IfSome found (λ keys. AreInOrder t.now entries.now (map (key_entry t.now) keys.items))) }
{
    let mut keys = Vec::with_capacity(alloc, entries.values.len())?;
    for n in 0..entries.values.len() {
        let Some(key) = key_at(entries, t, n) else {
            return Ok(None);
        };
        keys.push(key)?;
    }
    keys.sort_unstable_by(
        |x, y|
            ensures { result ≡ nat_cmp x.now.number y.now.number }
        { x.number.cmp(&y.number) },
    );
    Ok(Some(keys))
}
