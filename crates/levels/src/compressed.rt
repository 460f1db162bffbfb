//! A compressed level.

ghost use Rattle.std.specs.Prelude.{◌≡◌, ℕ, ◌+◌, ◌^◌, ◌<◌, ◌≤◌, [], length, Some, slice_get, slice_index, slice_index_or, IfOk};
ghost use mathlib.Core.List.{map};
ghost use Rattle.sam_model.specs.Lists.{below};
ghost use Rattle.levels.specs.Arrays.{fibers};
ghost use Rattle.sam_base.specs.Each.{Each};
ghost use Rattle.levels.specs.Sorted.{Sorted};
ghost use Rattle.levels.specs.Pairs.{NotAfter, before};

use crate::pairs::Pair;
use std::alloc::{AllocError, Global};

/// The children of parent r have the coordinates from place `segments[r]` up to `segments[r + 1]`, and these places
/// are their ranks.
#[derive(Debug, Drop)]
pub struct Compressed {
    pub segments: Vec<u32>,
    pub coordinates: Vec<u32>,
    ghost rising: { (r : ℕ) → r + 1 < length segments.items → slice_index segments.items r ≤ slice_index segments.items (r + 1) },
    ghost within: { (r : ℕ) → r < length segments.items → slice_index segments.items r ≤ length coordinates.items },
}

impl Compressed {
    pub fn count(&self) -> u64
        ensures { result ≡ length self.now.coordinates.items }
    {
        self.coordinates.len() as u64
    }

    pub fn fiber_len(&self, r: u64) -> u64
        requires { r < length (fibers self.now.segments.items self.now.coordinates.items) }
        ensures { result ≡ length (slice_index_or (fibers self.now.segments.items self.now.coordinates.items) r []) }
    {
        let r = r as usize;
        u64::from(self.segments[r + 1] - self.segments[r])
    }

    pub fn child(&self, r: u64, n: u64) -> (u64, u64)
        requires parent { r < length (fibers self.now.segments.items self.now.coordinates.items) }
        requires child { n < length (slice_index_or (fibers self.now.segments.items self.now.coordinates.items) r []) }
        ensures { slice_get (slice_index_or (fibers self.now.segments.items self.now.coordinates.items) r []) n ≡ Some result }
    {
        let place = u64::from(self.segments[r as usize]) + n;
        (u64::from(self.coordinates[place as usize]), place)
    }
}

/// For each parent, and once more at the end, how many pairs have a smaller parent.
pub fn segments_of(alloc: Global, pairs: &[Pair], parents: u64) -> Result<Vec<u32>, AllocError>
    requires few { length pairs.now ≤ 2 ^ 24 }
    requires small { parents ≤ 2 ^ 24 }
    requires inside { Each (λ x. x.0 < parents) pairs.now }
    requires sorted { Sorted (λ x y. x.0 ≤ y.0) pairs.now }
    ensures { IfOk result (λ segments. segments.items ≡ map (before pairs.now) (below (parents + 1))) }
{
    let mut segments = Vec::with_capacity(alloc, parents as usize + 1)?;
    for (place, pair) in pairs.iter().enumerate() {
        segments.resize(pair.0 as usize + 1, place as u32)?;
    }
    segments.resize(parents as usize + 1, pairs.len() as u32)?;
    Ok(segments)
}

/// The coordinates of the pairs.
pub fn coordinates_of(alloc: Global, pairs: &[Pair]) -> Result<Vec<u32>, AllocError>
    ensures { IfOk result (λ coordinates. coordinates.items ≡ map (λ x. x.1) pairs.now) }
{
    pairs.iter().map(|pair| pair.1).collect(alloc)
}
