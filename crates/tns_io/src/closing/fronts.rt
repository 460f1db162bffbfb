//! The fronts of a result's paths: their first coordinates, each once.

ghost use Rattle.std.specs.Prelude.{◌≡◌, ◌≤◌, ◌<◌, ◌*◌, length, take, drop, IfOk};
ghost use Rattle.sam_model.specs.Listing.{InRange, listing};
ghost use Rattle.sam_model.specs.Lists.{same_list};
ghost use Rattle.tns_io.specs.Fronts.{fronts};
ghost use Rattle.tns_io.specs.Rows.{ends_in, joined};

use crate::paths::Walk;
use sam_model::Written;
use std::alloc::{AllocError, Global};

/// Paths of one length, one after another, and how many they are.
#[derive(Drop)]
pub struct Paths {
    pub numbers: Vec<u64>,
    pub count: usize,
}

impl Paths {
    /// The path of this number, where each has so many coordinates.
    pub fn path(&self, long: usize, number: usize) -> &[u64]
        requires whole { length self.now.numbers.items ≡ self.now.count * long }
        requires there { number < self.now.count }
        ensures path { result.now ≡ take long (drop (number * long) self.now.numbers.items) }
        ensures long { length result.now ≡ long }
    {
        &self.numbers[number * long..][..long]
    }
}

/// Whether two paths are the same.
pub fn same_path(path: &[u64], other: &[u64]) -> bool
    ensures { result ≡ same_list path.now other.now }
{
    path == other
}

/// Whether the last numbers are this path.
fn ends_with(numbers: &[u64], path: &[u64]) -> bool
    ensures { result ≡ ends_in path.now numbers.now }
{
    match numbers.len().checked_sub(path.len()) {
        Some(from) => same_path(&numbers[from..], path),
        None => false,
    }
}

/// The first coordinates of the paths of a result, so many of each, where equal ones stand side by side.
pub fn fronts_of(alloc: Global, w: &Written, long: usize) -> Result<Paths, AllocError>
    requires some { 1 ≤ long }
    requires levels { long ≤ length w.now.segs }
    requires in_range { InRange (length w.now.segs) w.now }
    ensures paths { IfOk result (λ paths. paths.numbers.items ≡ joined (fronts long (listing w.now))) }
    ensures count { IfOk result (λ paths. paths.count ≡ length (fronts long (listing w.now))) }
{
    let mut walk = Walk::start(alloc, w.segs.len())?;
    let mut numbers = Vec::new(alloc);
    let mut count = 0;
    for number in 0..w.vals.len() {
        walk.reach(w, number);
        let front = &walk.path[..long];
        if !ends_with(numbers.as_slice(), front) {
            numbers.extend_from_slice(front)?;
            count += 1;
        }
    }
    Ok(Paths { numbers, count })
}
