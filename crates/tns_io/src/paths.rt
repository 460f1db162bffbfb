//! The paths of a written result's values, one after another.

ghost use Rattle.std.specs.Prelude.{◌≡◌, ◌≤◌, ◌<◌, ◌+◌, ℕ, List, length, drop, slice_index, IfOk};
ghost use Rattle.sam_model.specs.Listing.{place_above, outer_place, path_of};
ghost use Rattle.tns_io.specs.Walks.{IsReached, NotPast};

use sam_model::Written;
use std::alloc::{AllocError, Global};

/// The fiber that a place is in, from one on that it isn't before.
fn fiber_of(ends: &[u64], from: usize, place: usize) -> usize
    requires from { from ≤ place_above ends.now place }
    requires there { place_above ends.now place + 1 < length ends.now }
    ensures { result ≡ place_above ends.now place }
{
    let mut fiber = from;
    while ends[fiber + 1] <= place as u64 {
        fiber += 1;
    }
    fiber
}

/// A walk over the values: the path of one of them, and for each level the fiber that the path goes through. Places only
/// grow from value to value, so each level is gone through once.
#[derive(Drop)]
pub struct Walk {
    pub fibers: Vec<usize>,
    pub path: Vec<u64>,
}

impl Walk {
    /// Before the first value of a result of so many levels.
    pub fn start(alloc: Global, levels: usize) -> Result<Walk, AllocError>
        ensures path { IfOk result (λ walk. length walk.path.items ≡ levels) }
        ensures fibers { IfOk result (λ walk. length walk.fibers.items ≡ levels) }
        ensures before { IfOk result (λ walk. (segs : List (List ℕ)) → NotPast walk.fibers.items segs 0) }
    {
        Ok(Walk {
            fibers: vec![in alloc; 0; levels]?,
            path: vec![in alloc; 0; levels]?,
        })
    }

    /// Goes on to the value of this number.
    pub fn reach(&mut self, w: &Written, number: usize)
        requires segs { length w.now.segs ≡ length self.old.path.items }
        requires crds { length w.now.crds ≡ length self.old.path.items }
        requires fibers { length self.old.fibers.items ≡ length self.old.path.items }
        requires there { (k : ℕ) → k < length w.now.segs → IsReached (drop k w.now.segs) (drop k w.now.crds) number }
        requires before { NotPast self.old.fibers.items w.now.segs number }
        ensures path { self.new.path.items ≡ path_of w.now.segs w.now.crds number }
        ensures levels { length self.new.path.items ≡ length self.old.path.items }
        ensures fibers { length self.new.fibers.items ≡ length self.old.fibers.items }
        ensures before { NotPast self.new.fibers.items w.now.segs number }
    {
        let mut level = self.path.len();
        let mut place = number;
        while level > 0 {
            level -= 1;
            self.path[level] = w.crds.get(level).get(place);
            place = fiber_of(w.segs.get(level).as_slice(), self.fibers[level], place);
            self.fibers[level] = place;
        }
    }
}
