//! The values of paths, of which some are found.

ghost use Rattle.std.specs.Prelude.{◌≡◌, ◌<◌, ◌+◌, ◌*◌, ◌%◌, ◌^◌, length, IfOk};
ghost use mathlib.Core.List.{map};
ghost use Rattle.sam_model.specs.Listing.{InRange, listing};
ghost use Rattle.tns_io.specs.Closing.{value_among, merged};
ghost use Rattle.tns_io.specs.Rows.{rows_of};
ghost use Rattle.tns_io.specs.Walks.{StandsAt, listing_from};

use super::fronts::{Paths, same_path};
use crate::paths::Walk;
use sam_base::Nums;
use sam_model::Written;
use std::alloc::{AllocError, Global};

/// What is found and not passed yet.
#[derive(Drop)]
struct Found {
    walk: Walk,
    next: usize,
}

impl Found {
    /// Passes the next value.
    fn pass(&mut self, value: u64) -> u64
        requires { self.old.next + 1 < 2 ^ 64 }
        ensures value { result ≡ value % 2 ^ 64 }
        ensures next { self.new.next ≡ self.old.next + 1 }
        ensures walk { self.new.walk ≡ self.old.walk }
    {
        self.next += 1;
        value
    }

    /// The value of a path: that of the next found one, if it has this path, and else 0.
    fn value_of(&mut self, w: &Written, path: &[u64]) -> u64
        requires in_range { InRange (length path.now) w.now }
        requires stands { StandsAt (length path.now) w.now self.old.walk self.old.next }
        ensures value { result ≡ (value_among path.now (listing_from w.now self.old.next)).0 }
        ensures left { listing_from w.now self.new.next ≡ (value_among path.now (listing_from w.now self.old.next)).1 }
        ensures stands { StandsAt (length path.now) w.now self.new.walk self.new.next }
    {
        if self.next >= w.vals.len() {
            return 0;
        }
        self.walk.reach(w, self.next);
        if same_path(path, self.walk.path.as_slice()) {
            self.pass(w.vals.get(self.next))
        } else {
            0
        }
    }
}

/// The values of paths among which those that are found stand in their order.
pub fn values_of(
    alloc: Global,
    w: &Written,
    paths: &Paths,
    levels: usize,
) -> Result<Nums, AllocError>
    requires in_range { InRange levels w.now }
    requires whole { length paths.now.numbers.items ≡ paths.now.count * levels }
    ensures { IfOk result (λ values. values ≡ map (λ entry. entry.1) (merged (rows_of levels paths.now.count paths.now.numbers.items) (listing w.now))) }
{
    let mut found = Found {
        walk: Walk::start(alloc, levels)?,
        next: 0,
    };
    let mut values = Nums::new(alloc);
    for path in 0..paths.count {
        values.push(found.value_of(w, paths.path(levels, path)))?;
    }
    Ok(values)
}
