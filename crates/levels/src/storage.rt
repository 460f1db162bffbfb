//! The storage of a tensor and its calls.

ghost use Rattle.std.specs.Prelude.{◌≡◌, ℕ, ◌*◌, ◌^◌, ◌<◌, ◌≤◌, true, length, Some, slice_get, slice_index, IfOk, OnOk, IsErrOf};
ghost use Rattle.std.specs.List.{list_all};
ghost use Rattle.sam_model.specs.Accepted.{is_well_formed};
ghost use Rattle.sam_model.specs.Lists.{within};
ghost use Rattle.sam_model.specs.Tensors.{entry_list, stored_as, stored_prefixes};
ghost use Rattle.sam_model.specs.Children.{ranked};
ghost use Rattle.levels.specs.Reads.{children_at, fiber_at};

use crate::build::{all_levels, values_at};
use crate::faults::BuildFault;
use crate::level::Level;
use crate::rows::sorted_rows;
use sam_model::{Entries, Tensor};
use std::alloc::Global;
use std::marker::Model;

/// A stored tensor. Its references are ranks: the rank of a stored prefix is the number of smaller stored prefixes of
/// its length, and the rank of the empty prefix is 0. Levels count from 1.
#[derive(Debug, Drop)]
pub struct Storage {
    levels: Vec<Level>,
    values: Vec<u64>,
}

impl Model for Storage {
    ghost use Rattle.std.specs.Prelude.{◌∷◌};
    ghost use mathlib.Core.List.{map};
    ghost use Rattle.sam_model.specs.Children.{Ranked};
    ghost use Rattle.levels.specs.Shown.{level_count, level_children};

    ghost Value = { Ranked };

    ghost view = { λ s. record { counts = 1 ∷ map level_count s.levels.items; children = map level_children s.levels.items; values = s.values.items } };
}

impl Storage {
    /// Stores a tensor. Values of repeated entries are summed modulo 2^64.
    ///
    /// `TooManyPositions` comes exactly where for some length more than 2^24 prefixes are stored.
    pub fn build(alloc: Global, entries: &Entries, t: &Tensor) -> Result<Storage, BuildFault>
        requires tensor { is_well_formed t.now ≡ true }
        requires arity { entries.now.arity ≡ length t.now.dims }
        requires whole { length entries.now.coords ≡ entries.now.arity * length entries.now.values }
        requires in_range { list_all (λ entry. within t.now.dims entry.0) (entry_list entries.now.arity entries.now.coords entries.now.values) ≡ true }
        ensures stored { IfOk result (λ s. s ≡ ranked (stored_as t.now entries.now)) }
        ensures few { OnOk result ((k : ℕ) → k ≤ length t.now.order → length (stored_prefixes (stored_as t.now entries.now) k) ≤ 2 ^ 24) }
        ensures many { IsErrOf result BuildFault.TooManyPositions → (k : ℕ) × (k ≤ length t.now.order) × (2 ^ 24 < length (stored_prefixes (stored_as t.now entries.now) k)) }
    {
        let sorted = sorted_rows(alloc, entries, t)?;
        let rows = sorted.as_slice();
        let (levels, at) = all_levels(alloc, rows, t)?;
        let values = values_at(alloc, rows, &at)?;
        Ok(Storage { levels, values })
    }

    /// The number of stored prefixes of this length; 1 for length 0.
    pub fn count(&self, level: u8) -> u64
        requires { level < length self.now.counts }
        ensures { result ≡ slice_index self.now.counts level }
    {
        if level == 0 {
            1
        } else {
            self.levels[level as usize - 1].count()
        }
    }

    /// The number of children of the stored prefix of length `level - 1` and rank r.
    pub fn fiber_len(&self, level: u8, r: u64) -> u64
        requires counted { 0 < level }
        requires parent { r < length (children_at self.now level) }
        ensures { result ≡ length (fiber_at self.now level r) }
    {
        self.levels[level as usize - 1].fiber_len(r)
    }

    /// The coordinate of the n-th child of that prefix, in ascending order, and the child's rank.
    pub fn child(&self, level: u8, r: u64, n: u64) -> (u64, u64)
        requires counted { 0 < level }
        requires parent { r < length (children_at self.now level) }
        requires child { n < length (fiber_at self.now level r) }
        ensures { slice_get (fiber_at self.now level r) n ≡ Some result }
    {
        self.levels[level as usize - 1].child(r, n)
    }

    /// The value at the full stored prefix of rank r.
    pub fn value(&self, r: u64) -> u64
        requires { r < length self.now.values }
        ensures { result ≡ slice_index self.now.values r }
    {
        self.values[r as usize]
    }
}
