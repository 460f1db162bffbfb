//! Coordinates, each with the sum of its values.

ghost use Rattle.std.specs.Prelude.{◌≡◌, [], None, OnOk, OnErr, unwrap_or};
ghost use Rattle.std.specs.Ordering.{nat_cmp};
ghost use Rattle.std.specs.BTreeMap.{get, insert_entry, IsOrdered};
ghost use Rattle.block_core.specs.Arithmetic.{combined_leaf, Plus};
ghost use Rattle.block_core.specs.Gather.{add_at};

use block_core::plus;
use std::alloc::{AllocError, Global};
use std::collections::BTreeMap;
use std::collections::btree_map::IntoIter;
use std::marker::Model;

/// Adds a value to what a map has at a coordinate.
#[inline]
fn add_into(
    map: &mut BTreeMap<u64, Option<u64>>,
    coordinate: u64,
    value: Option<u64>,
) -> Result<(), AllocError>
    ensures ok { OnOk result (map.new.entries ≡ insert_entry nat_cmp map.old.entries coordinate (combined_leaf Plus value (unwrap_or (get nat_cmp map.old coordinate) None))) }
    ensures err { OnErr result (map.new.entries ≡ map.old.entries) }
    ensures was_ordered { IsOrdered nat_cmp map.old }
{
    let sum = map.entry(coordinate)?.or_insert(None);
    *sum = plus(value, *sum);
    Ok(())
}

/// The coordinates kept, each with the sum of the values added there, or none where all of them were absent. Contracts
/// see them as the list of these pairs, ascending.
#[derive(Drop)]
pub struct Sums {
    by_coordinate: BTreeMap<u64, Option<u64>>,
}

impl Model for Sums {
    ghost use Rattle.std.specs.Prelude.{ℕ, List};
    ghost use Rattle.stream_tokens.specs.Nest.{Leaf};

    ghost Value = { List (ℕ × Leaf) };

    ghost view = { λ sums. sums.by_coordinate.entries };
}

impl Sums {
    /// No coordinate; it takes no memory.
    pub fn new(alloc: Global) -> Sums
        ensures { result ≡ [] }
    {
        Sums {
            by_coordinate: BTreeMap::new(alloc),
        }
    }

    /// Adds a value at a coordinate, which is kept from then on; without memory nothing changes.
    #[inline]
    pub fn add(&mut self, coordinate: u64, value: Option<u64>) -> Result<(), AllocError>
        ensures ok { OnOk result (self.new ≡ add_at (combined_leaf Plus) coordinate value self.old) }
        ensures err { OnErr result (self.new ≡ self.old) }
    {
        add_into(&mut self.by_coordinate, coordinate, value)
    }

    /// The coordinates with their sums, one after another.
    pub fn into_pairs(self) -> IntoIter<u64, Option<u64>>
        ensures { result ≡ self }
    {
        self.by_coordinate.into_iter()
    }
}
