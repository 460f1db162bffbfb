//! A result as a tensor of later statements.

ghost use Rattle.std.specs.Prelude.{◌≡◌, ◌++◌, length, true, IfOk, OnOk};
ghost use Rattle.sam_model.specs.Accepted.{is_well_formed};
ghost use Rattle.sam_model.specs.Chains.{entries_as};
ghost use Rattle.sam_model.specs.Listing.{InRange, listing};
ghost use Rattle.sam_model.specs.ResultText.{by_modes};

use sam_base::Nums;
use sam_model::{Entries, Tensor, Written};
use std::alloc::{AllocError, Global};
use tns_io::{Walk, coordinate_of};

/// Appends the coordinates of a path in storage order, by modes.
fn append_coordinates(coords: &mut Nums, order: &[u64], path: &[u64]) -> Result<(), AllocError>
    requires levels { length path.now ≡ length order.now }
    ensures { OnOk result (coords.new ≡ coords.old ++ by_modes order.now path.now) }
{
    for mode in 0..order.len() {
        coords.push(coordinate_of(order, path, mode as u64))?;
    }
    Ok(())
}

/// The entries of a result as of a tensor: one for each value, in order, with that value and the coordinates of its path by
/// modes. Values of 0 are entries too.
pub fn entries_of(alloc: Global, declared: &Tensor, w: &Written) -> Result<Entries, AllocError>
    requires formed { is_well_formed declared.now ≡ true }
    requires in_range { InRange (length declared.now.order) w.now }
    ensures { IfOk result (λ entries. entries ≡ entries_as declared.now (listing w.now)) }
{
    let levels = declared.order.len();
    let mut walk = Walk::start(alloc, levels)?;
    let mut coords = Nums::new(alloc);
    for number in 0..w.vals.len() {
        walk.reach(w, number);
        append_coordinates(&mut coords, declared.order.as_slice(), walk.path.as_slice())?;
    }
    Ok(Entries {
        arity: levels as u32,
        coords,
        values: Nums::from_vec(Vec::from_slice(alloc, w.vals.as_slice())?),
    })
}
