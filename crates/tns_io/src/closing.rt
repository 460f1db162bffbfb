//! The dense levels of a result: below each stored prefix of its compressed levels they list every coordinate.

ghost use Rattle.std.specs.Prelude.{◌≡◌, ◌≤◌, ◌<◌, ◌^◌, length, true, false, Err, IfOk};
ghost use Rattle.std.specs.List.{list_all};
ghost use Rattle.sam_model.specs.Accepted.{is_well_formed};
ghost use Rattle.sam_model.specs.Lists.{items_at, within};
ghost use Rattle.sam_model.specs.Listing.{InRange, listing};
ghost use Rattle.sam_model.specs.Pattern.{closed, ends_dense, is_too_large};
ghost use Rattle.sam_model.specs.Tensors.{compressed_until};
ghost use Rattle.tns_io.specs.Closing.{listed_fronts};
ghost use Rattle.tns_io.specs.Fronts.{PathsAscend};
ghost use Rattle.tns_io.specs.Rows.{joined};

mod coordinates;
mod found;
mod fronts;
mod spreading;

use crate::faults::CloseFault;
use coordinates::in_coordinates;
use found::values_of;
use fronts::{Paths, fronts_of};
use sam_model::{Format, Tensor, Written};
use spreading::{spread_count, spread_paths};
use std::alloc::{AllocError, Global};

/// The number, from 1, of the last compressed level, or 0.
fn last_compressed(declared: &Tensor) -> usize
    ensures { result ≡ compressed_until (length declared.now.formats) declared.now.formats }
{
    let mut level = declared.formats.len();
    while level > 0 {
        if let Format::Compressed = *declared.formats.get(level - 1) {
            return level;
        }
        level -= 1;
    }
    0
}

/// The fronts down to the last compressed level: without one, all is listed below the one front that is empty.
fn fronts_above(alloc: Global, w: &Written, last: usize) -> Result<Paths, AllocError>
    requires levels { last ≤ length w.now.segs }
    requires in_range { InRange (length w.now.segs) w.now }
    ensures paths { IfOk result (λ paths. paths.numbers.items ≡ joined (listed_fronts last (listing w.now))) }
    ensures count { IfOk result (λ paths. paths.count ≡ length (listed_fronts last (listing w.now))) }
{
    if last == 0 {
        return Ok(Paths {
            numbers: Vec::new(alloc),
            count: 1,
        });
    }
    fronts_of(alloc, w, last)
}

/// A result closed over its dense levels, from what is found of it: below each stored prefix of its compressed levels, dense levels list
/// every coordinate, with 0 where nothing is found. A result whose last level is compressed, or without dimensions, stays as it is.
/// `TooLarge` comes where more than 4,194,304 coordinates were to be listed; it is told before memory is taken for them.
pub fn close_result(alloc: Global, declared: &Tensor, w: Written) -> Result<Written, CloseFault>
    requires formed { is_well_formed declared.now ≡ true }
    requires in_range { InRange (length declared.now.order) w }
    requires below { list_all (λ entry. within (items_at declared.now.dims declared.now.order) entry.0) (listing w) ≡ true }
    requires ascending { PathsAscend (listing w) }
    ensures in_range { IfOk result (λ r. InRange (length declared.now.order) r) }
    ensures below { IfOk result (λ r. list_all (λ entry. within (items_at declared.now.dims declared.now.order) entry.0) (listing r) ≡ true) }
    ensures kept { ends_dense declared.now ≡ false → IfOk result (λ r. r ≡ w) }
    ensures listed { ends_dense declared.now ≡ true → IfOk result (λ r. listing r ≡ closed declared.now (listing w)) }
    ensures fits { IfOk result (λ r. is_too_large declared.now (closed declared.now (listing w)) ≡ false) }
    ensures too_large { result ≡ Err CloseFault.TooLarge → is_too_large declared.now (closed declared.now (listing w)) ≡ true }
{
    let levels = declared.order.len();
    let last = last_compressed(declared);
    if last == levels {
        return Ok(w);
    }
    let fronts = fronts_above(alloc, &w, last)?;
    match spread_count(declared, last, fronts.count) {
        Some(_) => {
            let paths = spread_paths(alloc, declared, last, fronts)?;
            let values = values_of(alloc, &w, &paths, levels)?;
            Ok(in_coordinates(alloc, paths.numbers.as_slice(), levels, values)?)
        }
        None => Err(CloseFault::TooLarge),
    }
}
