//! The text of a result.

ghost use Rattle.std.specs.Prelude.{◌≡◌, ◌≤◌, ◌<◌, ◌+◌, ◌++◌, ◌^◌, ℕ, length, decimal, nat_le, true, IfOk, OnOk};
ghost use Rattle.std.specs.List.{list_all};
ghost use Rattle.sam_model.specs.Lists.{coordinate, items_at, within};
ghost use Rattle.sam_model.specs.ResultText.{signed_text, entry_text, by_modes, listing_text};
ghost use Rattle.sam_model.specs.Listing.{InRange, listing};

use crate::paths::Walk;
use itoa::Buffer;
use sam_base::{DIMENSION_MOST, Name};
use sam_model::{Tensor, Written};
use std::alloc::{AllocError, Global};

/// Appends a number.
pub fn append_number(text: &mut Name, number: u64) -> Result<(), AllocError>
    ensures { OnOk result (text.new ≡ text.old ++ decimal number) }
{
    let mut buffer = Buffer::new();
    text.append(buffer.format(number).as_bytes())
}

/// Appends a number modulo 2^64 as a signed number.
pub fn append_signed(text: &mut Name, value: u64) -> Result<(), AllocError>
    ensures { OnOk result (text.new ≡ text.old ++ signed_text value) }
{
    if value < 1 << 63 {
        append_number(text, value)
    } else {
        text.push(b'-')?;
        append_number(text, value.wrapping_neg())
    }
}

/// The coordinate of a mode on a path in storage order.
pub fn coordinate_of(order: &[u64], path: &[u64], mode: u64) -> u64
    requires { length path.now ≡ length order.now }
    ensures { result ≡ coordinate order.now path.now mode }
{
    for (level, stored) in order.iter().enumerate() {
        if mode == *stored {
            return path[level];
        }
    }
    0
}

/// Appends the line of a value: its coordinates by mode, from 1, and the value.
fn append_line(text: &mut Name, order: &[u64], path: &[u64], value: u64) -> Result<(), AllocError>
    requires levels { length path.now ≡ length order.now }
    requires room { (mode : ℕ) → coordinate order.now path.now mode + 1 < 2 ^ 64 }
    ensures { OnOk result (text.new ≡ text.old ++ entry_text (by_modes order.now path.now) value) }
{
    for mode in 0..order.len() {
        append_number(text, coordinate_of(order, path, mode as u64) + 1)?;
        text.push(b' ')?;
    }
    append_signed(text, value)?;
    text.push(b'\n')?;
    Ok(())
}

/// The text of a written result: a line for each stored value, in their order, with its coordinates by mode and from 1 and
/// the value as a signed number, joined by single spaces and ended by a newline. A result without dimensions has at most
/// one line, of the value alone.
pub fn result_text(alloc: Global, declared: &Tensor, w: &Written) -> Result<Name, AllocError>
    requires dims { list_all (λ size. nat_le size DIMENSION_MOST) declared.now.dims ≡ true }
    requires in_range { InRange (length declared.now.order) w.now }
    requires below { list_all (λ entry. within (items_at declared.now.dims declared.now.order) entry.0) (listing w.now) ≡ true }
    ensures { IfOk result (λ text. text ≡ listing_text declared.now.order (listing w.now)) }
{
    let levels = declared.order.len();
    let mut walk = Walk::start(alloc, levels)?;
    let mut text = Name::new(alloc);
    for (number, value) in w.vals.as_slice().iter().enumerate() {
        walk.reach(w, number);
        append_line(
            &mut text,
            declared.order.as_slice(),
            walk.path.as_slice(),
            *value,
        )?;
    }
    Ok(text)
}
