//! The entries of a tensor file.

ghost use Rattle.std.specs.Prelude.{◌≡◌, ◌≤◌, ◌*◌, length, IfOk, IfErr, true};
ghost use Rattle.std.specs.List.{list_all};
ghost use Rattle.sam_model.specs.Lists.{within};
ghost use Rattle.sam_model.specs.Tensors.{entry_list};
ghost use Rattle.tns_io.specs.Entries.{next_entry, tns_entries};
ghost use Rattle.tns_io.specs.Answers.{Reads, IfTnsRefused, entries_then};

use crate::faults::{LineFault, TnsFault};
use crate::fields::read_entry;
use crate::plain::plain_line;
use sam_base::{ENTRIES_MOST, FILE_MOST, Nums, TnsKind, VARIABLES_MOST};
use sam_model::Entries;
use sam_text::{is_skipped, line_at};
use std::alloc::Global;

/// Reads the line of an entry, and appends the entry.
fn read_line(
    coords: &mut Vec<u64>,
    values: &mut Vec<u64>,
    sizes: &Nums,
    line: &[u8],
) -> Result<(), LineFault>
    requires { length sizes.now ≤ VARIABLES_MOST }
    ensures { Reads result (λ _. (coords.new.items, values.new.items))
        (entries_then coords.old.items values.old.items (next_entry sizes.now (length values.old.items) line.now)) }
{
    let value = read_entry(coords, sizes, line)?;
    if values.len() >= ENTRIES_MOST {
        return Err(LineFault::Refused(TnsKind::TooManyEntries));
    }
    values.push(value)?;
    Ok(())
}

/// The entries of a tensor file, for modes of these sizes. A line of blanks and a line that begins with `#` are skipped;
/// any other has a coordinate for each mode, from 1 to its size, and a value: an optional sign, a decimal from -2^63 to
/// 2^64-1, and optionally a point with zeros. The entries are in the order of the file, with coordinates from 0 and
/// values modulo 2^64. A file is refused at its first bad line, for the first reason that holds there: another number of
/// words, going from the left a word of another form or a coordinate out of range, a fraction that isn't 0, a value out of
/// range, one entry too many.
pub fn read_tns(alloc: Global, text: &[u8], dims: &Nums) -> Result<Entries, TnsFault>
    requires text { length text.now ≤ FILE_MOST }
    requires modes { length dims.now ≤ VARIABLES_MOST }
    ensures entries { IfOk result (λ e. tns_entries dims.now text.now ≡ Ok (entry_list e.arity e.coords e.values)) }
    ensures arity { IfOk result (λ e. e.arity ≡ length dims.now) }
    ensures whole { IfOk result (λ e. length e.coords ≡ e.arity * length e.values) }
    ensures in_range { IfOk result (λ e. list_all (λ entry. within dims.now entry.0) (entry_list e.arity e.coords e.values) ≡ true) }
    ensures refused { IfErr result (λ fault. IfTnsRefused fault (λ kind line. tns_entries dims.now text.now ≡ Err (kind, line))) }
{
    let mut coords = Vec::new(alloc);
    let mut values = Vec::new(alloc);
    let mut from = 0;
    let mut number = 1;
    while from < text.len() {
        match plain_line(&mut coords, &mut values, dims.as_slice(), text, from)? {
            Some(next) => from = next,
            None => {
                let (end, next) = line_at(text, from);
                let line = &text[from..end];
                if !is_skipped(line) {
                    if let Err(fault) = read_line(&mut coords, &mut values, dims, line) {
                        return Err(fault.at(number));
                    }
                }
                from = next;
            }
        }
        number += 1;
    }
    Ok(Entries {
        arity: dims.len() as u32,
        coords: Nums::from_vec(coords),
        values: Nums::from_vec(values),
    })
}
