//! The lines of a tensor file, each by itself.

ghost use Rattle.std.specs.Prelude.{◌≡◌, ◌≤◌, ◌+◌, ℕ, List, [], ◌∷◌, length, IfOk, IfErr};
ghost use Rattle.sam_text.specs.Words.{words};
ghost use Rattle.tns_io.specs.Fields.{line_entry, fields_of, with_coordinate};
ghost use Rattle.tns_io.specs.Answers.{Reads, coordinates_then};

use crate::faults::LineFault;
use crate::values::{coordinate_of, keep, read_coordinate, read_value};
use sam_base::{Nums, TnsKind, VARIABLES_MOST};
use sam_text::{first_decimal, first_word};

fn word_count(line: &[u8]) -> usize
    ensures { result ≡ length (words line.now) }
{
    let mut rest = line;
    let mut count = 0;
    while let Some((_, behind)) = first_word(rest) {
        count += 1;
        rest = behind;
    }
    count
}

/// The coordinate that the first word stands for in a mode of this size, and what stands behind the word.
fn first_coordinate(line: &[u8], size: u64) -> Result<(u64, &[u8]), TnsKind>
    ensures found { IfOk result (λ found. (sizes : List ℕ) → fields_of (size ∷ sizes) (words line.now) ≡ with_coordinate (Ok found.0) (fields_of sizes (words found.1.now))) }
    ensures counted { IfOk result (λ found. length (words line.now) ≡ 1 + length (words found.1.now)) }
    ensures refused { IfErr result (λ kind. (sizes : List ℕ) → fields_of (size ∷ sizes) (words line.now) ≡ Err kind) }
{
    if let Some((number, behind)) = first_decimal(line) {
        return match coordinate_of(number, size) {
            Ok(coordinate) => Ok((coordinate, behind)),
            Err(kind) => Err(kind),
        };
    }
    match first_word(line) {
        None => Err(TnsKind::FieldCount),
        Some((word, behind)) => match read_coordinate(word, size) {
            Ok(coordinate) => Ok((coordinate, behind)),
            Err(kind) => Err(kind),
        },
    }
}

/// The value that the first word stands for, and what stands behind the word.
fn first_value(line: &[u8]) -> Result<(u64, &[u8]), TnsKind>
    ensures found { IfOk result (λ found. fields_of [] (words line.now) ≡ Ok ([], found.0)) }
    ensures counted { IfOk result (λ found. length (words line.now) ≡ 1 + length (words found.1.now)) }
    ensures refused { IfErr result (λ kind. fields_of [] (words line.now) ≡ Err kind) }
{
    if let Some((number, behind)) = first_decimal(line) {
        return match keep(false, number) {
            Ok(value) => Ok((value, behind)),
            Err(kind) => Err(kind),
        };
    }
    match first_word(line) {
        None => Err(TnsKind::FieldCount),
        Some((word, behind)) => match read_value(word) {
            Ok(value) => Ok((value, behind)),
            Err(kind) => Err(kind),
        },
    }
}

/// Reads words, the coordinates of an entry and then its value, and appends the coordinates. The value comes with what stands
/// behind it.
fn read_fields<'a>(
    coords: &mut Vec<u64>,
    sizes: &[u64],
    line: &'a [u8],
) -> Result<(u64, &'a [u8]), LineFault>
    ensures fields { Reads result (λ found. (coords.new.items, found.0)) (coordinates_then coords.old.items (fields_of sizes.now (words line.now))) }
    ensures counted { IfOk result (λ found. length (words line.now) ≡ length sizes.now + 1 + length (words found.1.now)) }
{
    let mut rest = line;
    for size in sizes {
        let (coordinate, behind) = first_coordinate(rest, *size)?;
        coords.push(coordinate)?;
        rest = behind;
    }
    Ok(first_value(rest)?)
}

/// Reads the line of an entry, and appends its coordinates. Its words are counted only where something is wrong with it: what is
/// wrong with their number comes first.
pub fn read_entry(coords: &mut Vec<u64>, sizes: &Nums, line: &[u8]) -> Result<u64, LineFault>
    requires { length sizes.now ≤ VARIABLES_MOST }
    ensures { Reads result (λ value. (coords.new.items, value)) (coordinates_then coords.old.items (line_entry sizes.now (words line.now))) }
{
    match read_fields(coords, sizes.as_slice(), line) {
        Ok((value, rest)) => match first_word(rest) {
            None => Ok(value),
            Some(_) => Err(LineFault::Refused(TnsKind::FieldCount)),
        },
        Err(LineFault::Refused(kind)) => {
            if word_count(line) == sizes.len() + 1 {
                Err(LineFault::Refused(kind))
            } else {
                Err(LineFault::Refused(TnsKind::FieldCount))
            }
        }
        Err(LineFault::OutOfMemory) => Err(LineFault::OutOfMemory),
    }
}
