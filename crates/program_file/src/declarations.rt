//! The lines that declare tensors and the result.

ghost use Rattle.std.specs.Prelude.{◌≡◌, ◌==◌, false, true, length, nat_le, MatchOption, IfOk, Some, None, if◌then◌else◌};
ghost use Rattle.std.specs.List.{list_all, position_or_len};
ghost use mathlib.Core.List.{map};
ghost use Rattle.sam_text.specs.Numbers.{is_decimal};
ghost use Rattle.sam_text.specs.Words.{words};
ghost use Rattle.program_file.specs.Declarations.{parts, are_decimals, numbers, capped, is_format_letter, format_of, zero_based};
ghost use Rattle.program_file.specs.Declarations.{is_shape, tensor_with, scalar, is_printable, tensor_of, result_of, declared};
ghost use Rattle.sam_text.specs.Names.{is_name};
ghost use Rattle.program_file.specs.Refusals.{GivesProgram};

use crate::faults::ProgramFault;
use crate::names::Declared;
use sam_base::{Items, Name, Nums, ProgramKind, VARIABLES_MOST};
use sam_model::{Format, Tensor, are_dimensions, is_order};
use sam_text::{NumFault, first_word, is_name, read_u64};
use std::alloc::{AllocError, Global};

/// How many bytes stand before the first one of this value.
fn part_length(word: &[u8], byte: u8) -> usize
    ensures { result ≡ position_or_len (λ b. b == byte) word.now }
{
    word.iter().take_while(|b| **b != byte).count()
}

/// The number that a decimal spells, or the greatest number of 64 bits where it is above that.
fn capped_number(digits: &[u8]) -> Option<u64>
    ensures { MatchOption result (is_decimal digits.now ≡ false)
        (λ number. (is_decimal digits.now ≡ true) × (number ≡ capped digits.now)) }
{
    match read_u64(digits, 0, digits.len()) {
        Ok(number) => Some(number),
        Err(NumFault::NumberTooLarge(_)) => Some(u64::MAX),
        Err(NumFault::BadNumber(_)) => None,
    }
}

/// The decimals of a word that have a byte between them.
fn numbers_of(alloc: Global, word: &[u8], byte: u8) -> Result<Option<Nums>, AllocError>
    ensures { IfOk result (λ found. MatchOption found (are_decimals byte word.now ≡ false)
        (λ ns. (are_decimals byte word.now ≡ true) × (ns ≡ numbers byte word.now))) }
{
    let mut found = Nums::new(alloc);
    let mut rest = word;
    loop {
        let count = part_length(rest, byte);
        match capped_number(&rest[..count]) {
            Some(number) => found.push(number)?,
            None => return Ok(None),
        }
        if count == rest.len() {
            return Ok(Some(found));
        }
        rest = &rest[count..][1..];
    }
}

fn is_letter(byte: u8) -> bool
    ensures { result ≡ is_format_letter byte }
{
    byte == b'd' || byte == b'c'
}

fn are_letters(letters: &[u8]) -> bool
    ensures { result ≡ list_all is_format_letter letters.now }
{
    letters.iter().all(|byte| is_letter(*byte))
}

fn format_of(byte: u8) -> Format
    ensures { result ≡ format_of byte }
{
    if byte == b'd' {
        Format::Dense
    } else {
        Format::Compressed
    }
}

fn formats_of(alloc: Global, letters: &[u8]) -> Result<Items<Format>, AllocError>
    ensures { IfOk result (λ formats. formats ≡ map format_of letters.now) }
{
    let mut formats = Items::new(alloc);
    for byte in letters {
        formats.push(format_of(*byte))?;
    }
    Ok(formats)
}

fn are_positive(numbers: &[u64]) -> bool
    ensures { result ≡ list_all (nat_le 1) numbers.now }
{
    numbers.iter().all(|number| 1 <= *number)
}

/// Modes from 0, where they are written from 1.
fn modes_of(alloc: Global, numbers: &[u64]) -> Result<Nums, AllocError>
    ensures { IfOk result (λ order. order ≡ zero_based numbers.now) }
{
    let mut order = Nums::new(alloc);
    for number in numbers {
        order.push(number.saturating_sub(1))?;
    }
    Ok(order)
}

fn is_printable(word: &[u8]) -> bool
    ensures { result ≡ list_all is_printable word.now }
{
    word.iter().all(|byte| 33 <= *byte && *byte <= 126)
}

/// A tensor of this name, with the shape that three words tell, and without a file yet.
fn shaped(
    alloc: Global,
    name: &[u8],
    dims: &[u8],
    formats: &[u8],
    order: &[u8],
    file: &[u8],
) -> Result<Option<Tensor>, AllocError>
    ensures { IfOk result (λ found. found ≡ (if is_shape dims.now formats.now order.now
        then Some (tensor_with name.now dims.now formats.now order.now file.now) else None)) }
{
    let Some(dims) = numbers_of(alloc, dims, b'x')? else {
        return Ok(None);
    };
    let count = dims.len();
    if count > VARIABLES_MOST || !are_letters(formats) || formats.len() != count {
        return Ok(None);
    }
    let Some(numbers) = numbers_of(alloc, order, b',')? else {
        return Ok(None);
    };
    if !are_positive(numbers.as_slice()) {
        return Ok(None);
    }
    let order = modes_of(alloc, numbers.as_slice())?;
    if !is_order(count, order.as_slice()) {
        return Ok(None);
    }
    Ok(Some(Tensor {
        name: Name::from_slice(alloc, name)?,
        dims,
        formats: formats_of(alloc, formats)?,
        order,
        file: Name::from_slice(alloc, file)?,
    }))
}

/// The tensor that the words behind `tensor` declare: a name, dimensions, formats, a storage order and a file.
pub(crate) fn tensor_of(alloc: Global, line: &[u8]) -> Result<Option<Tensor>, AllocError>
    ensures { IfOk result (λ found. found ≡ tensor_of (words line.now)) }
{
    let Some((name, line)) = first_word(line) else {
        return Ok(None);
    };
    let Some((dims, line)) = first_word(line) else {
        return Ok(None);
    };
    let Some((formats, line)) = first_word(line) else {
        return Ok(None);
    };
    let Some((order, line)) = first_word(line) else {
        return Ok(None);
    };
    let Some((file, line)) = first_word(line) else {
        return Ok(None);
    };
    if first_word(line).is_some() || !is_name(name) || !is_printable(file) {
        return Ok(None);
    }
    shaped(alloc, name, dims, formats, order, file)
}

/// The result that the words behind `result` declare: a name, and dimensions, formats and a storage order where it has any.
pub(crate) fn result_of(alloc: Global, line: &[u8]) -> Result<Option<Tensor>, AllocError>
    ensures { IfOk result (λ found. found ≡ result_of (words line.now)) }
{
    let Some((name, line)) = first_word(line) else {
        return Ok(None);
    };
    let Some((dims, line)) = first_word(line) else {
        return scalar_of(alloc, name);
    };
    let Some((formats, line)) = first_word(line) else {
        return Ok(None);
    };
    let Some((order, line)) = first_word(line) else {
        return Ok(None);
    };
    if first_word(line).is_some() || !is_name(name) {
        return Ok(None);
    }
    shaped(alloc, name, dims, formats, order, &[])
}

/// A result without dimensions, if this is a name.
fn scalar_of(alloc: Global, name: &[u8]) -> Result<Option<Tensor>, AllocError>
    ensures { IfOk result (λ found. found ≡ (if is_name name.now then Some (scalar name.now) else None)) }
{
    if !is_name(name) {
        return Ok(None);
    }
    Ok(Some(Tensor {
        name: Name::from_slice(alloc, name)?,
        dims: Nums::new(alloc),
        formats: Items::new(alloc),
        order: Nums::new(alloc),
        file: Name::new(alloc),
    }))
}

/// A declaration, unless it is refused: for its form, for its dimensions, or for a name that is taken.
pub(crate) fn declared(
    alloc: Global,
    tensors: &Declared,
    line: u32,
    found: Option<Tensor>,
) -> Result<Tensor, ProgramFault>
    ensures { GivesProgram result (declared tensors.now line found) }
{
    let Some(tensor) = found else {
        return Err(ProgramFault::Refused {
            kind: ProgramKind::BadLine,
            line,
        });
    };
    if !are_dimensions(tensor.dims.as_slice()) {
        return Err(ProgramFault::Refused {
            kind: ProgramKind::DimensionRange,
            line,
        });
    }
    if tensors.has(tensor.name.as_bytes()) {
        let name = Name::from_slice(alloc, tensor.name.as_bytes())?;
        return Err(ProgramFault::Refused {
            kind: ProgramKind::DuplicateName(name),
            line,
        });
    }
    Ok(tensor)
}
