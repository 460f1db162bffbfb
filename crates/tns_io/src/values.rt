//! The words of an entry: coordinates and values.

ghost use Rattle.std.specs.Prelude.{◌≡◌};
ghost use Rattle.std.specs.List.{list_all, position_or_len, after_first};
ghost use Rattle.sam_text.specs.Bytes.{is_digit};
ghost use Rattle.tns_io.specs.Values.{is_point, is_zero, is_minus, unsigned, signed_value, number_coordinate, word_coordinate, word_value};

use sam_base::TnsKind;
use sam_text::{NumFault, is_digit, read_u64};

/// The coordinate, from 0, that a number stands for in a mode of this size.
pub fn coordinate_of(number: u64, size: u64) -> Result<u64, TnsKind>
    ensures { result ≡ number_coordinate size number }
{
    if 1 <= number && number <= size {
        Ok(number - 1)
    } else {
        Err(TnsKind::CoordinateRange)
    }
}

/// The coordinate that a word stands for, from 0, in a mode of this size.
pub fn read_coordinate(word: &[u8], size: u64) -> Result<u64, TnsKind>
    ensures { result ≡ word_coordinate size word.now }
{
    match read_u64(word, 0, word.len()) {
        Ok(number) => coordinate_of(number, size),
        Err(NumFault::NumberTooLarge(_)) => Err(TnsKind::CoordinateRange),
        Err(NumFault::BadNumber(_)) => Err(TnsKind::BadField),
    }
}

fn begins_with_minus(word: &[u8]) -> bool
    ensures { result ≡ is_minus word.now }
{
    match word {
        [] => false,
        [first, ..] => *first == b'-',
    }
}

fn without_sign(word: &[u8]) -> &[u8]
    ensures { result.now ≡ unsigned word.now }
{
    match word {
        [] => word,
        [first, rest @ ..] => {
            if *first == b'-' || *first == b'+' {
                rest
            } else {
                word
            }
        }
    }
}

/// How many bytes stand before the point.
fn whole_length(number: &[u8]) -> usize
    ensures { result ≡ position_or_len is_point number.now }
{
    number.iter().take_while(|byte| **byte != b'.').count()
}

/// What stands behind the point.
#[tactic(auto, using(crate::proofs::ValueLemmas::point_within))]
fn fraction_behind(number: &[u8]) -> &[u8]
    ensures { result.now ≡ after_first is_point number.now }
{
    let whole = whole_length(number);
    if whole < number.len() {
        &number[whole + 1..]
    } else {
        &number[whole..]
    }
}

fn are_digits(bytes: &[u8]) -> bool
    ensures { result ≡ list_all is_digit bytes.now }
{
    bytes.iter().all(|byte| is_digit(*byte))
}

fn are_zeros(bytes: &[u8]) -> bool
    ensures { result ≡ list_all is_zero bytes.now }
{
    bytes.iter().all(|byte| *byte == b'0')
}

/// A number with its sign, modulo 2^64.
pub fn keep(minus: bool, number: u64) -> Result<u64, TnsKind>
    ensures { result ≡ signed_value minus number }
{
    if !minus {
        Ok(number)
    } else if number <= 1 << 63 {
        Ok(number.wrapping_neg())
    } else {
        Err(TnsKind::ValueRange)
    }
}

/// The value that a word stands for, modulo 2^64: an optional sign, a decimal, and optionally a point with zeros.
#[tactic(auto, using(crate::proofs::ValueLemmas::point_within))]
pub fn read_value(word: &[u8]) -> Result<u64, TnsKind>
    ensures { result ≡ word_value word.now }
{
    let number = without_sign(word);
    let fraction = fraction_behind(number);
    let whole = match read_u64(number, 0, whole_length(number)) {
        Ok(whole) => Some(whole),
        Err(NumFault::NumberTooLarge(_)) => None,
        Err(NumFault::BadNumber(_)) => return Err(TnsKind::BadField),
    };
    if !are_digits(fraction) {
        return Err(TnsKind::BadField);
    }
    if !are_zeros(fraction) {
        return Err(TnsKind::Fraction);
    }
    match whole {
        Some(whole) => keep(begins_with_minus(word), whole),
        None => Err(TnsKind::ValueRange),
    }
}
