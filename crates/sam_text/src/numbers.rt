//! Decimals.

ghost use Rattle.std.specs.Prelude.{◌≡◌, ◌≤◌, ◌<◌, ◌^◌, length, slice_range, IsTrue, nat_lt, if◌then◌else◌, true, Some, None};
ghost use Rattle.std.specs.List.{prefix_len, list_all};
ghost use Rattle.sam_text.specs.Bytes.{is_digit};
ghost use Rattle.sam_text.specs.Numbers.{decimal, number_reading};

use crate::bytes::is_digit;
use thiserror::Error;

/// Why a text is no number of 64 bits.
#[derive(Clone, Copy, Debug, PartialEq, Eq, Error)]
pub enum NumFault {
    /// The byte at this place is no digit, or the text is empty and ends here.
    #[error("byte {0} is no digit")]
    BadNumber(usize),
    /// The decimal that begins at this place is above 2^64-1.
    #[error("the number at byte {0} is too large")]
    NumberTooLarge(usize),
}

/// How many digits stand at the beginning.
fn digit_count(bytes: &[u8]) -> usize
    ensures { result ≡ prefix_len is_digit bytes.now }
{
    bytes.iter().take_while(|byte| is_digit(**byte)).count()
}

/// The number that digits spell, or None where it is above 2^64-1.
fn number_of(digits: &[u8]) -> Option<u64>
    requires { list_all is_digit digits.now ≡ true }
    ensures { result ≡ (if nat_lt (decimal digits.now) (2 ^ 64) then Some (decimal digits.now) else None) }
{
    let mut number: u64 = 0;
    for byte in digits {
        let digit = u64::from(*byte - b'0');
        if number > (u64::MAX - digit) / 10 {
            return None;
        }
        number = number * 10 + digit;
    }
    Some(number)
}

/// The number that a part of a text spells, by one or more digits; leading zeros are allowed. `BadNumber` holds the
/// first place that isn't a digit, or `to` where the part is empty. `NumberTooLarge` holds `from`, and comes where all
/// bytes are digits and the number is above 2^64-1.
pub fn read_u64(text: &[u8], from: usize, to: usize) -> Result<u64, NumFault>
    requires ordered { from ≤ to }
    requires in_text { to ≤ length text.now }
    ensures { result ≡ number_reading from (slice_range text.now from to) }
{
    let digits = &text[from..to];
    let count = digit_count(digits);
    if digits.is_empty() || count < digits.len() {
        return Err(NumFault::BadNumber(from + count));
    }
    match number_of(digits) {
        Some(number) => Ok(number),
        None => Err(NumFault::NumberTooLarge(from)),
    }
}
