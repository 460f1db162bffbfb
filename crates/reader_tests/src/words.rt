//! Cases by hand.

use sam_text::{NumFault, is_name, line_at, read_u64, word_at};
use std::test::Fail;

#[test]
fn places(rt: HostRuntime) -> Result<(), Fail> {
    let text = b"ab \n\n\t\rcd".as_slice();
    assert_eq!(rt; line_at(text, 0), (3, 4));
    assert_eq!(rt; line_at(text, 4), (4, 5));
    assert_eq!(rt; line_at(text, 5), (9, 9));
    assert_eq!(rt; line_at(text, 9), (9, 9));
    assert_eq!(rt; word_at(text, 0, 9), Some((0, 2)));
    assert_eq!(rt; word_at(text, 1, 9), Some((1, 2)));
    assert_eq!(rt; word_at(text, 2, 9), Some((7, 9)));
    assert_eq!(rt; word_at(text, 2, 8), Some((7, 8)));
    assert_eq!(rt; word_at(text, 2, 7), None);
    assert_eq!(rt; word_at(text, 9, 9), None);
    Ok(())
}

#[test]
fn numbers(rt: HostRuntime) -> Result<(), Fail> {
    let text = b"00018446744073709551615 18446744073709551616 12a".as_slice();
    assert_eq!(rt; read_u64(text, 0, 23), Ok(18_446_744_073_709_551_615));
    assert_eq!(rt; read_u64(text, 24, 44), Err(NumFault::NumberTooLarge(24)));
    assert_eq!(rt; read_u64(text, 24, 45), Err(NumFault::BadNumber(44)));
    assert_eq!(rt; read_u64(text, 45, 48), Err(NumFault::BadNumber(47)));
    assert_eq!(rt; read_u64(text, 45, 45), Err(NumFault::BadNumber(45)));
    Ok(())
}

#[test]
fn names(rt: HostRuntime) -> Result<(), Fail> {
    assert!(rt; is_name(b"_a9".as_slice()));
    assert!(rt; is_name(b"sums".as_slice()));
    assert!(rt; !is_name(b"sum".as_slice()));
    assert!(rt; !is_name(b"9a".as_slice()));
    assert!(rt; !is_name(b"a-b".as_slice()));
    assert!(rt; !is_name(b"".as_slice()));
    Ok(())
}
