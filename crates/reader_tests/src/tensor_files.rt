//! Tensor files by hand.

use crate::tables::{case_at, unfolded};
use sam_base::{Name, Nums};
use sam_model::Entries;
use std::alloc::{AllocError, Global};
use std::test::Fail;
use tns_io::{TnsFault, read_tns};

fn numbers(alloc: Global, numbers: &[u64]) -> Result<Nums, AllocError> {
    Ok(Nums::from_vec(Vec::from_slice(alloc, numbers)?))
}

fn read(alloc: Global, text: &[u8], dims: &Nums) -> Option<Result<Entries, TnsFault>> {
    if text.len() <= 200 && dims.len() <= 8 {
        Some(read_tns(alloc, text, dims))
    } else {
        None
    }
}

/// Vectors of 4 that are refused, with the line and the kind that are told.
const VECTORS_REFUSED: &[u8] = b"# c||1 2|1 1.5>4: Fraction
1 1.5>1: Fraction
5 1>1: CoordinateRange
0 1>1: CoordinateRange
1>1: FieldCount
1 2 3>1: FieldCount
x 1>1: BadField
1 x>1: BadField
1 .5>1: BadField
1 +>1: BadField
1 --1>1: BadField
1 1.0.0>1: BadField
1 1e0>1: BadField
+1 1>1: BadField
1 18446744073709551616>1: ValueRange
1 -9223372036854775809>1: ValueRange
1 18446744073709551616.5>1: Fraction
18446744073709551617 x>1: CoordinateRange
x>1: FieldCount
1 1\r| \t\r| # 7|1 1.5|x|>4: Fraction
1 1||9 1|1|>3: CoordinateRange
1|9 1|>1: FieldCount
";

/// Matrices of 2 by 3 that are refused.
const MATRICES_REFUSED: &[u8] = b"1 1 1|3 x 1>2: CoordinateRange
1 1 1|2 x 1.5>2: BadField
2 4 1.5>1: CoordinateRange
2 0 y>1: CoordinateRange
2 3>1: FieldCount
";

/// Vectors of 4 that are read, with their coordinates and values.
const VECTORS: &[u8] = b"# c||1 2|1 3.0|>at 0 0 values 2 3
# c||3 2|3 3.0>at 2 2 values 2 3
4 1>at 3 values 1
1 18446744073709551615>at 0 values 18446744073709551615
1 -9223372036854775808.00>at 0 values 9223372036854775808
1 -1|2 -0|003 +7.>at 0 1 2 values 18446744073709551615 0 7
";

/// Matrices of 2 by 3 that are read.
const MATRICES: &[u8] = b" 2\t3 5 \r|1 1 6\r|>at 1 2 0 0 values 5 6
>at values
";

fn append_numbers(alloc: Global, told: &mut Name, numbers: &[u64]) -> Result<(), AllocError> {
    for number in numbers {
        told.append(format!(in alloc; " {number}")?.as_bytes())?;
    }
    Ok(())
}

/// What is told of a file: its refusal, or its coordinates and values.
fn told_of(alloc: Global, text: &[u8], dims: &Nums) -> Result<Name, Fail> {
    let mut told = Name::new(alloc);
    match read(alloc, text, dims) {
        Some(Ok(entries)) => {
            told.append(b"at")?;
            append_numbers(alloc, &mut told, entries.coords.as_slice())?;
            told.append(b" values")?;
            append_numbers(alloc, &mut told, entries.values.as_slice())?;
        }
        Some(Err(TnsFault::Refused { kind, line })) => {
            told.append(format!(in alloc; "{line}: {kind:?}")?.as_bytes())?;
        }
        _ => told.append(b"no answer")?,
    }
    Ok(told)
}

/// Whether a file is told of as its table says.
fn is_right(alloc: Global, table: &[u8], dims: &Nums, number: usize) -> Result<bool, Fail> {
    match case_at(table, number) {
        Some((text, told)) => {
            let text = unfolded(alloc, text)?;
            Ok(told_of(alloc, text.as_bytes(), dims)?.as_bytes() == told)
        }
        None => Ok(false),
    }
}

/// The first case of a table that isn't as it says.
fn first_wrong(
    alloc: Global,
    table: &[u8],
    dims: &Nums,
    cases: usize,
) -> Result<Option<usize>, Fail> {
    for number in 0..cases {
        if !is_right(alloc, table, dims, number)? {
            return Ok(Some(number));
        }
    }
    Ok(None)
}

#[test]
fn vectors(rt: HostRuntime) -> Result<(), Fail> {
    let alloc = rt.alloc();
    let dims = numbers(alloc, &[4])?;
    assert_eq!(rt; first_wrong(alloc, VECTORS_REFUSED, &dims, 22)?, None);
    assert_eq!(rt; first_wrong(alloc, VECTORS, &dims, 6)?, None);
    Ok(())
}

#[test]
fn the_longest_dimension(rt: HostRuntime) -> Result<(), Fail> {
    let dims = numbers(rt.alloc(), &[2_147_483_647])?;
    let table = b"2147483647 0>at 2147483646 values 0";
    assert_eq!(rt; first_wrong(rt.alloc(), table, &dims, 1)?, None);
    Ok(())
}

#[test]
fn matrices(rt: HostRuntime) -> Result<(), Fail> {
    let alloc = rt.alloc();
    let dims = numbers(alloc, &[2, 3])?;
    assert_eq!(rt; first_wrong(alloc, MATRICES_REFUSED, &dims, 5)?, None);
    assert_eq!(rt; first_wrong(alloc, MATRICES, &dims, 2)?, None);
    Ok(())
}
