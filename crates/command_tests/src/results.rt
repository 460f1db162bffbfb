//! The results that `step` writes.

use crate::transcripts::replayed;
use std::test::Fail;

const PRODUCTS: &str = r"--- p.sam
| tensor b 4 c 1 b.tns
| tensor c 4 c 1 c.tns
| result x 4 c 1
| compute x(i) = b(i) * c(i)
| loops i
--- b.tns
| 1 2
| 3 5
--- c.tns
| 3 7
| 4 1
$ step p.sam
> 3 35
# nothing in common
--- b.tns
| 1 2
--- c.tns
| 3 7
$ step p.sam
--- b.tns
| 4 1
--- c.tns
| 3 7
| 4 1
$ step p.sam
> 4 1
--- b.tns
| # c
|
| 3 2
| 3 3.0
$ step p.sam
> 3 35
--- b.tns
| 3 -5
$ step p.sam
> 3 -35
# one tensor twice
--- p.sam
| tensor b 4 c 1 b.tns
| result x 4 c 1
| compute x(i) = b(i) * b(i)
| loops i
--- b.tns
| 1 2
| 3 5
$ step p.sam
> 1 4
> 3 25
--- p.sam
| tensor b 4 c 1 b.tns
| result x 4x4 cc 1,2
| compute x(i,j) = b(i) * b(j)
| loops i j
$ step p.sam
> 1 1 4
> 1 3 10
> 3 1 10
> 3 3 25
# comments, blanks, other names, no newline at the end, and a tensor that the statement doesn't name
--- p.sam
| # p
|
|  tensor d 7 c 1 d.tns
| tensor u 04 c 01 b.tns
| tensor v 4 c 1 c.tns
| result w 4 c 1
| compute w(k)=v(k)*u(k)
| loops k
|~
--- d.tns
| 7 1
$ step p.sam
> 3 35
# a sign and literals
--- p.sam
| tensor b 4 c 1 b.tns
| tensor c 4 c 1 c.tns
| result x 4 c 1
| compute x(i) = -b(i) * c(i)
| loops i
$ step p.sam
> 3 -35
--- p.sam
| tensor b 4 c 1 b.tns
| tensor c 4 c 1 c.tns
| result x 4 c 1
| compute x(i) = 2 * b(i) * c(i) * 3
| loops i
$ step p.sam
> 3 210
# what a dense tensor stores is in the pattern, whatever its value
--- p.sam
| tensor b 4 d 1 b.tns
| tensor c 4 c 1 c.tns
| result x 4 c 1
| compute x(i) = b(i) * c(i)
| loops i
$ step p.sam
> 3 35
> 4 0
";

#[test]
fn products_are_written(rt: HostRuntime) -> Result<(), Fail> {
    let told = replayed(&rt, rt.alloc(), PRODUCTS)?;
    assert!(rt; told.as_str() == PRODUCTS, "{told}");
    Ok(())
}

const COPIES: &str = r"--- p.sam
| tensor b 4 c 1 b.tns
| result x 4 c 1
| compute x(i) = b(i)
| loops i
--- b.tns
| # c
|
| 1 2
| 1 3.0
$ step p.sam
> 1 5
--- b.tns
| 4 1
$ step p.sam
> 4 1
# no newline at the end
--- b.tns
| 1 2
|~
$ step p.sam
> 1 2
# values are modulo 2^64
--- b.tns
| 1 18446744073709551615
$ step p.sam
> 1 -1
# dense levels
--- p.sam
| tensor b 3 d 1 b.tns
| result x 3 c 1
| compute x(i) = b(i)
| loops i
--- b.tns
$ step p.sam
> 1 0
> 2 0
> 3 0
--- p.sam
| tensor B 2x2 cd 1,2 B.tns
| result X 2x2 cc 1,2
| compute X(i,j) = B(i,j)
| loops i j
--- B.tns
| 2 1 4
$ step p.sam
> 2 1 4
> 2 2 0
";

#[test]
fn copies_are_written(rt: HostRuntime) -> Result<(), Fail> {
    let told = replayed(&rt, rt.alloc(), COPIES)?;
    assert!(rt; told.as_str() == COPIES, "{told}");
    Ok(())
}

const SUMS: &str = r"# all variables are summed over
--- p.sam
| tensor b 4 c 1 b.tns
| tensor c 4 c 1 c.tns
| result x
| compute x = b(i) * c(i)
| loops i
--- b.tns
| 1 2
| 3 5
--- c.tns
| 3 7
| 4 1
$ step p.sam
> 35
# nothing is summed, so nothing is stored
--- b.tns
| 1 2
--- c.tns
| 3 7
$ step p.sam
--- p.sam
| tensor B 3x3 dc 1,2 B.tns
| tensor c 3 c 1 c.tns
| result x 3 c 1
| compute x(i) = B(i,j) * c(j)
| loops i j
--- B.tns
| 1 1 2
| 1 3 4
| 3 2 5
--- c.tns
| 1 3
| 2 1
$ step p.sam
> 1 6
> 3 5
# the sum is over the innermost loop, over the middle one, and over the outermost
--- p.sam
| tensor B 2x2 cc 1,2 B.tns
| tensor C 2x2 cc 2,1 C.tns
| result X 2x2 cc 1,2
| compute X(i,j) = B(i,k) * C(k,j)
| loops i j k
--- B.tns
| 1 1 2
| 1 2 3
| 2 2 4
--- C.tns
| 1 1 5
| 2 1 6
| 2 2 7
$ step p.sam
> 1 1 28
> 1 2 21
> 2 1 24
> 2 2 28
--- p.sam
| tensor B 2x2 cc 1,2 B.tns
| tensor C 2x2 cc 1,2 C.tns
| result X 2x2 cc 1,2
| compute X(i,j) = B(i,k) * C(k,j)
| loops i k j
$ step p.sam
same
--- p.sam
| tensor B 2x2 cc 2,1 B.tns
| tensor C 2x2 cc 1,2 C.tns
| result X 2x2 cc 1,2
| compute X(i,j) = B(i,k) * C(k,j)
| loops k i j
$ step p.sam
same
# three factors
--- p.sam
| tensor B 2x2x2 ccc 1,2,3 B.tns
| tensor C 2x2 dc 1,2 C.tns
| tensor D 2x2 dc 1,2 D.tns
| result X 2x2 cc 1,2
| compute X(i,j) = B(i,k,l) * C(k,j) * D(l,j)
| loops i k l j
--- B.tns
| 1 1 1 1.0
| 1 2 2 2.0
| 2 1 2 3.0
--- C.tns
| 1 1 1.0
| 1 2 2.0
| 2 1 3.0
| 2 2 4.0
--- D.tns
| 1 1 5.0
| 1 2 6.0
| 2 1 7.0
| 2 2 8.0
$ step p.sam
> 1 1 47
> 1 2 76
> 2 1 21
> 2 2 48
";

#[test]
fn sums_are_written(rt: HostRuntime) -> Result<(), Fail> {
    let told = replayed(&rt, rt.alloc(), SUMS)?;
    assert!(rt; told.as_str() == SUMS, "{told}");
    Ok(())
}

const TERMS: &str = r"# a sum that cancels is stored
--- p.sam
| tensor b 4 c 1 b.tns
| tensor c 4 c 1 c.tns
| result x 4 c 1
| compute x(i) = b(i) - c(i)
| loops i
--- b.tns
| 1 5
--- c.tns
| 1 5
$ step p.sam
> 1 0
# values are modulo 2^64
--- p.sam
| tensor b 4 c 1 b.tns
| tensor c 4 c 1 c.tns
| result x 4 c 1
| compute x(i) = b(i) + c(i)
| loops i
--- b.tns
| 1 9223372036854775807
--- c.tns
| 1 1
$ step p.sam
> 1 -9223372036854775808
--- p.sam
| tensor b 3 c 1 b.tns
| tensor C 3x3 cc 1,2 C.tns
| tensor d 3 c 1 d.tns
| result x 3 c 1
| compute x(i) = b(i) - C(i,j) * d(j)
| loops i j
--- b.tns
| 2 1
| 3 4
--- C.tns
| 1 1 2
| 2 2 3
--- d.tns
| 2 5
$ step p.sam
> 2 -14
> 3 4
--- p.sam
| tensor b 4 c 1 b.tns
| tensor c 4 c 1 c.tns
| result x 4 c 1
| compute x(i) = -2 * b(i) + c(i) * 3
| loops i
--- b.tns
| 1 4
--- c.tns
| 2 5
$ step p.sam
> 1 -8
> 2 15
# dense rows without entries on either side
--- p.sam
| tensor B 3x2 dc 1,2 B.tns
| tensor C 3x2 dc 1,2 C.tns
| result X 3x2 cc 1,2
| compute X(i,j) = B(i,j) + C(i,j)
| loops i j
--- B.tns
| 3 1 4
--- C.tns
| 1 2 7
$ step p.sam
> 1 2 7
> 3 1 4
# three terms, of which the last is taken away, and one file for all
--- p.sam
| tensor B 2x2 cc 1,2 B.tns
| result X 2x2 cc 1,2
| compute X(i,j) = B(i,j) + B(i,j) - B(i,j)
| loops i j
--- B.tns
| 1 2 3
| 2 1 4
$ step p.sam
> 1 2 3
> 2 1 4
# numbers
--- p.sam
| tensor b 4 c 1 b.tns
| tensor c 4 c 1 c.tns
| result x
| compute x = b(i) - c(j)
| loops i j
--- b.tns
| 1 2
| 3 5
--- c.tns
| 3 7
| 4 1
$ step p.sam
> -1
--- p.sam
| tensor b 4 c 1 b.tns
| result x
| compute x = b(i) + b(i) + b(i)
| loops i
--- b.tns
$ step p.sam
# sixteen terms of eight factors
--- p.sam
| tensor b 4 c 1 b.tns
| result x 4 c 1
| compute x(i) = b(i) * b(i) * b(i) * b(i) * b(i) * b(i) * b(i) * b(i) + b(i) * b(i) * b(i) * b(i) * b(i) * b(i) * b(i) * b(i) + b(i) * b(i) * b(i) * b(i) * b(i) * b(i) * b(i) * b(i) + b(i) * b(i) * b(i) * b(i) * b(i) * b(i) * b(i) * b(i) + b(i) * b(i) * b(i) * b(i) * b(i) * b(i) * b(i) * b(i) + b(i) * b(i) * b(i) * b(i) * b(i) * b(i) * b(i) * b(i) + b(i) * b(i) * b(i) * b(i) * b(i) * b(i) * b(i) * b(i) + b(i) * b(i) * b(i) * b(i) * b(i) * b(i) * b(i) * b(i) + b(i) * b(i) * b(i) * b(i) * b(i) * b(i) * b(i) * b(i) + b(i) * b(i) * b(i) * b(i) * b(i) * b(i) * b(i) * b(i) + b(i) * b(i) * b(i) * b(i) * b(i) * b(i) * b(i) * b(i) + b(i) * b(i) * b(i) * b(i) * b(i) * b(i) * b(i) * b(i) + b(i) * b(i) * b(i) * b(i) * b(i) * b(i) * b(i) * b(i) + b(i) * b(i) * b(i) * b(i) * b(i) * b(i) * b(i) * b(i) + b(i) * b(i) * b(i) * b(i) * b(i) * b(i) * b(i) * b(i) + b(i) * b(i) * b(i) * b(i) * b(i) * b(i) * b(i) * b(i)
| loops i
--- b.tns
| 2 1
$ step p.sam
> 2 16
";

#[test]
fn terms_are_joined(rt: HostRuntime) -> Result<(), Fail> {
    let told = replayed(&rt, rt.alloc(), TERMS)?;
    assert!(rt; told.as_str() == TERMS, "{told}");
    Ok(())
}

const WRITES: &str = r"# a write may fail
--- p.sam
| tensor b 4 c 1 b.tns
| tensor c 4 c 1 c.tns
| result x 4 c 1
| compute x(i) = b(i) * c(i)
| loops i
--- b.tns
| 1 2
| 3 5
--- c.tns
| 3 7
| 4 1
fails output 2
$ step p.sam
> 3 35
>~
! sam: write fault
= 7
fails output 3
$ check p.sam
> accepted
>~
! sam: write fault
= 7
";

#[test]
fn a_write_may_fail(rt: HostRuntime) -> Result<(), Fail> {
    let told = replayed(&rt, rt.alloc(), WRITES)?;
    assert!(rt; told.as_str() == WRITES, "{told}");
    Ok(())
}
