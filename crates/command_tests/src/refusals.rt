//! What is refused, and how it is told.

use crate::transcripts::replayed;
use std::test::Fail;

const PROGRAMS: &str = r"--- p.sam
| tensor b 4 c 1 b.tns
| tensor c 4 c 1 c.tns
| result x 4 c 1
| compute x(i) = b(i) * c(i)
| loops i
$ check p.sam
> accepted
--- p.sam
| tensor B 4x4 dc 2,1 B.tns
| result x
| compute x = -2 * B(i,j) + 3 * B(i,j)
| loops j i
$ check p.sam
> accepted
--- p.sam
| tensor B 2x2 cc 1,2 B.tns
| result y 2 c 1
| compute y(j) = B(i,j)
| loops j i
$ check p.sam
! sam: program line 4: Discordant B
= 3
--- p.sam
| tensor B 2x2x2x2 cccc 1,2,3,4 B.tns
| result X 2x2x2 ccc 1,2,3
| compute X(h,i,j) = B(k,h,i,j)
| loops k h i j
$ check p.sam
! sam: program line 4: ReducerTooDeep k
= 3
--- p.sam
| tensor b 4 c 1 b.tns
| tensor c 4 c 1 c.tns
| result x 4 c 1
| compute x(i) = b(i) *
| loops i
$ check p.sam
! sam: program line 4: ExpectedFactor 14
= 3
--- p.sam
| tensor b 4 c 1 b.tns
| tensor b 4 c 1 b.tns
| tensor c 4 c 1 c.tns
| result x 4 c 1
| compute x(i) = b(i) * c(i)
| loops i
$ check p.sam
! sam: program line 2: DuplicateName b
= 3
--- p.sam
| tensor b 3 d 1 b.tns
| result x 3 c 1
| compute x(i) = ((b(i))
| loops i
$ step p.sam
! sam: program line 3: ExpectedOperator 15
= 3
--- p.sam
| tensor b 4 c 1 b.tns
$ step p.sam
! sam: program line 2: BadLine
= 3
";

#[test]
fn programs_are_checked(rt: HostRuntime) -> Result<(), Fail> {
    let told = replayed(&rt, rt.alloc(), PROGRAMS)?;
    assert!(rt; told.as_str() == PROGRAMS, "{told}");
    Ok(())
}

const FILES: &str = r"--- p.sam
| tensor b 4 c 1 b.tns
| tensor c 4 c 1 c.tns
| result x 4 c 1
| compute x(i) = b(i) * c(i)
| loops i
--- b.tns
| 1 2
| 3 5
$ check q.sam
! sam: missing q.sam
= 5
$ step p.sam
! sam: missing c.tns
= 5
# a read fault names the file that was being read: each file takes three calls
--- c.tns
| 3 7
| 4 1
fails file 2
$ step p.sam
! sam: read fault p.sam
= 6
fails file 5
$ step p.sam
! sam: read fault b.tns
= 6
fails file 7
$ step p.sam
! sam: read fault c.tns
= 6
";

#[test]
fn files_may_be_faulty(rt: HostRuntime) -> Result<(), Fail> {
    let told = replayed(&rt, rt.alloc(), FILES)?;
    assert!(rt; told.as_str() == FILES, "{told}");
    Ok(())
}

const ORDER: &str = r"# the files are read in the order of their declarations
--- p.sam
| tensor b 4 c 1 b.tns
| tensor c 4 c 1 c.tns
| result x 4 c 1
| compute x(i) = b(i) * c(i)
| loops i
--- b.tns
| 1
$ step p.sam
! sam: b.tns line 1: FieldCount
= 4
--- p.sam
| tensor a 4 c 1 a.tns
| tensor b 4 c 1 b.tns
| result x 4 c 1
| compute x(i) = a(i) * b(i)
| loops i
$ step p.sam
! sam: missing a.tns
= 5
# a tensor that the statement doesn't name is read too
--- p.sam
| tensor b 4 c 1 b.tns
| tensor d 4 c 1 d.tns
| tensor c 4 c 1 c.tns
| result x 4 c 1
| compute x(i) = b(i) * c(i)
| loops i
--- b.tns
| 1 2
--- c.tns
| 1
$ step p.sam
! sam: missing d.tns
= 5
--- d.tns
| 1 2
| 1 x
$ step p.sam
! sam: d.tns line 2: BadField
= 4
--- d.tns
| 1 2
$ step p.sam
! sam: c.tns line 1: FieldCount
= 4
";

#[test]
fn files_are_read_in_order(rt: HostRuntime) -> Result<(), Fail> {
    let told = replayed(&rt, rt.alloc(), ORDER)?;
    assert!(rt; told.as_str() == ORDER, "{told}");
    Ok(())
}

const TENSORS: &str = r"--- p.sam
| tensor b 4 c 1 b.tns
| result x 4 c 1
| compute x(i) = b(i)
| loops i
--- b.tns
| # c
|
| 1 2
| 1 1.5
$ step p.sam
! sam: b.tns line 4: Fraction
= 4
--- b.tns
| 5 1
$ step p.sam
! sam: b.tns line 1: CoordinateRange
= 4
--- b.tns
| 0 1
$ step p.sam
same
--- b.tns
| 1
$ step p.sam
! sam: b.tns line 1: FieldCount
= 4
--- b.tns
| x 1
$ step p.sam
! sam: b.tns line 1: BadField
= 4
--- b.tns
| 1 18446744073709551616
$ step p.sam
! sam: b.tns line 1: ValueRange
= 4
--- p.sam
| tensor B 4097x4096 dd 1,2 B.tns
| result x 4097 c 1
| compute x(i) = B(i,j)
| loops i j
--- B.tns
$ step p.sam
! sam: B.tns line 0: TooManyPositions
= 4
";

#[test]
fn tensors_may_be_refused(rt: HostRuntime) -> Result<(), Fail> {
    let told = replayed(&rt, rt.alloc(), TENSORS)?;
    assert!(rt; told.as_str() == TENSORS, "{told}");
    Ok(())
}
