//! How much room runs need.

use crate::transcripts::replayed;
use std::test::Fail;

const SIZES: &str = r"# a product of two vectors needs no more than one token of room
--- p.sam
| tensor b 4 c 1 b.tns
| tensor c 4 c 1 c.tns
| result x 4 c 1
| compute x(i) = b(i) * c(i)
| loops i
--- b.tns
| 1 2
| 3 5
--- c.tns
| 3 7
| 4 1
$ size p.sam
> capacity 1
$ size p.sam --capacity 1
! sam: usage: sam COMMAND SUBJECT [GRAPH] [--capacity N] [--of C=N,..] [--schedule FILE] [--fused]
= 2
$ size q.sam
! sam: missing q.sam
= 5
# a sum of two matrices with long empty runs: with one token less just the blocks wait that wait in a run with one
--- p.sam
| tensor B 3x2 dc 1,2 B.tns
| tensor C 3x2 dc 1,2 C.tns
| result X 3x2 cc 1,2
| compute X(i,j) = B(i,j) + C(i,j)
| loops i j
--- B.tns
| 3 1 4
--- C.tns
| 1 2 7
$ size p.sam
> capacity 2
> block 1 full channel 1
> block 2 full channel 3
> block 3 empty channel 4
> block 4 full channel 7
> block 5 empty channel 6
> block 6 full channel 10
> block 7 empty channel 11
> block 8 empty channel 13
> block 9 full channel 16
> block 10 empty channel 15
> block 11 empty channel 34
> block 12 empty channel 36
> block 13 empty channel 35
> block 14 empty channel 22
> block 15 empty channel 23
> block 16 empty channel 24
> block 17 empty channel 29
> block 18 empty channel 21
> block 19 empty channel 28
> block 20 empty channel 31
> block 22 empty channel 8
> block 23 empty channel 17
# the tensors are read as for a run
--- C.tns
| 4 2 7
$ size p.sam
! sam: C.tns line 1: CoordinateRange
= 4
";

#[test]
fn runs_need_room(rt: HostRuntime) -> Result<(), Fail> {
    let told = replayed(&rt, rt.alloc(), SIZES)?;
    assert!(rt; told.as_str() == SIZES, "{told}");
    Ok(())
}
