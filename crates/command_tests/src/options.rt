//! What the options say of a run: capacities, stalls and schedules.

use crate::transcripts::replayed;
use std::test::Fail;

const STALLS: &str = r"# a sum of two matrices with long empty runs: 24 blocks, 38 channels
--- p.sam
| tensor B 3x2 dc 1,2 B.tns
| tensor C 3x2 dc 1,2 C.tns
| result X 3x2 cc 1,2
| compute X(i,j) = B(i,j) + C(i,j)
| loops i j
--- B.tns
| 3 1 4
--- C.tns
| 1 2 7
$ step p.sam
> 1 2 7
> 3 1 4
# ample room, or just enough on the channel that needs it
$ step p.sam --capacity 1048576
same
$ step p.sam --of 7=2
same
# one token on each channel
$ step p.sam --capacity 1
! sam: stalled: block 1 full channel 1
! sam: stalled: block 2 full channel 3
! sam: stalled: block 3 empty channel 4
! sam: stalled: block 4 full channel 7
! sam: stalled: block 5 empty channel 6
! sam: stalled: block 6 full channel 10
! sam: stalled: block 7 empty channel 11
! sam: stalled: block 8 empty channel 13
! sam: stalled: block 9 full channel 16
! sam: stalled: block 10 empty channel 15
! sam: stalled: block 11 empty channel 34
! sam: stalled: block 12 empty channel 36
! sam: stalled: block 13 empty channel 35
! sam: stalled: block 14 empty channel 22
! sam: stalled: block 15 empty channel 23
! sam: stalled: block 16 empty channel 24
! sam: stalled: block 17 empty channel 29
! sam: stalled: block 18 empty channel 21
! sam: stalled: block 19 empty channel 28
! sam: stalled: block 20 empty channel 31
! sam: stalled: block 22 empty channel 8
! sam: stalled: block 23 empty channel 17
= 8
# one tight channel, all others without a limit
$ step p.sam --of 7=1
! sam: stalled: block 4 full channel 7
! sam: stalled: block 5 empty channel 6
! sam: stalled: block 11 empty channel 34
! sam: stalled: block 13 empty channel 35
! sam: stalled: block 14 empty channel 22
! sam: stalled: block 15 empty channel 23
! sam: stalled: block 16 empty channel 24
! sam: stalled: block 17 empty channel 29
! sam: stalled: block 18 empty channel 21
! sam: stalled: block 19 empty channel 28
! sam: stalled: block 20 empty channel 31
! sam: stalled: block 22 empty channel 8
= 8
# a channel's own capacity counts before that of all
$ step p.sam --capacity 1048576 --of 7=1
same
# the list is that of the state reached, whatever was played first
--- s.txt
| 0
| 0
$ step p.sam --of 7=1 --schedule s.txt
same
--- s.txt
| 23
| 22
| 21
| 20
| 19
| 18
| 17
| 16
| 15
| 14
| 13
| 12
| 11
| 10
| 9
| 8
| 7
| 6
| 5
| 4
| 3
| 2
| 1
| 0
$ step p.sam --of 7=1 --schedule s.txt
same
$ step p.sam --of 7=2 --schedule s.txt
> 1 2 7
> 3 1 4
";

#[test]
fn runs_may_stall(rt: HostRuntime) -> Result<(), Fail> {
    let told = replayed(&rt, rt.alloc(), STALLS)?;
    assert!(rt; told.as_str() == STALLS, "{told}");
    Ok(())
}

const SCHEDULES: &str =
    r"# a channel that isn't there: the first in the word, before any schedule is read
--- p.sam
| tensor b 4 c 1 b.tns
| tensor c 4 c 1 c.tns
| result x 4 c 1
| compute x(i) = b(i) * c(i)
| loops i
--- b.tns
| 1 2
| 3 5
--- c.tns
| 3 7
| 4 1
$ step p.sam --of 15=4
! sam: no channel 15
= 3
$ step p.sam --of 14=4,017=1,16=2 --schedule none.txt
! sam: no channel 17
= 3
$ moment p.sam --of 4294967295=1
! sam: no channel 4294967295
= 3
# blocks are 0 to 10
--- s.txt
| 10
| 11
$ step p.sam --schedule s.txt
! sam: schedule line 2
= 3
# comments and blanks are skipped, and leading zeros allowed
--- s.txt
| # c
|
|  010 
|  # 11
| 0
|~
$ step p.sam --schedule s.txt
> 3 35
# one number a line
--- s.txt
| 0
|
| 1 2
$ step p.sam --schedule s.txt
! sam: schedule line 3
= 3
--- s.txt
| -1
$ moment p.sam --schedule s.txt
! sam: schedule line 1
= 3
--- s.txt
| 18446744073709551616
$ moment p.sam --schedule s.txt
same
# an empty schedule
--- s.txt
$ step p.sam --schedule s.txt
> 3 35
# the schedule's file comes before the tensors' files
--- b.tns
| x
$ step p.sam --schedule t.txt
! sam: missing t.txt
= 5
$ step p.sam --schedule=
! sam: missing 
= 5
fails file 5
$ step p.sam --schedule s.txt
! sam: read fault s.txt
= 6
fails file 7
$ step p.sam --schedule s.txt
! sam: read fault b.tns
= 6
$ step p.sam --schedule s.txt
! sam: b.tns line 1: FieldCount
= 4
";

#[test]
fn schedules_are_played(rt: HostRuntime) -> Result<(), Fail> {
    let told = replayed(&rt, rt.alloc(), SCHEDULES)?;
    assert!(rt; told.as_str() == SCHEDULES, "{told}");
    Ok(())
}
