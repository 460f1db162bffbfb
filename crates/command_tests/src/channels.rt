//! What passes over the channels: whole streams, moments, and the generated workload.

use crate::transcripts::replayed;
use std::test::Fail;

const STREAMS: &str = r"# the product of two vectors
--- p.sam
| tensor b 4 c 1 b.tns
| tensor c 4 c 1 c.tns
| result x 4 c 1
| compute x(i) = b(i) * c(i)
| loops i
--- b.tns
| 1 2
| 3 5
--- c.tns
| 3 7
| 4 1
$ streams p.sam
> 0: 0 D
> 1: 0 2 S0 D
> 2: 0 1 S0 D
> 3: 2 3 S0 D
> 4: 0 1 S0 D
> 5: 2 S0 D
> 6: 1 S0 D
> 7: 0 S0 D
> 8: 5 S0 D
> 9: 7 S0 D
> 10: 35 S0 D
> 11: 2 S0 D
> 12: 35 S0 D
> 13: 0 D
> 14: 0 D
# nothing in common
--- b.tns
| 1 2
--- c.tns
| 3 7
$ streams p.sam
> 0: 0 D
> 1: 0 S0 D
> 2: 0 S0 D
> 3: 2 S0 D
> 4: 0 S0 D
> 5: S0 D
> 6: S0 D
> 7: S0 D
> 8: S0 D
> 9: S0 D
> 10: S0 D
> 11: S0 D
> 12: S0 D
> 13: 0 D
> 14: 0 D
# a matrix times a vector; channel 14 is the reducer's
--- p.sam
| tensor B 3x3 dc 1,2 B.tns
| tensor c 3 c 1 c.tns
| result x 3 c 1
| compute x(i) = B(i,j) * c(j)
| loops i j
--- B.tns
| 1 1 2
| 1 3 4
| 3 2 5
--- c.tns
| 1 3
| 2 1
$ streams p.sam
> 0: 0 D
> 1: 0 1 2 S0 D
> 2: 0 1 2 S0 D
> 3: 0 0 0 S0 D
> 4: 0 2 S0 S0 1 S1 D
> 5: 0 1 S0 S0 2 S1 D
> 6: 0 1 S0 0 1 S0 0 1 S1 D
> 7: 0 1 S0 0 1 S0 0 1 S1 D
> 8: 0 S0 S0 1 S1 D
> 9: 0 S0 S0 2 S1 D
> 10: 0 S0 S0 1 S1 D
> 11: 2 S0 S0 5 S1 D
> 12: 3 S0 S0 1 S1 D
> 13: 6 S0 S0 5 S1 D
> 14: 6 N 5 S0 D
> 15: 0 2 S0 D
> 16: 6 5 S0 D
> 17: 0 D
> 18: 0 D
> 19: 0 1 2 S0 D
> 20: 0 1 2 S0 D
> 21: 0 1 2 S0 D
$ streams q.sam
! sam: missing q.sam
= 5
--- B.tns
| 4 1 2
$ streams p.sam
! sam: B.tns line 1: CoordinateRange
= 4
";

#[test]
fn streams_are_written(rt: HostRuntime) -> Result<(), Fail> {
    let told = replayed(&rt, rt.alloc(), STREAMS)?;
    assert!(rt; told.as_str() == STREAMS, "{told}");
    Ok(())
}

const MOMENTS: &str = r"# before the first event
--- p.sam
| tensor b 4 c 1 b.tns
| tensor c 4 c 1 c.tns
| result x 4 c 1
| compute x(i) = b(i) * c(i)
| loops i
--- b.tns
| 1 2
| 3 5
--- c.tns
| 3 7
| 4 1
$ moment p.sam
> 0:
> 1:
> 2:
> 3:
> 4:
> 5:
> 6:
> 7:
> 8:
> 9:
> 10:
> 11:
> 12:
> 13:
> 14:
# the root ends, and the cast makes two moves; the intersecter and a scanner can't move
--- s.txt
| 0
| 0
| 3
| 10
| 10
| 1
$ moment p.sam --schedule s.txt
> 0: 0 D
> 1:
> 2:
> 3:
> 4:
> 5:
> 6:
> 7:
> 8:
> 9:
> 10:
> 11:
> 12:
> 13: 0
> 14:
# with room for one token the root makes its first move alone
$ moment p.sam --schedule s.txt --capacity 1
> 0: 0
> 1:
> 2:
> 3:
> 4:
> 5:
> 6:
> 7:
> 8:
> 9:
> 10:
> 11:
> 12:
> 13: 0
> 14:
$ moment p.sam --schedule s.txt --of 0=1
same
";

#[test]
fn moments_are_written(rt: HostRuntime) -> Result<(), Fail> {
    let told = replayed(&rt, rt.alloc(), MOMENTS)?;
    assert!(rt; told.as_str() == MOMENTS, "{told}");
    Ok(())
}

const LARGE: &str = r"$ large 1
> entries 1
> sum 100
> moves 144
$ large 2
> entries 2
> sum 124
> moves 248
";

#[test]
fn the_workload_is_run(rt: HostRuntime) -> Result<(), Fail> {
    let told = replayed(&rt, rt.alloc(), LARGE)?;
    assert!(rt; told.as_str() == LARGE, "{told}");
    Ok(())
}
