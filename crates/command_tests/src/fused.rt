//! Graphs whose terms are united at the scanners, which the flag `--fused` chooses.

use crate::transcripts::replayed;
use std::test::Fail;

const FUSED: &str = r"# a difference of two vectors: 11 blocks, and one dropper in place of two
--- p.sam
| tensor b 4 c 1 b.tns
| tensor c 4 c 1 c.tns
| result x 4 c 1
| compute x(i) = b(i) - c(i)
| loops i
--- b.tns
| 1 2
| 3 5
--- c.tns
| 3 7
| 4 1
$ streams p.sam --fused
> 0: 0 D
> 1: 0 2 S0 D
> 2: 0 1 S0 D
> 3: 2 3 S0 D
> 4: 0 1 S0 D
> 5: 0 2 3 S0 D
> 6: 0 1 N S0 D
> 7: N 0 1 S0 D
> 8: 2 5 N S0 D
> 9: N 7 1 S0 D
> 10: 2 18446744073709551614 18446744073709551615 S0 D
> 11: 0 2 3 S0 D
> 12: 2 18446744073709551614 18446744073709551615 S0 D
> 13: 0 D
> 14: 0 D
$ step p.sam --fused
> 1 2
> 3 -2
> 4 -1
$ step p.sam
same
$ run p.sam --fused
same
$ run p.sam --fused --capacity 1
same
$ size p.sam --fused
> capacity 1
# what is sent when a schedule ends: the root's two tokens, and what the cast has passed on
--- s.txt
| 0
| 0
| 10
$ moment p.sam --fused --schedule s.txt
> 0: 0 D
> 1:
> 2:
> 3:
> 4:
> 5:
> 6:
> 7:
> 8:
> 9:
> 10:
> 11:
> 12:
> 13:
> 14:
# the channels and the blocks that the words name are those of the fused graph
$ step p.sam --fused --of 14=1
> 1 2
> 3 -2
> 4 -1
$ step p.sam --fused --of 15=1
! sam: no channel 15
= 3
--- s.txt
| 11
$ step p.sam --fused --schedule s.txt
! sam: schedule line 1
= 3
# a cancelled sum is stored
--- b.tns
| 1 5
--- c.tns
| 1 5
$ step p.sam --fused
> 1 0
# numbers are modulo 2^64
--- p.sam
| tensor b 4 c 1 b.tns
| tensor c 4 c 1 c.tns
| result x 4 c 1
| compute x(i) = b(i) + c(i)
| loops i
--- b.tns
| 1 9223372036854775807
--- c.tns
| 1 1
$ step p.sam --fused
> 1 -9223372036854775808
# literals
--- p.sam
| tensor b 4 c 1 b.tns
| tensor c 4 c 1 c.tns
| result x 4 c 1
| compute x(i) = -2 * b(i) + c(i) * 3
| loops i
--- b.tns
| 1 4
--- c.tns
| 2 5
$ step p.sam --fused
> 1 -8
> 2 15
# a term with a sum of its own; where no term has a product, nothing is stored
--- p.sam
| tensor b 3 c 1 b.tns
| tensor C 3x3 cc 1,2 C.tns
| tensor d 3 c 1 d.tns
| result x 3 c 1
| compute x(i) = b(i) - C(i,j) * d(j)
| loops i j
--- b.tns
| 2 1
| 3 4
--- C.tns
| 1 1 2
| 2 2 3
--- d.tns
| 2 5
$ step p.sam --fused
> 2 -14
> 3 4
$ run p.sam --fused
same
# a sum of two matrices with long empty runs, which stalls with one token of room where terms are joined
--- p.sam
| tensor B 3x2 dc 1,2 B.tns
| tensor C 3x2 dc 1,2 C.tns
| result X 3x2 cc 1,2
| compute X(i,j) = B(i,j) + C(i,j)
| loops i j
--- B.tns
| 3 1 4
--- C.tns
| 1 2 7
$ step p.sam --fused --capacity 1
> 1 2 7
> 3 1 4
$ size p.sam --fused
> capacity 1
$ step p.sam --fused --of 23=1
> 1 2 7
> 3 1 4
$ step p.sam --fused --of 24=1
! sam: no channel 24
= 3
# 16 blocks, of which the last is number 15
--- s.txt
| 15
| 16
$ step p.sam --fused --schedule s.txt
! sam: schedule line 2
= 3
# one term is lowered as without the flag
--- p.sam
| tensor b 4 c 1 b.tns
| tensor c 4 c 1 c.tns
| result x 4 c 1
| compute x(i) = b(i) * c(i)
| loops i
--- b.tns
| 1 2
| 3 5
--- c.tns
| 3 7
| 4 1
$ streams p.sam --fused
> 0: 0 D
> 1: 0 2 S0 D
> 2: 0 1 S0 D
> 3: 2 3 S0 D
> 4: 0 1 S0 D
> 5: 2 S0 D
> 6: 1 S0 D
> 7: 0 S0 D
> 8: 5 S0 D
> 9: 7 S0 D
> 10: 35 S0 D
> 11: 2 S0 D
> 12: 35 S0 D
> 13: 0 D
> 14: 0 D
# what is read is refused as without it
$ size q.sam --fused
! sam: missing q.sam
= 5
";

#[test]
fn terms_are_fused(rt: HostRuntime) -> Result<(), Fail> {
    let told = replayed(&rt, rt.alloc(), FUSED)?;
    assert!(rt; told.as_str() == FUSED, "{told}");
    Ok(())
}
