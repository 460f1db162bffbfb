//! Results with dense levels: what they list, when they are too large, and that their formats change no graph.
//!
//! Most runs with threads have little room: each channel takes memory for all of its room when a run begins.

use crate::transcripts::replayed;
use std::test::Fail;

const LISTED: &str = r"# a vector lists every coordinate, with 0 where nothing is found
--- p.sam
| tensor B 3x3 dc 1,2 B.tns
| tensor c 3 c 1 c.tns
| result x 3 d 1
| compute x(i) = B(i,j) * c(j)
| loops i j
--- B.tns
| 1 1 2
| 1 3 4
| 3 2 5
--- c.tns
| 1 3
| 2 1
$ check p.sam
> accepted
$ step p.sam
> 1 6
> 2 0
> 3 5
$ run p.sam
same
# one entry in each pair of formats: the last level is dense in the first two
--- p.sam
| tensor B 2x2 cc 1,2 B.tns
| result X 2x2 cd 1,2
| compute X(i,j) = B(i,j)
| loops i j
--- B.tns
| 2 1 4
$ check p.sam
> accepted
$ step p.sam
> 2 1 4
> 2 2 0
$ run p.sam --capacity 100
same
--- p.sam
| tensor B 2x2 cc 1,2 B.tns
| result X 2x2 dd 1,2
| compute X(i,j) = B(i,j)
| loops i j
$ step p.sam
> 1 1 0
> 1 2 0
> 2 1 4
> 2 2 0
$ run p.sam --capacity 100
same
--- p.sam
| tensor B 2x2 cc 1,2 B.tns
| result X 2x2 dc 1,2
| compute X(i,j) = B(i,j)
| loops i j
$ check p.sam
> accepted
$ step p.sam
> 2 1 4
$ run p.sam --capacity 100
> 2 1 4
--- p.sam
| tensor B 2x2 cc 1,2 B.tns
| result X 2x2 cc 1,2
| compute X(i,j) = B(i,j)
| loops i j
$ check p.sam
> accepted
$ step p.sam
> 2 1 4
$ run p.sam --capacity 100
> 2 1 4
# a sum with two rows, a place between two that are found, and a sum that cancels
--- p.sam
| tensor B 3x4 cc 1,2 B.tns
| tensor C 3x4 cc 1,2 C.tns
| result X 3x4 cd 1,2
| compute X(i,j) = B(i,j) + C(i,j)
| loops i j
--- B.tns
| 2 1 4
| 2 4 -4
| 3 2 6
--- C.tns
| 2 4 4
| 3 3 1
$ step p.sam
> 2 1 4
> 2 2 0
> 2 3 0
> 2 4 0
> 3 1 0
> 3 2 6
> 3 3 1
> 3 4 0
$ run p.sam --fused --capacity 100
same
# the same where the outer level is dense and the last isn't: the sum that cancels stays
--- p.sam
| tensor B 3x4 cc 1,2 B.tns
| tensor C 3x4 cc 1,2 C.tns
| result X 3x4 dc 1,2
| compute X(i,j) = B(i,j) + C(i,j)
| loops i j
$ step p.sam --fused
> 2 1 4
> 2 4 0
> 3 2 6
> 3 3 1
$ run p.sam --capacity 100
same
# all that is found cancels
--- p.sam
| tensor b 4 c 1 b.tns
| tensor c 4 c 1 c.tns
| result x 4 d 1
| compute x(i) = b(i) - c(i)
| loops i
--- b.tns
| 3 5
--- c.tns
| 3 5
$ step p.sam
> 1 0
> 2 0
> 3 0
> 4 0
# empty operands: all coordinates, or none below a compressed level
--- B.tns
--- p.sam
| tensor B 2x3 cc 1,2 B.tns
| result X 2x3 dd 1,2
| compute X(i,j) = B(i,j)
| loops i j
$ step p.sam
> 1 1 0
> 1 2 0
> 1 3 0
> 2 1 0
> 2 2 0
> 2 3 0
$ run p.sam --capacity 100
same
--- p.sam
| tensor B 2x3 cc 1,2 B.tns
| result X 2x3 cd 1,2
| compute X(i,j) = B(i,j)
| loops i j
$ step p.sam
$ run p.sam --capacity 100
# by columns: the levels stand in storage order, and so do the lines
--- p.sam
| tensor B 2x3 cc 2,1 B.tns
| result X 2x3 cd 2,1
| compute X(i,j) = B(i,j)
| loops j i
--- B.tns
| 2 1 7
| 1 2 5
$ step p.sam
> 1 1 0
> 2 1 7
> 1 2 5
> 2 2 0
# three levels: what is found agrees up to the last compressed one
--- p.sam
| tensor B 2x2x2 ccc 1,2,3 B.tns
| result X 2x2x2 cdd 1,2,3
| compute X(i,j,k) = B(i,j,k)
| loops i j k
--- B.tns
| 2 1 2 -7
$ step p.sam
> 2 1 1 0
> 2 1 2 -7
> 2 2 1 0
> 2 2 2 0
--- p.sam
| tensor B 2x2x2 ccc 1,2,3 B.tns
| result X 2x2x2 dcd 1,2,3
| compute X(i,j,k) = B(i,j,k)
| loops i j k
$ step p.sam
> 2 1 1 0
> 2 1 2 -7
--- p.sam
| tensor B 2x2x2 ccc 1,2,3 B.tns
| result X 2x2x2 cdc 1,2,3
| compute X(i,j,k) = B(i,j,k)
| loops i j k
$ step p.sam
> 2 1 2 -7
";

#[test]
fn dense_levels_are_listed(rt: HostRuntime) -> Result<(), Fail> {
    let told = replayed(&rt, rt.alloc(), LISTED)?;
    assert!(rt; told.as_str() == LISTED, "{told}");
    Ok(())
}

const TOO_LARGE: &str = r"# 4,196,352 coordinates, and nothing found
--- p.sam
| tensor B 2049x2048 cc 1,2 B.tns
| result X 2049x2048 dd 1,2
| compute X(i,j) = B(i,j)
| loops i j
--- B.tns
$ check p.sam
> accepted
$ step p.sam
! sam: result too large
= 10
$ run p.sam --capacity 100
same
# it is told before anything is written
fails output 1
$ step p.sam
same
# what passes over the channels is no result
$ streams p.sam
> 0: 0 D
> 1: S0 D
> 2: S0 D
> 3: S1 D
> 4: S1 D
> 5: S1 D
> 6: S1 D
> 7: S1 D
> 8: S0 D
> 9: S1 D
$ size p.sam
> capacity 1
# the same below a compressed level, where nothing is listed
--- p.sam
| tensor B 2049x2048 cc 1,2 B.tns
| result X 2049x2048 cd 1,2
| compute X(i,j) = B(i,j)
| loops i j
$ step p.sam
$ run p.sam --capacity 100
# one coordinate more than may be listed
--- p.sam
| tensor b 4194305 c 1 B.tns
| result x 4194305 d 1
| compute x(i) = b(i)
| loops i
$ step p.sam
! sam: result too large
= 10
# 2^64 coordinates
--- p.sam
| tensor B 65536x65536x65536x65536 cccc 1,2,3,4 B.tns
| result X 65536x65536x65536x65536 dddd 1,2,3,4
| compute X(i,j,k,l) = B(i,j,k,l)
| loops i j k l
$ step p.sam
same
# 2049 rows that are found, each listed whole
--- p.sam
| tensor b 2049 d 1 B.tns
| tensor c 2048 c 1 c.tns
| result X 2049x2048 cd 1,2
| compute X(i,j) = b(i) * c(j)
| loops i j
--- c.tns
| 1 3
$ step p.sam
same
# a run that stalls is told first
--- p.sam
| tensor B 3x2147483647 dc 1,2 B.tns
| tensor C 3x2147483647 dc 1,2 C.tns
| result X 3x2147483647 cd 1,2
| compute X(i,j) = B(i,j) + C(i,j)
| loops i j
--- B.tns
| 3 1 4
--- C.tns
| 1 2 7
$ step p.sam --of 7=1
! sam: stalled: block 4 full channel 7
! sam: stalled: block 5 empty channel 6
! sam: stalled: block 11 empty channel 34
! sam: stalled: block 13 empty channel 35
! sam: stalled: block 14 empty channel 22
! sam: stalled: block 15 empty channel 23
! sam: stalled: block 16 empty channel 24
! sam: stalled: block 17 empty channel 29
! sam: stalled: block 18 empty channel 21
! sam: stalled: block 19 empty channel 28
! sam: stalled: block 20 empty channel 31
! sam: stalled: block 22 empty channel 8
= 8
$ step p.sam --of 7=2
! sam: result too large
= 10
$ run p.sam --fused --capacity 100
same
";

#[test]
fn results_may_be_too_large(rt: HostRuntime) -> Result<(), Fail> {
    let told = replayed(&rt, rt.alloc(), TOO_LARGE)?;
    assert!(rt; told.as_str() == TOO_LARGE, "{told}");
    Ok(())
}

/// What a result's formats don't change.
const ALIKE: &str = r#"--- s.txt
| 0
| 1
| 1
| 1
--- b.tns
| 1 2
| 3 5
--- p.sam
| tensor b 4 c 1 b.tns
| result x 4 c 1
| compute x(i) = b(i)
| loops i
--- q.sam
| tensor b 4 c 1 b.tns
| result x 4 d 1
| compute x(i) = b(i)
| loops i
$ lower p.sam
> {"blocks":[{"arg":[],"ins":[],"kind":"root","name":"","outs":[0]},
>+ {"arg":[1],"ins":[0],"kind":"scan","name":"b","outs":[1,2]},
>+ {"arg":[],"ins":[2],"kind":"array","name":"b","outs":[3]},
>+ {"arg":[],"ins":[1,3],"kind":"dropvalue","name":"","outs":[4,5]},
>+ {"arg":[1],"ins":[4],"kind":"writelevel","name":"x","outs":[]},
>+ {"arg":[],"ins":[5],"kind":"writevalue","name":"x","outs":[]}],"channels":[{"from":[0,0],"label":"root","to":[1,0]},
>+ {"from":[1,0],"label":"product 0 1 1 coordinate","to":[3,0]},
>+ {"from":[1,1],"label":"product 0 1 1 rank 0","to":[2,0]},
>+ {"from":[2,0],"label":"product 0 1 1 factor 0","to":[3,1]},
>+ {"from":[3,0],"label":"reduced 0 0 1 1 coordinate","to":[4,0]},
>+ {"from":[3,1],"label":"reduced 0 0 1 1 value","to":[5,0]}]}
$ lower q.sam
same
$ streams p.sam
> 0: 0 D
> 1: 0 2 S0 D
> 2: 0 1 S0 D
> 3: 2 5 S0 D
> 4: 0 2 S0 D
> 5: 2 5 S0 D
$ streams q.sam
same
$ moment p.sam --schedule s.txt
> 0: 0
> 1: 0
> 2: 0
> 3:
> 4:
> 5:
$ moment q.sam --schedule s.txt
same
$ size p.sam
> capacity 1
$ size q.sam
> capacity 1
# a matrix, compressed and dense
--- B.tns
| 2 1 4
--- p.sam
| tensor B 2x2 cc 1,2 B.tns
| result X 2x2 cc 1,2
| compute X(i,j) = B(i,j)
| loops i j
--- q.sam
| tensor B 2x2 cc 1,2 B.tns
| result X 2x2 dd 1,2
| compute X(i,j) = B(i,j)
| loops i j
$ streams p.sam
> 0: 0 D
> 1: 1 S0 D
> 2: 0 S0 D
> 3: 0 S1 D
> 4: 0 S1 D
> 5: 4 S1 D
> 6: 0 S1 D
> 7: 4 S1 D
> 8: 1 S0 D
> 9: 0 S1 D
$ streams q.sam
same
"#;

#[test]
fn formats_of_a_result_change_no_graph(rt: HostRuntime) -> Result<(), Fail> {
    let told = replayed(&rt, rt.alloc(), ALIKE)?;
    assert!(rt; told.as_str() == ALIKE, "{told}");
    Ok(())
}
