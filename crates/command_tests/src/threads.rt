//! Runs with a thread for every block.

use crate::meeting::Meeting;
use crate::transcripts::{files_of, replayed};
use sam_base::Nums;
use sam_cmd::sam;
use sam_io::MemSink;
use std::alloc::{AllocError, Global};
use std::sync::Wait;
use std::test::Fail;
use std::thread::Threads;

const RUNS: &str = r"# the product of two vectors
--- p.sam
| tensor b 4 c 1 b.tns
| tensor c 4 c 1 c.tns
| result x 4 c 1
| compute x(i) = b(i) * c(i)
| loops i
--- b.tns
| 1 2
| 3 5
--- c.tns
| 3 7
| 4 1
$ run p.sam
> 3 35
$ run p.sam --capacity 1
> 3 35
# what is read is refused as for `step`
$ run q.sam
! sam: missing q.sam
= 5
fails file 5
$ run p.sam
! sam: read fault b.tns
= 6
fails output 2
$ run p.sam
> 3 35
>~
! sam: write fault
= 7
# the product of two matrices, by each reducer
--- p.sam
| tensor B 2x2 cc 1,2 B.tns
| tensor C 2x2 cc 2,1 C.tns
| result X 2x2 cc 1,2
| compute X(i,j) = B(i,k) * C(k,j)
| loops i j k
--- B.tns
| 1 1 2
| 1 2 3
| 2 2 4
--- C.tns
| 1 1 5
| 2 1 6
| 2 2 7
$ run p.sam
> 1 1 28
> 1 2 21
> 2 1 24
> 2 2 28
--- p.sam
| tensor B 2x2 cc 1,2 B.tns
| tensor C 2x2 cc 1,2 C.tns
| result X 2x2 cc 1,2
| compute X(i,j) = B(i,k) * C(k,j)
| loops i k j
$ run p.sam
same
--- p.sam
| tensor B 2x2 cc 2,1 B.tns
| tensor C 2x2 cc 1,2 C.tns
| result X 2x2 cc 1,2
| compute X(i,j) = B(i,k) * C(k,j)
| loops k i j
$ run p.sam
same
# three factors
--- p.sam
| tensor B 2x2x2 ccc 1,2,3 B.tns
| tensor C 2x2 dc 1,2 C.tns
| tensor D 2x2 dc 1,2 D.tns
| result X 2x2 cc 1,2
| compute X(i,j) = B(i,k,l) * C(k,j) * D(l,j)
| loops i k l j
--- B.tns
| 1 1 1 1.0
| 1 2 2 2.0
| 2 1 2 3.0
--- C.tns
| 1 1 1.0
| 1 2 2.0
| 2 1 3.0
| 2 2 4.0
--- D.tns
| 1 1 5.0
| 1 2 6.0
| 2 1 7.0
| 2 2 8.0
$ run p.sam
> 1 1 47
> 1 2 76
> 2 1 21
> 2 2 48
# too many blocks, before any tensor is read
--- p.sam
| tensor b 4 c 1 none.tns
| result x 4 c 1
| compute x(i) = b(i) * b(i) * b(i) * b(i) * b(i) * b(i) * b(i) * b(i) + b(i) * b(i) * b(i) * b(i) * b(i) * b(i) * b(i) * b(i) + b(i) * b(i) * b(i) * b(i) * b(i) * b(i) * b(i) * b(i) + b(i) * b(i) * b(i) * b(i) * b(i) * b(i) * b(i) * b(i) + b(i) * b(i) * b(i) * b(i) * b(i) * b(i) * b(i) * b(i) + b(i) * b(i) * b(i) * b(i) * b(i) * b(i) * b(i) * b(i) + b(i) * b(i) * b(i) * b(i) * b(i) * b(i) * b(i) * b(i) + b(i) * b(i) * b(i) * b(i) * b(i) * b(i) * b(i) * b(i) + b(i) * b(i) * b(i) * b(i) * b(i) * b(i) * b(i) * b(i) + b(i) * b(i) * b(i) * b(i) * b(i) * b(i) * b(i) * b(i) + b(i) * b(i) * b(i) * b(i) * b(i) * b(i) * b(i) * b(i) + b(i) * b(i) * b(i) * b(i) * b(i) * b(i) * b(i) * b(i) + b(i) * b(i) * b(i) * b(i) * b(i) * b(i) * b(i) * b(i) + b(i) * b(i) * b(i) * b(i) * b(i) * b(i) * b(i) * b(i) + b(i) * b(i) * b(i) * b(i) * b(i) * b(i) * b(i) * b(i) + b(i) * b(i) * b(i) * b(i) * b(i) * b(i) * b(i) * b(i)
| loops i
$ run p.sam
! sam: 530 blocks
= 3
";

#[test]
fn blocks_run_in_threads(rt: HostRuntime) -> Result<(), Fail> {
    let told = replayed(&rt, rt.alloc(), RUNS)?;
    assert!(rt; told.as_str() == RUNS, "{told}");
    Ok(())
}

/// The files of the product of two vectors.
pub(crate) const PRODUCT: &str = r"--- p.sam
| tensor b 4 c 1 b.tns
| tensor c 4 c 1 c.tns
| result x 4 c 1
| compute x(i) = b(i) * c(i)
| loops i
--- b.tns
| 1 2
| 3 5
--- c.tns
| 3 7
| 4 1
";

fn sink(alloc: Global) -> Result<MemSink, AllocError> {
    MemSink::new(alloc, 1000, 1000, Nums::new(alloc))
}

/// Runs the product of two vectors at a gate, and gives the status and what is written.
fn run_at<R: Threads + Wait + Sync>(
    rt: &R,
    alloc: Global,
    gate: &Meeting,
) -> Result<(u8, MemSink), Fail> {
    let mut words = Vec::new(alloc);
    for word in ["run", "p.sam"] {
        words.push(String::from_str(alloc, word)?)?;
    }
    let mut files = files_of(alloc, PRODUCT)?;
    let mut out = sink(alloc)?;
    let mut err = sink(alloc)?;
    let status = sam(rt, alloc, &words, &mut files, &mut out, &mut err, gate);
    Ok((status, out))
}

/// For each block the tokens that it takes, and their numbers added up.
const TAKEN: [(usize, u64, u64); 11] = [
    (0, 0, 0),
    (1, 2, 0),
    (2, 2, 0),
    (3, 16, 9),
    (4, 3, 1),
    (5, 3, 0),
    (6, 6, 12),
    (7, 6, 37),
    (8, 3, 2),
    (9, 3, 35),
    (10, 2, 0),
];

/// All works run beside each other, and take just the tokens of their wires.
#[test]
fn works_meet_at_the_gate(rt: HostRuntime) -> Result<(), Fail> {
    let gate = Meeting::new(rt.alloc(), 11)?;
    let (status, out) = run_at(&rt, rt.alloc(), &gate)?;
    assert_eq!(rt; status, 0);
    assert_eq!(rt; out.bytes(), b"3 35\n".as_slice());
    assert_eq!(rt; gate.gave_up(), 0);
    for (block, tokens, sum) in TAKEN {
        assert_eq!(rt; gate.tokens(block), Some(tokens), "block {block}");
        assert_eq!(rt; gate.sum(block), Some(sum), "block {block}");
    }
    Ok(())
}
