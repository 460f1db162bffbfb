//! What is answered where each read and each write fails in turn, where a program ends too early, and after a long schedule.

ghost use Rattle.std.specs.Prelude.{◌<◌};

use crate::threads::PRODUCT;
use crate::transcripts::{files_of, replayed};
use sam_base::Nums;
use sam_cmd::sam_serial;
use sam_io::MemSink;
use std::alloc::{AllocError, Global};
use std::test::Fail;

const READS: &str = r"--- p.sam
| tensor b 4 c 1 b.tns
| tensor c 4 c 1 c.tns
| result x 4 c 1
| compute x(i) = b(i) * c(i)
| loops i
--- b.tns
| 1 2
| 3 5
--- c.tns
| 3 7
| 4 1
fails file 1
$ step p.sam
! sam: read fault p.sam
= 6
fails file 2
$ step p.sam
same
fails file 3
$ step p.sam
same
fails file 4
$ step p.sam
! sam: read fault b.tns
= 6
fails file 5
$ step p.sam
same
fails file 6
$ step p.sam
same
fails file 7
$ step p.sam
! sam: read fault c.tns
= 6
fails file 8
$ step p.sam
same
fails file 9
$ step p.sam
same
fails file 10
$ step p.sam
> 3 35
";

/// Each of the three files takes three calls, and the run none after these.
#[test]
fn each_read_may_fail(rt: HostRuntime) -> Result<(), Fail> {
    let told = replayed(&rt, rt.alloc(), READS)?;
    assert!(rt; told.as_str() == READS, "{told}");
    Ok(())
}

/// A sink that takes so many bytes a call, of which this call fails.
fn sink(alloc: Global, piece: usize, fails: u64) -> Result<MemSink, AllocError>
    requires { 0 < piece }
{
    let mut calls = Nums::new(alloc);
    calls.push(fails)?;
    MemSink::new(alloc, 1000, piece, calls)
}

/// What `step` answers and writes on the product's files, where this call of the output fails.
fn written(alloc: Global, fails: u64) -> Result<(u8, MemSink), Fail> {
    let mut words = Vec::new(alloc);
    for word in ["step", "p.sam"] {
        words.push(String::from_str(alloc, word)?)?;
    }
    let mut files = files_of(alloc, PRODUCT)?;
    let mut out = sink(alloc, 1, fails)?;
    let mut err = sink(alloc, 1000, 0)?;
    let status = sam_serial(alloc, &words, &mut files, &mut out, &mut err);
    Ok((status, out))
}

/// Five bytes take five calls. What was written before the call that fails is written.
#[test]
fn each_write_may_fail(rt: HostRuntime) -> Result<(), Fail> {
    let whole = b"3 35\n";
    for before in 0..6usize {
        let (status, out) = written(rt.alloc(), before as u64 + 1)?;
        assert_eq!(rt;
            status,
            if before < 5 { 7 } else { 0 },
            "after {before} bytes"
        );
        assert_eq!(rt; out.bytes(), &whole[..before], "after {before} bytes");
    }
    Ok(())
}

const CUT: &str = r"# 0 bytes
--- p.sam
$ check p.sam
! sam: program line 1: BadLine
= 3
# 57 bytes
--- p.sam
| tensor b 4 c 1 b.tns
| tensor c 4 c 1 c.tns
| result x 4 c 1
$ check p.sam
! sam: program line 4: BadLine
= 3
# 64 bytes
--- p.sam
| tensor b 4 c 1 b.tns
| tensor c 4 c 1 c.tns
| result x 4 c 1
| compute
|~
$ check p.sam
! sam: program line 4: ExpectedName 0
= 3
# 82 bytes
--- p.sam
| tensor b 4 c 1 b.tns
| tensor c 4 c 1 c.tns
| result x 4 c 1
| compute x(i) = b(i) * c(i
|~
$ check p.sam
! sam: program line 4: ExpectedComma 18
= 3
# 83 bytes
--- p.sam
| tensor b 4 c 1 b.tns
| tensor c 4 c 1 c.tns
| result x 4 c 1
| compute x(i) = b(i) * c(i)
|~
$ check p.sam
! sam: program line 5: BadLine
= 3
# 84 bytes
--- p.sam
| tensor b 4 c 1 b.tns
| tensor c 4 c 1 c.tns
| result x 4 c 1
| compute x(i) = b(i) * c(i)
$ check p.sam
same
# 88 bytes
--- p.sam
| tensor b 4 c 1 b.tns
| tensor c 4 c 1 c.tns
| result x 4 c 1
| compute x(i) = b(i) * c(i)
| loop
|~
$ check p.sam
same
# 89 bytes
--- p.sam
| tensor b 4 c 1 b.tns
| tensor c 4 c 1 c.tns
| result x 4 c 1
| compute x(i) = b(i) * c(i)
| loops
|~
$ check p.sam
! sam: program line 5: LoopsMismatch
= 3
# 90 bytes
--- p.sam
| tensor b 4 c 1 b.tns
| tensor c 4 c 1 c.tns
| result x 4 c 1
| compute x(i) = b(i) * c(i)
| loops 
|~
$ check p.sam
same
# 91 bytes
--- p.sam
| tensor b 4 c 1 b.tns
| tensor c 4 c 1 c.tns
| result x 4 c 1
| compute x(i) = b(i) * c(i)
| loops i
|~
$ check p.sam
> accepted
# 92 bytes
--- p.sam
| tensor b 4 c 1 b.tns
| tensor c 4 c 1 c.tns
| result x 4 c 1
| compute x(i) = b(i) * c(i)
| loops i
$ check p.sam
> accepted
";

#[test]
fn a_program_may_be_cut_short(rt: HostRuntime) -> Result<(), Fail> {
    let told = replayed(&rt, rt.alloc(), CUT)?;
    assert!(rt; told.as_str() == CUT, "{told}");
    Ok(())
}

const SUM: &str = r"# a sum of two matrices with long empty runs
--- p.sam
| tensor B 3x2 dc 1,2 B.tns
| tensor C 3x2 dc 1,2 C.tns
| result X 3x2 cc 1,2
| compute X(i,j) = B(i,j) + C(i,j)
| loops i j
--- B.tns
| 3 1 4
--- C.tns
| 1 2 7
--- s.txt
";

const STALLED: &str = r"$ step p.sam --of 7=1 --schedule s.txt
! sam: stalled: block 4 full channel 7
! sam: stalled: block 5 empty channel 6
! sam: stalled: block 11 empty channel 34
! sam: stalled: block 13 empty channel 35
! sam: stalled: block 14 empty channel 22
! sam: stalled: block 15 empty channel 23
! sam: stalled: block 16 empty channel 24
! sam: stalled: block 17 empty channel 29
! sam: stalled: block 18 empty channel 21
! sam: stalled: block 19 empty channel 28
! sam: stalled: block 20 empty channel 31
! sam: stalled: block 22 empty channel 8
= 8
";

/// The sum with a schedule of 100,000 turns of a block that mostly can't move.
fn idle(alloc: Global) -> Result<String, AllocError> {
    let mut text = String::from_str(alloc, SUM)?;
    for _ in 0..100_000u32 {
        text.push_str("| 11\n")?;
    }
    text.push_str(STALLED)?;
    Ok(text)
}

/// The list is that of the state reached, however often one block was tried before.
#[test]
fn a_schedule_may_be_idle(rt: HostRuntime) -> Result<(), Fail> {
    let idle = idle(rt.alloc())?;
    let told = replayed(&rt, rt.alloc(), idle.as_str())?;
    assert!(rt; told.as_str() == idle.as_str());
    Ok(())
}
