//! Words that are read, and words that are refused.

use crate::transcripts::replayed;
use std::test::Fail;

const WORDS: &str = r"--- p.sam
| tensor b 4 c 1 b.tns
| tensor c 4 c 1 c.tns
| result x 4 c 1
| compute x(i) = b(i) * c(i)
| loops i
--- b.tns
| 1 2
| 3 5
--- c.tns
| 3 7
| 4 1
$
! sam: usage: sam COMMAND SUBJECT [GRAPH] [--capacity N] [--of C=N,..] [--schedule FILE] [--fused]
= 2
$ step
same
$ walk p.sam
same
$ run p.sam --of 0=1
same
$ run p.sam --schedule s.txt
same
$ run p.sam --capacity 0
same
$ p.sam step
same
$ step p.sam p.sam
same
$ check p.sam --capacity 4
same
$ lower p.sam --of 0=1
same
$ streams p.sam --schedule s.txt
same
$ large 1 --capacity 1
same
$ step p.sam --capacity 0
same
$ step p.sam --capacity 1048577
same
$ step p.sam --capacity x
same
$ step p.sam --capacity
same
$ step p.sam --capacity 1 --capacity 1
same
$ step p.sam --of 7=1,7=2
same
$ step p.sam --of 7=1,07=2
same
$ step p.sam --of 7
same
$ step p.sam --of 7=0
same
$ step p.sam --of 7=1,
same
$ step p.sam --of 4294967296=1
same
$ step p.sam --of=
same
$ large 0
same
$ large 262145
same
$ large x
same
$ check p.sam --fused
same
$ large 3 --fused
same
$ step p.sam --fused --fused
same
$ step p.sam --fused=true
same
$ lower p.sam --fused --capacity 1
same
$ size p.sam --fused --of 0=1
same
$ step p.sam -c
same
$ step --help
same
# either form of a value, anywhere; what begins with a dash is a word behind two dashes
$ --capacity=1048576 step --of=0=2,1=2 p.sam
> 3 35
$ check -- -
! sam: missing -
= 5
$ check -- --capacity
! sam: missing --capacity
= 5
$ check -
! sam: missing -
= 5
# words may be any text
$ check naïve-π-🦀.sam
! sam: missing naïve-π-🦀.sam
= 5
$ prüfe p.sam
! sam: usage: sam COMMAND SUBJECT [GRAPH] [--capacity N] [--of C=N,..] [--schedule FILE] [--fused]
= 2
$ step p.sam --schedule=Zeitplan·ß
! sam: missing Zeitplan·ß
= 5
";

#[test]
fn words_are_read(rt: HostRuntime) -> Result<(), Fail> {
    let told = replayed(&rt, rt.alloc(), WORDS)?;
    assert!(rt; told.as_str() == WORDS, "{told}");
    Ok(())
}
