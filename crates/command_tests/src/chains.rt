//! Programs of several statements: what they compute, which commands take them, and how they are refused.

use crate::transcripts::replayed;
use std::test::Fail;

const COMPUTED: &str = r"# a sum, and its product with one of its operands
--- p.sam
| tensor b 4 c 1 b.tns
| tensor c 4 c 1 c.tns
| result y 4 c 1
| compute y(i) = b(i) + c(i)
| loops i
| result x 4 c 1
| compute x(i) = y(i) * b(i)
| loops i
--- b.tns
| 1 2
| 3 5
--- c.tns
| 3 7
| 4 1
$ check p.sam
> accepted
$ step p.sam
> 1 4
> 3 60
$ run p.sam
same
$ step p.sam --fused
same
$ run p.sam --fused --capacity 1
same
# entries that cancel are stored and read
--- p.sam
| tensor b 4 c 1 b.tns
| tensor c 4 c 1 c.tns
| result y 4 c 1
| compute y(i) = b(i) - b(i)
| loops i
| result x 4 c 1
| compute x(i) = y(i) * b(i)
| loops i
$ step p.sam
> 1 0
> 3 0
$ run p.sam --capacity 100
same
# a result that lists nothing
--- p.sam
| tensor b 4 c 1 b.tns
| tensor e 4 c 1 e.tns
| result y 4 c 1
| compute y(i) = b(i) * e(i)
| loops i
| result x 4 c 1
| compute x(i) = y(i) + b(i)
| loops i
--- e.tns
| 2 9
$ step p.sam
> 1 2
> 3 5
# eight statements: each adds up the two before it
--- p.sam
| tensor b 4 c 1 b.tns
| result y1 4 c 1
| compute y1(i) = b(i)
| loops i
| result y2 4 c 1
| compute y2(i) = b(i) + y1(i)
| loops i
| result y3 4 c 1
| compute y3(i) = y1(i) + y2(i)
| loops i
| result y4 4 c 1
| compute y4(i) = y2(i) + y3(i)
| loops i
| result y5 4 c 1
| compute y5(i) = y3(i) + y4(i)
| loops i
| result y6 4 c 1
| compute y6(i) = y4(i) + y5(i)
| loops i
| result y7 4 c 1
| compute y7(i) = y5(i) + y6(i)
| loops i
| result y8 4 c 1
| compute y8(i) = y6(i) + y7(i)
| loops i
$ step p.sam
> 1 68
> 3 170
$ run p.sam --fused --capacity 100
same
# the last statement reads no earlier result, and its text alone is written
--- p.sam
| tensor b 4 c 1 b.tns
| result y 4 c 1
| compute y(i) = 2 * b(i)
| loops i
| result s
| compute s = y(i)
| loops i
| result x 4 c 1
| compute x(i) = 3 * b(i)
| loops i
$ step p.sam
> 1 6
> 3 15
$ run p.sam --capacity 100
same
# a number at the end
--- p.sam
| tensor b 4 c 1 b.tns
| result y 4 c 1
| compute y(i) = b(i) * b(i)
| loops i
| result s
| compute s = y(i)
| loops i
$ step p.sam
> 29
$ run p.sam --capacity 100
> 29
";

#[test]
fn statements_read_earlier_results(rt: HostRuntime) -> Result<(), Fail> {
    let told = replayed(&rt, rt.alloc(), COMPUTED)?;
    assert!(rt; told.as_str() == COMPUTED, "{told}");
    Ok(())
}

const STORED: &str = r"# by columns, read by columns
--- p.sam
| tensor B 2x3 cc 2,1 B.tns
| tensor c 3 c 1 c.tns
| result Y 2x3 cc 2,1
| compute Y(i,j) = 2 * B(i,j)
| loops j i
| result x 2 c 1
| compute x(i) = Y(i,j) * c(j)
| loops j i
--- B.tns
| 1 2 5
| 2 1 7
| 2 3 1
--- c.tns
| 1 1
| 2 10
| 3 100
$ step p.sam
> 1 100
> 2 214
$ run p.sam --capacity 100
same
# its modes in another order on the left
--- p.sam
| tensor B 2x3 cc 2,1 B.tns
| result Y 2x3 dc 2,1
| compute Y(i,j) = 2 * B(i,j)
| loops j i
| result X 3x2 cc 1,2
| compute X(j,i) = Y(i,j)
| loops j i
$ step p.sam
> 1 2 14
> 2 1 10
> 3 2 2
# by columns it can't be read by rows
--- p.sam
| tensor B 2x3 cc 2,1 B.tns
| result Y 2x3 cc 2,1
| compute Y(i,j) = 2 * B(i,j)
| loops j i
| result X 2x3 cc 1,2
| compute X(i,j) = Y(i,j)
| loops i j
$ check p.sam
! sam: program line 7: Discordant Y
= 3
# a dense level stores every coordinate beneath what is found, so all of these are found behind it
--- p.sam
| tensor b 4 c 1 b.tns
| result y 4 d 1
| compute y(i) = b(i)
| loops i
| result x 4 c 1
| compute x(i) = y(i)
| loops i
--- b.tns
| 1 2
| 3 5
$ step p.sam
> 1 2
> 2 0
> 3 5
> 4 0
$ run p.sam --capacity 100
same
--- B.tns
| 2 1 4
--- p.sam
| tensor B 3x2 cc 1,2 B.tns
| result Y 3x2 cd 1,2
| compute Y(i,j) = B(i,j)
| loops i j
| result X 3x2 cc 1,2
| compute X(i,j) = Y(i,j)
| loops i j
$ step p.sam
> 2 1 4
> 2 2 0
--- p.sam
| tensor B 3x2 cc 1,2 B.tns
| result Y 3x2 dd 1,2
| compute Y(i,j) = B(i,j)
| loops i j
| result x 3 c 1
| compute x(i) = Y(i,j)
| loops i j
$ step p.sam
> 1 0
> 2 4
> 3 0
--- p.sam
| tensor B 3x2 cc 1,2 B.tns
| result Y 3x2 dc 1,2
| compute Y(i,j) = B(i,j)
| loops i j
| result x 3 c 1
| compute x(i) = Y(i,j)
| loops i j
$ step p.sam
> 2 4
$ run p.sam --fused --capacity 100
> 2 4
";

#[test]
fn results_are_stored_as_declared(rt: HostRuntime) -> Result<(), Fail> {
    let told = replayed(&rt, rt.alloc(), STORED)?;
    assert!(rt; told.as_str() == STORED, "{told}");
    Ok(())
}

const STALLS: &str = r"# the first statement is a sum with long empty runs, of 24 blocks
--- p.sam
| tensor B 5x2 dc 1,2 B.tns
| tensor C 5x2 dc 1,2 C.tns
| result Y 5x2 cc 1,2
| compute Y(i,j) = B(i,j) + C(i,j)
| loops i j
| result x 5 c 1
| compute x(i) = Y(i,j)
| loops i j
--- B.tns
| 5 1 4
--- C.tns
| 1 2 7
$ step p.sam
> 1 7
> 5 4
$ step p.sam --capacity 4
same
$ step p.sam --capacity 3
! sam: stalled: block 4 full channel 7
! sam: stalled: block 5 empty channel 6
! sam: stalled: block 9 full channel 16
! sam: stalled: block 10 empty channel 15
! sam: stalled: block 11 empty channel 34
! sam: stalled: block 12 empty channel 36
! sam: stalled: block 13 empty channel 35
! sam: stalled: block 14 empty channel 22
! sam: stalled: block 15 empty channel 23
! sam: stalled: block 16 empty channel 24
! sam: stalled: block 17 empty channel 29
! sam: stalled: block 18 empty channel 21
! sam: stalled: block 19 empty channel 28
! sam: stalled: block 20 empty channel 31
! sam: stalled: block 22 empty channel 8
! sam: stalled: block 23 empty channel 17
= 8
# united at the scanners it needs room for one token
$ step p.sam --fused --capacity 1
> 1 7
> 5 4
$ run p.sam --fused --capacity 1
same
# the second one is such a sum, over a result that is stored by dense rows
--- p.sam
| tensor B 5x2 cc 1,2 B.tns
| tensor C 5x2 dc 1,2 C.tns
| result Y 5x2 dc 1,2
| compute Y(i,j) = 2 * B(i,j)
| loops i j
| result X 5x2 cc 1,2
| compute X(i,j) = Y(i,j) + C(i,j)
| loops i j
$ step p.sam --capacity 4
> 1 2 7
> 5 1 8
$ step p.sam --capacity 3
! sam: stalled: block 4 full channel 7
! sam: stalled: block 5 empty channel 6
! sam: stalled: block 9 full channel 16
! sam: stalled: block 10 empty channel 15
! sam: stalled: block 11 empty channel 34
! sam: stalled: block 12 empty channel 36
! sam: stalled: block 13 empty channel 35
! sam: stalled: block 14 empty channel 22
! sam: stalled: block 15 empty channel 23
! sam: stalled: block 16 empty channel 24
! sam: stalled: block 17 empty channel 29
! sam: stalled: block 18 empty channel 21
! sam: stalled: block 19 empty channel 28
! sam: stalled: block 20 empty channel 31
! sam: stalled: block 22 empty channel 8
! sam: stalled: block 23 empty channel 17
= 8
";

#[test]
fn any_statement_may_stall(rt: HostRuntime) -> Result<(), Fail> {
    let told = replayed(&rt, rt.alloc(), STALLS)?;
    assert!(rt; told.as_str() == STALLS, "{told}");
    Ok(())
}

const ALONE: &str =
    r"# one graph, and channels and blocks by number, are asked of one statement alone
--- p.sam
| tensor b 4 c 1 none.tns
| result y 4 c 1
| compute y(i) = b(i)
| loops i
| # the second one
|
| result z 4 c 1
| compute z(i) = y(i)
| loops i
| result x 4 c 1
| compute x(i) = z(i)
| loops i
$ check p.sam
> accepted
$ lower p.sam
! sam: program line 7: ManyStatements
= 3
$ lower p.sam --fused
same
$ streams p.sam
same
$ moment p.sam
same
$ moment p.sam --of 99=1 --schedule none.txt
same
$ size p.sam
same
$ verify p.sam none.json
same
$ step p.sam --of 0=1
same
$ step p.sam --of 99=1
same
$ step p.sam --schedule none.txt
same
$ step p.sam --capacity 1 --fused --of 0=1 --schedule none.txt
same
$ step p.sam --capacity 1
! sam: missing none.tns
= 5
$ run p.sam
same
# any fault of a later statement goes first
--- p.sam
| tensor b 4 c 1 none.tns
| result y 4 c 1
| compute y(i) = b(i)
| loops i
| result x 4 c 1
| compute x(i) = z(i)
| loops i
$ lower p.sam
! sam: program line 6: UnknownName z
= 3
$ step p.sam --of 0=1
same
--- p.sam
| tensor b 4 c 1 none.tns
| result y 4 c 1
| compute y(i) = b(i)
| loops i
| result x 4 c 1
$ streams p.sam
! sam: program line 6: BadLine
= 3
# with one statement all is as it is without the others
--- p.sam
| tensor b 4 c 1 b.tns
| result y 4 c 1
| compute y(i) = b(i)
| loops i
--- b.tns
| 1 2
$ step p.sam --of 99=1
! sam: no channel 99
= 3
$ step p.sam --schedule none.txt
! sam: missing none.txt
= 5
$ step p.sam --of 0=1
> 1 2
$ verify p.sam none.json
! sam: missing none.json
= 5
";

#[test]
fn some_commands_take_one_statement_alone(rt: HostRuntime) -> Result<(), Fail> {
    let told = replayed(&rt, rt.alloc(), ALONE)?;
    assert!(rt; told.as_str() == ALONE, "{told}");
    Ok(())
}

const REFUSED: &str = r"# a result without dimensions is no tensor of a later statement
--- p.sam
| tensor b 4 c 1 b.tns
| tensor c 4 c 1 c.tns
| result y
| compute y = b(i) * c(i)
| loops i
| result x 4 c 1
| compute x(i) = y * b(i)
| loops i
$ step p.sam
! sam: program line 7: ScalarOperand y
= 3
$ lower p.sam
same
# a ninth statement, whatever it is
--- p.sam
| tensor b 4 c 1 b.tns
| result s1
| compute s1 = b(i)
| loops i
| result s2
| compute s2 = b(i)
| loops i
| result s3
| compute s3 = b(i)
| loops i
| result s4
| compute s4 = b(i)
| loops i
| result s5
| compute s5 = b(i)
| loops i
| result s6
| compute s6 = b(i)
| loops i
| result s7
| compute s7 = b(i)
| loops i
| result s8
| compute s8 = none(i)
| loops i
| result b 0 e
$ check p.sam
! sam: program line 26: TooManyStatements
= 3
$ step p.sam
same
$ lower p.sam
same
# tensors stand before the first statement, and each statement has a result of its own
--- p.sam
| tensor b 4 c 1 b.tns
| result y 4 c 1
| compute y(i) = b(i)
| loops i
| tensor c 4 c 1 c.tns
$ step p.sam
! sam: program line 5: BadLine
= 3
--- p.sam
| tensor b 4 c 1 b.tns
| result y 4 c 1
| compute y(i) = b(i)
| loops i
| compute y(i) = 2 * b(i)
$ streams p.sam
same
--- p.sam
| tensor b 4 c 1 b.tns
| result y 4 c 1
| compute y(i) = b(i)
| loops i
| result y 4 c 1
$ check p.sam
! sam: program line 5: DuplicateName y
= 3
";

#[test]
fn statements_may_be_refused(rt: HostRuntime) -> Result<(), Fail> {
    let told = replayed(&rt, rt.alloc(), REFUSED)?;
    assert!(rt; told.as_str() == REFUSED, "{told}");
    Ok(())
}

const TOO_MUCH: &str = r"# a result that lists too much, with a statement behind it
--- p.sam
| tensor b 4194305 c 1 b.tns
| result y 4194305 d 1
| compute y(i) = b(i)
| loops i
| result s
| compute s = b(i)
| loops i
--- b.tns
| 1 3
$ step p.sam
! sam: result too large
= 10
$ run p.sam --capacity 100
same
# with more dense places than may be stored it lists too much first
--- p.sam
| tensor b 16777217 c 1 b.tns
| result y 16777217 d 1
| compute y(i) = b(i)
| loops i
| result s
| compute s = b(i)
| loops i
$ step p.sam
same
# above a compressed level such places list nothing, but can't be stored, also where no statement reads the result
--- p.sam
| tensor b 16777217 c 1 b.tns
| tensor c 1 c 1 c.tns
| result Y 16777217x1 dc 1,2
| compute Y(i,j) = b(i) * c(j)
| loops i j
| result s
| compute s = b(i)
| loops i
--- c.tns
| 1 2
$ step p.sam
! sam: Y line 0: TooManyPositions
= 4
$ run p.sam --capacity 100
same
# one place less
--- p.sam
| tensor b 16777216 c 1 b.tns
| tensor c 1 c 1 c.tns
| result Y 16777216x1 dc 1,2
| compute Y(i,j) = b(i) * c(j)
| loops i j
| result s
| compute s = b(i)
| loops i
$ step p.sam
> 3
# the last result isn't stored
--- p.sam
| tensor b 16777217 c 1 b.tns
| tensor c 1 c 1 c.tns
| result s
| compute s = b(i)
| loops i
| result Y 16777217x1 dc 1,2
| compute Y(i,j) = b(i) * c(j)
| loops i j
$ step p.sam
> 1 1 6
";

#[test]
fn earlier_results_may_be_too_large(rt: HostRuntime) -> Result<(), Fail> {
    let told = replayed(&rt, rt.alloc(), TOO_MUCH)?;
    assert!(rt; told.as_str() == TOO_MUCH, "{told}");
    Ok(())
}

const ORDER: &str = r"# the second graph has too many blocks for a thread each
--- p.sam
| tensor b 4 c 1 none.tns
| result y 4 c 1
| compute y(i) = b(i)
| loops i
| result x 4 c 1
| compute x(i) = (y(i)+y(i)) * (y(i)+y(i)) * (y(i)+y(i)) * (y(i)+y(i))
| loops i
$ run p.sam
! sam: 274 blocks
= 3
$ step p.sam
! sam: missing none.tns
= 5
# the first of two such graphs is told
--- p.sam
| tensor b 4 c 1 none.tns
| result y 4 c 1
| compute y(i) = (b(i)+b(i)) * (b(i)+b(i)) * (b(i)+b(i)) * (b(i)+b(i)) * b(i)
| loops i
| result x 4 c 1
| compute x(i) = (y(i)+y(i)) * (y(i)+y(i)) * (y(i)+y(i)) * (y(i)+y(i))
| loops i
$ run p.sam
! sam: 338 blocks
= 3
# all files are read before the first statement runs, which would be refused
--- p.sam
| tensor b 4194305 c 1 b.tns
| tensor c 4 c 1 c.tns
| result y 4194305 d 1
| compute y(i) = b(i)
| loops i
| result x 4 c 1
| compute x(i) = c(i)
| loops i
--- b.tns
| 1 3
$ step p.sam
! sam: missing c.tns
= 5
$ run p.sam
same
--- c.tns
| 5 1
$ step p.sam
! sam: c.tns line 1: CoordinateRange
= 4
# the program takes four calls and each tensor three, and no statement takes more
--- p.sam
| tensor b 4 c 1 b.tns
| tensor c 4 c 1 c.tns
| result y 4 c 1
| compute y(i) = b(i)
| loops i
| result x 4 c 1
| compute x(i) = y(i) + c(i)
| loops i
--- c.tns
| 4 1
fails file 10
$ step p.sam
! sam: read fault c.tns
= 6
fails file 11
$ step p.sam
> 1 3
> 4 1
fails output 2
$ run p.sam --capacity 100
> 1 3
! sam: write fault
= 7
";

#[test]
fn files_are_read_before_the_first_statement_runs(rt: HostRuntime) -> Result<(), Fail> {
    let told = replayed(&rt, rt.alloc(), ORDER)?;
    assert!(rt; told.as_str() == ORDER, "{told}");
    Ok(())
}
