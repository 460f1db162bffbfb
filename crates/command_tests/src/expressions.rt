//! Statements with parentheses and explicit sums.

use crate::transcripts::replayed;
use std::test::Fail;

const EXPRESSIONS: &str = r"# a product of a sum and a difference
--- p.sam
| tensor b 4 c 1 b.tns
| tensor c 4 c 1 c.tns
| result x 4 c 1
| compute x(i) = (b(i) + c(i)) * (b(i) - c(i))
| loops i
--- b.tns
| 1 2
| 3 5
--- c.tns
| 3 7
| 4 1
$ step p.sam
> 1 4
> 3 -24
> 4 -1
# a sum over a variable that a term hasn't takes it as often as the variable has values
--- p.sam
| tensor B 2x3 cc 1,2 B.tns
| tensor d 2 c 1 d.tns
| result x 2 c 1
| compute x(i) = sum(j, B(i,j) + d(i))
| loops i j
--- B.tns
| 1 1 4
--- d.tns
| 1 2
| 2 5
$ step p.sam
> 1 10
> 2 15
--- p.sam
| tensor B 2x3 cc 1,2 B.tns
| tensor d 2 c 1 d.tns
| result x 2 c 1
| compute x(i) = (B(i,j) + d(i))
| loops i j
$ step p.sam
same
# each top-level term is summed by itself
--- p.sam
| tensor B 2x3 cc 1,2 B.tns
| tensor d 2 c 1 d.tns
| result x 2 c 1
| compute x(i) = B(i,j) + d(i)
| loops i j
$ step p.sam
> 1 6
> 2 5
# one variable in two sums of a term
--- p.sam
| tensor B 2x3 cc 1,2 B.tns
| tensor d 2 c 1 d.tns
| result x 2 c 1
| compute x(i) = sum(j, B(i,j)) * sum(j, B(i,j))
| loops i j
$ step p.sam
! sam: program line 4: BoundVariable j
= 3
# a variable that no access has
--- p.sam
| tensor B 2x3 cc 1,2 B.tns
| tensor d 2 c 1 d.tns
| result x 2 c 1
| compute x(i) = B(i,j) * sum(k, d(i))
| loops i j
$ step p.sam
! sam: program line 4: UnusedSum k
= 3
# more terms than there may be
--- p.sam
| tensor d 2 c 1 d.tns
| result x 2 c 1
| compute x(i) = (d(i)+2) * (d(i)+2) * (d(i)+2) * (d(i)+2) * (d(i)+2)
| loops i
$ check p.sam
! sam: program line 3: ExpandedTerms
= 3
# a parenthesis around a dense operand
--- p.sam
| tensor b 3 d 1 b.tns
| result x 3 c 1
| compute x(i) = (b(i))
| loops i
--- b.tns
$ step p.sam
> 1 0
> 2 0
> 3 0
";

#[test]
fn expressions_are_computed(rt: HostRuntime) -> Result<(), Fail> {
    let told = replayed(&rt, rt.alloc(), EXPRESSIONS)?;
    assert!(rt; told.as_str() == EXPRESSIONS, "{told}");
    Ok(())
}
