//! Statements and refusals, by hand.

use crate::tables::{case_at, unfolded};
use notation::{NoteFault, read_statement};
use sam_base::NoteKind;
use std::alloc::Global;
use std::test::Fail;

/// Texts that are refused, with the kind and the place that are told, and one that is read.
const STATEMENTS: &[u8] = b">ExpectedName 0
 \t>ExpectedName 2
2 = b>ExpectedName 0
18446744073709551616>ExpectedName 0
sum = b>ExpectedName 0
% = b>BadChar 0
x>ExpectedEquals 1
x y>ExpectedEquals 2
x(i) >ExpectedEquals 5
x(i) b>ExpectedEquals 5
x(i) (j)>ExpectedEquals 5
x(>ExpectedName 2
x()>ExpectedName 2
x(i,)>ExpectedName 4
x(sum)>ExpectedName 2
x(i>ExpectedComma 3
x(i j)>ExpectedComma 4
x(i;j)>BadChar 3
x = b(i j;>ExpectedComma 8
x = b(2)>ExpectedName 6
x=>ExpectedFactor 2
x=*b>ExpectedFactor 2
x=--b>ExpectedFactor 3
x=+b>ExpectedFactor 2
x=b+ >ExpectedFactor 5
x=b*-c>ExpectedFactor 4
x=b+-c>ExpectedFactor 4
x==%>ExpectedFactor 2
x=(b)>read
x=-(b)>read
x=b*sum(i,c)>read
x=(b+c)*-(b)>ExpectedFactor 8
x=-(a - -b)>ExpectedFactor 8
x=()>ExpectedFactor 3
x=(b>ExpectedOperator 4
x=(b))>ExpectedOperator 5
x=sum>ExpectedOpen 5
x=sum b>ExpectedOpen 6
x=sum%>BadChar 5
x=sum(>ExpectedName 6
x=sum(2,b)>ExpectedName 6
x=sum(i)>ExpectedComma 7
x=sum(i,)>ExpectedFactor 8
x=sum(i,-sum(j,b(i)*c(j)))*(1-2)>read
x=((((((((((((((((((((((((((((((((b))))))))))))))))))))))))))))))))>read
x=(((((((((((((((((((((((((((((((((%>TooDeep 34
x=((((((((((((((((((((((((((((((((sum (>TooDeep 38
x=((((((((((((((((((((((((((((((((sum )>ExpectedOpen 38
x=(1*1*1*1*1*1*1*1*1)>TooManyFactors 18
x=(b+b+b+b+b+b+b+b+b+b+b+b+b+b+b+b+b)>TooManyTerms 34
x=18446744073709551616%>NumberTooLarge 2
x=2b(i)>ExpectedOperator 3
x=b c>ExpectedOperator 4
x=b)>ExpectedOperator 3
x=b(i)(j)>ExpectedOperator 6
x=b 18446744073709551616>ExpectedOperator 4
x=b = c>ExpectedOperator 4
x=b|>BadChar 3
x=\xc3\xa9>BadChar 2
x=b.>BadChar 3
x=b+b+b+b+b+b+b+b+b+b+b+b+b+b+b+b+%>TooManyTerms 33
x=b+b+b+b+b+b+b+b+b+b+b+b+b+b+b+b-b>TooManyTerms 33
x=1*1*1*1*1*1*1*1*1+>TooManyFactors 17
X(i, j) = - B(i,k)*007*c\t+\rd>read
";

/// The kind and the place of a refusal, if the text is refused.
fn refusal(alloc: Global, text: &[u8]) -> Result<Option<(NoteKind, u32)>, Fail> {
    if text.len() > 100 {
        return Err(Fail::from("long"));
    }
    match read_statement(alloc, text) {
        Ok(_) => Ok(None),
        Err(NoteFault::Refused { kind, place }) => Ok(Some((kind, place))),
        Err(NoteFault::OutOfMemory) => Err(Fail::from("memory")),
    }
}

/// Whether a case is as the table says.
fn is_right(alloc: Global, number: usize) -> Result<bool, Fail> {
    let Some((text, told)) = case_at(STATEMENTS, number) else {
        return Ok(false);
    };
    let text = unfolded(alloc, text)?;
    match refusal(alloc, text.as_bytes())? {
        Some((kind, place)) => Ok(format!(in alloc; "{kind:?} {place}")?.as_bytes() == told),
        None => Ok(told == b"read".as_slice()),
    }
}

#[test]
fn statements_are_read(rt: HostRuntime) -> Result<(), Fail> {
    for number in 0..64 {
        assert!(rt; is_right(rt.alloc(), number)?, "statement {number}");
    }
    Ok(())
}
