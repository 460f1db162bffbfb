//! Programs and refusals, by hand.

use crate::tables::{case_at, unfolded};
use expand::accepted;
use program_file::{ProgramFault, read_program};
use sam_base::{Fault, Name, ProgramKind, fault_text};
use std::alloc::Global;
use std::test::Fail;

/// Lines that are refused, with the line and the kind that are told.
const LINES: &[u8] = b">1: BadLine
| # tensor|>3: BadLine
tensor b 4 c 1 b.tns>2: BadLine
tensor b 4 c 1|>1: BadLine
tensor b 4 c 1 b.tns more|>1: BadLine
tensor sum 4 c 1 b.tns|>1: BadLine
tensor b 4x c 1 b.tns|>1: BadLine
tensor b 4 e 1 b.tns|>1: BadLine
tensor b 4x5 cc 1,1 b.tns|>1: BadLine
tensor b 4x5 cc 0,1 b.tns|>1: BadLine
tensor b 4 c 18446744073709551617 b.tns|>1: BadLine
tensor b 1x1x1x1x1x1x1x1x1 ccccccccc 1,2,3,4,5,6,7,8,9 f|>1: BadLine
tensor b 0 d 2 b.tns|>1: BadLine
tensor b 0 d 1 b.tns|>1: DimensionRange
tensor b 18446744073709551617 d 1 b.tns|>1: DimensionRange
|tensor b 4 c 01 f|tensor b 2147483648 c 1 f|>3: DimensionRange
tensor b 4 c 1 f|tensor b 4 c 1 f|>2: DuplicateName b
tensor b 4 c 1 f|result b 4 d 1|>2: DuplicateName b
result x|compute  x = (b|loops i,|>2: ExpectedOperator 8
result x| compute x |loops|>2: ExpectedEquals 3
result x|compute x = 2|loops 2|>3: BadLine
result x|compute y = 2|loops i||loops|>5: BadLine
result x|compute y = 2|loops i|#| result>5: ManyStatements
";

/// Programs that a check refuses, with the line and the kind that are told, and one that is accepted.
const CHECKS: &[u8] = b"result x|compute y(i,i) = 2|loops i i>2: UnknownName y
result x|compute x = b(i) * x|loops>2: UnknownName b
result x|compute x = x(i,i)|loops>2: ResultOnRight x
result x 4 c 1|compute x = b(i)|loops>2: ArityMismatch x
tensor B 4x5 cc 1,2 f|result x|compute x = B(i,i,i)|loops>3: ArityMismatch B
tensor B 4x5 cc 1,2 f|result x|compute x = B(i,i)|loops>3: RepeatedVariable i
tensor B 4x5x4x4 cccc 1,2,3,4 f|result x|compute x = B(i,j,j,i)|loops>3: RepeatedVariable i
tensor B 4x5 cc 1,2 f|result x 5 c 1|compute x(i) = B(i,j) * 2|loops>3: DimMismatch i
tensor B 4x5 cc 1,2 f|result x|compute x = B(i,j) + B(j,i)|loops>3: DimMismatch j
tensor b 4 c 1 f|result x 4 c 1|compute x(i) = 2 + b(j)|loops>3: NoAccess
tensor b 4 c 1 f|result x 4 c 1|compute x(i) = b(j) + 2|loops>3: MissingResultVariable i
tensor B 2x3 cc 1,2 f|tensor d 2 c 1 f|result X 2x3 cc 1,2|compute X(i,j) = B(i,j) + d(i)|loops j>4: MissingResultVariable j
tensor D 2x2x2x2 cccc 1,2,3,4 f|result x 2 c 1|compute x(i) = D(a,b,c,d) * D(e,f,g,h)|loops>3: MissingResultVariable i
tensor b 1x1x1x1x1x1x1x1 cccccccc 1,2,3,4,5,6,7,8 f|result x|compute x = b(a,c,d,e,f,g,h,i) + b(a,c,d,e,f,g,h,j)|loops k>3: TooManyVariables
tensor b 4 c 1 f|result x 4 c 1|compute x(i) = b(i)|loops>4: LoopsMismatch
tensor b 4 c 1 f|result x 4 c 1|compute x(i) = b(i)|loops i i>4: LoopsMismatch
tensor b 4 c 1 f|result x 4 c 1|compute x(i) = b(i)|#|loops j>5: LoopsMismatch
tensor B 2x2 cc 1,2 B.tns|result y 2 c 1|compute y(j) = B(i,j)|loops j i|>4: Discordant B
tensor B 2x2 cc 2,1 B.tns|result y 2 c 1|compute y(j) = B(i,j)|loops i j|>4: Discordant B
tensor B 2x2 cc 2,1 B.tns|result X 2x2 cc 1,2|compute X(j,i) = B(i,j)|loops i j|>4: Discordant X
tensor B 2x2x2x2 cccc 1,2,3,4 B.tns|result X 2x2x2 ccc 1,2,3|compute X(h,i,j) = B(k,h,i,j)|loops k h i j|>4: ReducerTooDeep k
tensor b 4 c 1 f|result x|compute x = b(i)|loops j|compute x = b(i)|>5: ManyStatements
tensor b 4 c 1 f|result x|compute x = b|loops j k>3: ArityMismatch b
result x|compute x(i) = 3|loops>2: ArityMismatch x
tensor B 2x3 cc 1,2 f|tensor d 2 c 1 f|result x 2 c 1|compute x(i) = B(i,j) * sum(k, d(i))|loops>4: UnusedSum k
tensor B 2x3 cc 1,2 f|tensor d 2 c 1 f|result x 2 c 1|compute x(i) = sum(i, B(i,j)) * sum(k, d(i))|loops>4: UnusedSum k
tensor B 2x3 cc 1,2 f|tensor d 2 c 1 f|result x 2 c 1|compute x(i) = sum(l, sum(k, B(i,j)))|loops>4: UnusedSum l
tensor B 2x3 cc 1,2 f|tensor d 2 c 1 f|result x 2 c 1|compute x(i) = sum(i, B(i,j))|loops>4: BoundVariable i
tensor B 2x3 cc 1,2 f|tensor d 2 c 1 f|result x 2 c 1|compute x(i) = sum(j, B(i,j)) * sum(j, B(i,j))|loops>4: BoundVariable j
tensor B 2x3 cc 1,2 f|tensor d 2 c 1 f|result x 2 c 1|compute x(i) = B(i,j) * sum(j, B(i,j))|loops>4: BoundVariable j
tensor d 2 c 1 f|result x 2 c 1|compute x(i) = (d(i)+2)*(d(i)+2)*(d(i)+2)*(d(i)+2)*(d(i)+2)|loops>3: ExpandedTerms
tensor d 2 c 1 f|result x 2 c 1|compute x(i) = (d(i)*2*2*2)*(d(i)*2*2*2)*d(i)|loops>3: ExpandedFactors
tensor d 2 c 1 f|result x 2 c 1|compute x(i) = d(i) * (d(i) + 2) + (1 - 2) * 3|loops>3: NoAccess
tensor B 2x3 cc 1,2 f|tensor d 2 c 1 f|result x 2 c 1|compute x(i) = sum(j, B(i,j)) + sum(j, B(i,j) + d(i)) - (d(i) - 2 * d(i))|loops i j>accepted
tensor b 4 c 1 f|result x 4 d 1|compute x(i) = b(i)|loops i>accepted
# y = B c|tensor B 3x4 dc 2,1 B.tns||\ttensor c 4 c 1 c.tns\r|result y 3 c 1|compute y(i) = - B(i,j)*c(j)*2 + B(i, j)|loops j i>accepted
";

/// Whether a refusal of this kind at this line is printed as it is told.
pub(crate) fn is_printed(
    alloc: Global,
    kind: ProgramKind,
    line: u32,
    told: &[u8],
) -> Result<bool, Fail> {
    let mut expected = Name::from_slice(alloc, b"sam: program line ")?;
    expected.append(told)?;
    expected.push(b'\n')?;
    let fault = Fault::Program { kind, line };
    Ok(fault_text(alloc, &fault)?.as_bytes() == expected.as_bytes())
}

/// Whether a text is accepted or refused as it is told.
fn is_told(alloc: Global, text: &[u8], told: &[u8]) -> Result<bool, Fail> {
    if text.len() > 1000 {
        return Ok(false);
    }
    match read_program(alloc, text) {
        Err(ProgramFault::Refused { kind, line }) => is_printed(alloc, kind, line, told),
        Ok(program) => Ok(accepted(alloc, &program)? && told == b"accepted".as_slice()),
        Err(ProgramFault::OutOfMemory) => Ok(false),
    }
}

/// Whether a case of a table is as it says.
fn is_right(alloc: Global, table: &[u8], number: usize) -> Result<bool, Fail> {
    match case_at(table, number) {
        Some((text, told)) => is_told(alloc, unfolded(alloc, text)?.as_bytes(), told),
        None => Ok(false),
    }
}

#[test]
fn texts_are_read(rt: HostRuntime) -> Result<(), Fail> {
    for number in 0..23 {
        assert!(rt; is_right(rt.alloc(), LINES, number)?, "line {number}");
    }
    for number in 0..36 {
        assert!(rt; is_right(rt.alloc(), CHECKS, number)?, "check {number}");
    }
    Ok(())
}
