//! Program files of several statements, by hand.

use crate::programs::is_printed;
use crate::tables::{case_at, unfolded};
use program_file::{ProgramFault, read_chain};
use std::alloc::Global;
use std::test::Fail;

/// Files that are accepted, or refused with the line and the kind that are told.
const CHAINS: &[u8] = b"tensor b 4 c 1 f|result x 4 c 1|compute x(i) = b(i)|loops i>accepted
tensor b 4 c 1 f|result y 4 c 1|compute y(i) = b(i)|loops i|result x 4 c 1|compute x(i) = y(i) * b(i)|loops i|>accepted
tensor b 4 c 1 f|result s|compute s = b(i)|loops i|# more|result x 4 c 1||compute x(i) = 2 * b(i)|loops i|>accepted
tensor b 4 c 1 f|result s|compute s = b(i)|loops i|result t|compute t = b(i)|loops i|result u|compute u = b(i)|loops i|result v|compute v = b(i)|loops i|result w|compute w = b(i)|loops i|result x|compute x = b(i)|loops i|result y|compute y = b(i)|loops i|result z|compute z = b(i)|loops i|>accepted
tensor b 4 c 1 f|result s|compute s = b(i)|loops i|result t|compute t = b(i)|loops i|result u|compute u = b(i)|loops i|result v|compute v = b(i)|loops i|result w|compute w = b(i)|loops i|result x|compute x = b(i)|loops i|result y|compute y = b(i)|loops i|result z|compute z = b(i)|loops i|result|>26: TooManyStatements
tensor b 4 c 1 f|result s|compute s = b(i)|loops i|result t|compute t = b(i)|loops i|result u|compute u = b(i)|loops i|result v|compute v = b(i)|loops i|result w|compute w = b(i)|loops i|result x|compute x = b(i)|loops i|result y|compute y = b(i)|loops i|result z|compute z = b(i)|loops i|#||result b 0 c 1>28: TooManyStatements
tensor b 4 c 1 f|result s|compute s = b(i)|loops i|result t|compute t = b(i)|loops i|result u|compute u = b(i)|loops i|result v|compute v = b(i)|loops i|result w|compute w = b(i)|loops i|result x|compute x = b(i)|loops i|result y|compute y = b(i)|loops i|result z|compute z = b(i)|loops i|tensor c 4 c 1 f|>26: BadLine
tensor b 4 c 1 f|result y 4 c 1|compute y(i) = b(i)|loops i|tensor c 4 c 1 f|>5: BadLine
tensor b 4 c 1 f|result y 4 c 1|compute y(i) = b(i)|loops i|compute y(i) = b(i)|>5: BadLine
tensor b 4 c 1 f|result y 4 c 1|compute y(i) = b(i)|loops i|result x 4 e 1|>5: BadLine
tensor b 4 c 1 f|result y 4 c 1|compute y(i) = b(i)|loops i|result x 4 c 1|loops i|>6: BadLine
tensor b 4 c 1 f|result y 4 c 1|compute y(i) = b(i)|loops i|result x 4 c 1|compute x(i) = y(i)||>8: BadLine
tensor b 4 c 1 f|result y 4 c 1|compute y(i) = b(i)|loops i|result x 0 c 1|>5: DimensionRange
tensor b 4 c 1 f|result y 4 c 1|compute y(i) = b(i)|loops i|result b 4 c 1|>5: DuplicateName b
tensor b 4 c 1 f|result y 4 c 1|compute y(i) = b(i)|loops i|result y|>5: DuplicateName y
tensor b 4 c 1 f|result s|compute s = b(i)|loops i|result s 4 c 1|>5: DuplicateName s
tensor b 4 c 1 f|result y 4 c 1|compute y(i) = b(i)|loops i|result x 4 c 1| compute x |loops i|>6: ExpectedEquals 3
tensor b 4 c 1 f|result y 4 c 1|compute y(i) = x(i)|loops i|result x|>6: BadLine
tensor b 4 c 1 f|result y 4 c 1|compute y(i) = x(i)|loops i|result x 4 c 1|compute x(i) = b(i)|loops i>3: UnknownName x
tensor b 4 c 1 f|result y 4 c 1|compute y(i) = b(i)|loops i|result x 4 c 1|compute y(i) = b(i)|loops i>6: UnknownName y
tensor b 4 c 1 f|result s|compute s = b(i)|loops i|result x 4 c 1|compute s(i) = b(i)|loops i>6: UnknownName s
tensor b 4 c 1 f|result y 4 c 1|compute y(i) = b(i)|loops i|result x 4 c 1|compute x(i) = x(i)|loops i>6: ResultOnRight x
tensor b 4 c 1 f|tensor c 4 c 1 f|result y|compute y = b(i) * c(i)|loops i|result x 4 c 1|compute x(i) = y * b(i)|loops i>7: ScalarOperand y
tensor b 4 c 1 f|result s|compute s = b(i)|loops i|result x 4 c 1|compute x(i) = s(i,i) * b|loops i>6: ScalarOperand s
tensor b 4 c 1 f|result s|compute s = b(i)|loops i|result x 4 c 1|compute x(i) = b * s|loops i>6: ArityMismatch b
tensor b 4 c 1 f|result y 4 c 1|compute y(i) = b(i)|loops i|result x 4 c 1|compute x(i) = y(i,i)|loops i>6: ArityMismatch y
tensor b 4 c 1 f|result y 4 c 1|compute y(i) = b(i)|loops i|result x 5 c 1|compute x(i) = y(i)|loops i>6: DimMismatch i
tensor b 4 c 1 f|result y 4 c 1|compute y(i) = b(i)|loops i|result x 4 c 1|compute x(i) = y(i)|loops j>7: LoopsMismatch
tensor b 4 c 1 f|result s|compute s = b(i)|loops j|result x 4 c 1|compute x(i) = s * b(i)|loops i>4: LoopsMismatch
tensor b 4 c 1 f|result s|compute s = b(i)|loops i|result t|compute t = t|loops>6: ResultOnRight t
";

/// Whether a text is accepted or refused as it is told.
fn is_told(alloc: Global, text: &[u8], told: &[u8]) -> Result<bool, Fail> {
    if text.len() > 1000 {
        return Ok(false);
    }
    match read_chain(alloc, text) {
        Err(ProgramFault::Refused { kind, line }) => is_printed(alloc, kind, line, told),
        Ok(_) => Ok(told == b"accepted".as_slice()),
        Err(ProgramFault::OutOfMemory) => Ok(false),
    }
}

/// Whether a case of the table is as it says.
fn is_right(alloc: Global, number: usize) -> Result<bool, Fail> {
    match case_at(CHAINS, number) {
        Some((text, told)) => is_told(alloc, unfolded(alloc, text)?.as_bytes(), told),
        None => Ok(false),
    }
}

#[test]
fn chains_are_read(rt: HostRuntime) -> Result<(), Fail> {
    for number in 0..30 {
        assert!(rt; is_right(rt.alloc(), number)?, "case {number}");
    }
    Ok(())
}
