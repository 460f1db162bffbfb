//! Statements that are expanded with ample memory: their terms, and both refusals.

use crate::tables::case_at;
use expand::{ExpandFault, expand};
use sam_base::{Items, Name, Nums};
use sam_model::{Expr, Factor, Term, Top};
use std::alloc::{AllocError, Global};
use std::test::Fail;

/// What stands behind its operands becomes one expression with them: an operator, or a digit, which is a sum over that variable.
fn joined(alloc: Global, stack: &mut Vec<Expr>, byte: u8) -> Result<Option<Expr>, AllocError> {
    let Some(b) = stack.pop() else {
        return Ok(None);
    };
    if byte.is_ascii_digit() {
        return Ok(Some(Expr::Sum {
            var: u32::from(byte - b'0'),
            body: Box::new(alloc, b)?,
        }));
    }
    let Some(a) = stack.pop() else {
        return Ok(None);
    };
    let (a, b) = (Box::new(alloc, a)?, Box::new(alloc, b)?);
    Ok(Some(match byte {
        b'+' => Expr::Plus(a, b),
        b'-' => Expr::Minus(a, b),
        _ => Expr::Times(a, b),
    }))
}

/// An expression from a text with operators behind their operands. A letter is an access of tensor 0 with the one variable 0.
fn expression(alloc: Global, text: &[u8]) -> Result<Option<Expr>, AllocError> {
    let mut stack = Vec::new(alloc);
    for byte in text {
        let next = if byte.is_ascii_alphabetic() {
            Some(Expr::Access {
                tensor: u32::from(*byte),
                vars: Nums::from_vec([0].to_vec(alloc)?),
            })
        } else {
            joined(alloc, &mut stack, *byte)?
        };
        if let Some(e) = next {
            stack.push(e)?;
        }
    }
    Ok(stack.pop())
}

fn append_factor(text: &mut Name, factor: &Factor) -> Result<(), AllocError> {
    text.push(match factor {
        Factor::Access { tensor, .. } => (*tensor % 256) as u8,
        Factor::Literal(number) => b'0' + (*number % 10) as u8,
    })
}

/// The terms as a text: each its sign and then its factors, an access by the letter of its tensor.
fn terms_text(alloc: Global, terms: &[Term]) -> Result<Name, AllocError> {
    let mut text = Name::new(alloc);
    for term in terms {
        text.push(if term.minus { b'-' } else { b'+' })?;
        for factor in term.factors.as_slice() {
            append_factor(&mut text, factor)?;
        }
    }
    Ok(text)
}

/// What the negative of an expression expands to, where variables 0, 1 and 2 have the sizes 2, 3 and 4 and 2 is implied.
fn told(alloc: Global, text: &[u8]) -> Result<Name, AllocError> {
    let mut tops = Items::new(alloc);
    if let Some(body) = expression(alloc, text)? {
        tops.push(Top {
            minus: true,
            body,
            implied: Nums::from_vec([2].to_vec(alloc)?),
        })?;
    }
    let sizes = Nums::from_vec([2, 3, 4].to_vec(alloc)?);
    match expand(alloc, &tops, &sizes) {
        Ok(terms) => terms_text(alloc, terms.as_slice()),
        Err(ExpandFault::Terms) => Name::from_slice(alloc, b"Terms"),
        Err(ExpandFault::Factors) => Name::from_slice(alloc, b"Factors"),
        Err(ExpandFault::OutOfMemory) => Name::from_slice(alloc, b"OutOfMemory"),
    }
}

const EXPRESSIONS: &[u8] = b"b>-b4
bc+bc-*>-bb4+bc4-cb4+cc4
bc-1>-b34+c34
b0>-b4
bbbb***bbb***1>Factors
bbbb***bbb***>-bbbbbbb4
bbbb***bbbb****>Factors
bb+bb+*bb+*bb+*>-bbbb4-bbbb4-bbbb4-bbbb4-bbbb4-bbbb4-bbbb4-bbbb4-bbbb4-bbbb4-bbbb4-bbbb4-bbbb4-bbbb4-bbbb4-bbbb4
bb+bb+*bb+*bb+*bb+*>Terms
";

#[test]
fn expressions_are_expanded(rt: HostRuntime) -> Result<(), Fail> {
    let alloc = rt.alloc();
    for number in 0..9 {
        let (text, terms) = case_at(EXPRESSIONS, number).ok_or("a case is missing")?;
        let told = told(alloc, text)?;
        assert_eq!(rt; told.as_bytes(), terms, "case {number}");
    }
    Ok(())
}
