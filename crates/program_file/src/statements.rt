//! The right side of a statement: its accesses and its sums, and its top-level terms by numbers.

ghost use Rattle.std.specs.Prelude.{◌≡◌, ◌++◌, length, IfOk, OnOk};
ghost use mathlib.Core.List.{map};
ghost use Rattle.sam_model.specs.Trees.{tree_of};
ghost use Rattle.notation.specs.Trees.{text_tree};
ghost use Rattle.program_file.specs.Statements.{tree_accesses, right_accesses, tree_sums, right_sums, var_of, body_of, top_of, tops_of};

use crate::numbers::{number_of, place_of, places};
use expand::implied_vars;
use notation::{AccessText, ExprText, Statement, TopText};
use sam_base::{Items, Name};
use sam_model::{Expr, Tensor, Top};
use std::alloc::{AllocError, Global};

/// Appends the accesses of an expression.
fn append_accesses<'a>(
    accesses: &mut Vec<&'a AccessText>,
    e: &'a ExprText,
) -> Result<(), AllocError>
    ensures { OnOk result (map (λ a. a.now) accesses.new.items ≡ map (λ a. a.now) accesses.old.items ++ tree_accesses (text_tree e.now)) }
{
    match e {
        ExprText::Access(access) => {
            accesses.push(access)?;
            Ok(())
        }
        ExprText::Literal(_) => Ok(()),
        ExprText::Times(a, b) | ExprText::Plus(a, b) | ExprText::Minus(a, b) => {
            append_accesses(accesses, a)?;
            append_accesses(accesses, b)
        }
        ExprText::Negate(body) | ExprText::Sum { body, .. } => append_accesses(accesses, body),
    }
}

/// The accesses of the right side, in the order of the text.
pub(crate) fn right_accesses(
    alloc: Global,
    statement: &Statement,
) -> Result<Vec<&AccessText>, AllocError>
    ensures { IfOk result (λ accesses. map (λ a. a.now) accesses.items ≡ right_accesses statement.now) }
{
    let mut accesses = Vec::new(alloc);
    for top in statement.tops.as_slice() {
        append_accesses(&mut accesses, &top.body)?;
    }
    Ok(accesses)
}

/// Appends the variables of the sums in an expression, an outer one before those within it.
fn append_sums<'a>(sums: &mut Vec<&'a Name>, e: &'a ExprText) -> Result<(), AllocError>
    ensures { OnOk result (map (λ v. v.now) sums.new.items ≡ map (λ v. v.now) sums.old.items ++ tree_sums (text_tree e.now)) }
{
    match e {
        ExprText::Access(_) | ExprText::Literal(_) => Ok(()),
        ExprText::Times(a, b) | ExprText::Plus(a, b) | ExprText::Minus(a, b) => {
            append_sums(sums, a)?;
            append_sums(sums, b)
        }
        ExprText::Negate(body) => append_sums(sums, body),
        ExprText::Sum { var, body, .. } => {
            sums.push(var)?;
            append_sums(sums, body)
        }
    }
}

/// The variables of the sums of the right side, in the order of the text.
pub(crate) fn right_sums(alloc: Global, statement: &Statement) -> Result<Vec<&Name>, AllocError>
    ensures { IfOk result (λ sums. map (λ v. v.now) sums.items ≡ right_sums statement.now) }
{
    let mut sums = Vec::new(alloc);
    for top in statement.tops.as_slice() {
        append_sums(&mut sums, &top.body)?;
    }
    Ok(sums)
}

/// The variable of a sum by its number.
fn var_of(names: &[Name], name: &[u8]) -> u32
    ensures { result ≡ var_of names.now name.now }
{
    let place = place_of(names, name);
    if place < u32::MAX as usize {
        place as u32
    } else {
        u32::MAX
    }
}

/// The names that a statement's text speaks of: the tensors, and the variables in the order of their numbers.
#[derive(Clone, Copy)]
pub(crate) struct Names<'a> {
    pub tensors: &'a [Tensor],
    pub variables: &'a [Name],
}

impl Names<'_> {
    fn body(&self, alloc: Global, e: &ExprText) -> Result<Expr, AllocError>
        ensures { IfOk result (λ body. tree_of body ≡ body_of self.now.tensors.now self.now.variables.now (text_tree e.now)) }
    {
        match e {
            ExprText::Access(access) => Ok(Expr::Access {
                tensor: number_of(self.tensors, access.name.as_bytes()),
                vars: places(alloc, self.variables, access.vars.as_slice())?,
            }),
            ExprText::Literal(number) => Ok(Expr::Literal(*number)),
            ExprText::Times(a, b) => {
                let (a, b) = (self.body(alloc, a)?, self.body(alloc, b)?);
                Ok(Expr::Times(Box::new(alloc, a)?, Box::new(alloc, b)?))
            }
            ExprText::Plus(a, b) => {
                let (a, b) = (self.body(alloc, a)?, self.body(alloc, b)?);
                Ok(Expr::Plus(Box::new(alloc, a)?, Box::new(alloc, b)?))
            }
            ExprText::Minus(a, b) => {
                let (a, b) = (self.body(alloc, a)?, self.body(alloc, b)?);
                Ok(Expr::Minus(Box::new(alloc, a)?, Box::new(alloc, b)?))
            }
            ExprText::Negate(body) => {
                let body = self.body(alloc, body)?;
                Ok(Expr::Negate(Box::new(alloc, body)?))
            }
            ExprText::Sum { var, body, .. } => {
                let body = self.body(alloc, body)?;
                Ok(Expr::Sum {
                    var: var_of(self.variables, var.as_bytes()),
                    body: Box::new(alloc, body)?,
                })
            }
        }
    }

    fn top(&self, alloc: Global, left: &[u64], top: &TopText) -> Result<Top, AllocError>
        ensures { IfOk result (λ made. made ≡ top_of self.now.tensors.now self.now.variables.now left.now top.now) }
    {
        let body = self.body(alloc, &top.body)?;
        let implied = implied_vars(alloc, self.variables.len() as u64, left, &body)?;
        Ok(Top {
            minus: top.minus,
            body,
            implied,
        })
    }

    /// The top-level terms of a statement by numbers, where the left side has these variables.
    pub(crate) fn tops(
        &self,
        alloc: Global,
        left: &[u64],
        statement: &Statement,
    ) -> Result<Items<Top>, AllocError>
        ensures { IfOk result (λ tops. tops ≡ tops_of self.now.tensors.now self.now.variables.now left.now statement.now) }
    {
        let mut tops = Items::new(alloc);
        for top in statement.tops.as_slice() {
            tops.push(self.top(alloc, left, top)?)?;
        }
        Ok(tops)
    }
}
