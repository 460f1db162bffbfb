//! Which sums are over variables that they may be over.

ghost use Rattle.std.specs.Prelude.{◌≡◌, ◌++◌, IfOk, OnOk};
ghost use Rattle.sam_model.specs.Trees.{tree_of};
ghost use Rattle.program_file.specs.Checks.{is_twice, binds_wrong, sum_vars, wrong_among, tops_bind_wrong};

use crate::numbers::name_at;
use expand::{bound_vars, has_free};
use sam_base::{Name, Nums, ProgramKind};
use sam_model::{Expr, Top, is_in};
use std::alloc::{AllocError, Global};

/// Whether a number stands twice among these.
fn is_twice(number: u64, numbers: &[u64]) -> bool
    ensures { result ≡ is_twice number numbers.now }
{
    let mut stood = false;
    for other in numbers {
        if *other == number {
            if stood {
                return true;
            }
            stood = true;
        }
    }
    false
}

/// Appends the variables of the sums in an expression, an outer one before those within it.
fn append_sums(vars: &mut Nums, e: &Expr) -> Result<(), AllocError>
    ensures { OnOk result (vars.new ≡ vars.old ++ sum_vars (tree_of e.now)) }
{
    match e {
        Expr::Access { .. } | Expr::Literal(_) => Ok(()),
        Expr::Times(a, b) | Expr::Plus(a, b) | Expr::Minus(a, b) => {
            append_sums(vars, a)?;
            append_sums(vars, b)
        }
        Expr::Negate(body) => append_sums(vars, body),
        Expr::Sum { var, body } => {
            vars.push(u64::from(*var))?;
            append_sums(vars, body)
        }
    }
}

/// The variables of the sums in an expression, in the order of the text.
fn sum_vars(alloc: Global, e: &Expr) -> Result<Nums, AllocError>
    ensures { IfOk result (λ vars. vars ≡ sum_vars (tree_of e.now)) }
{
    let mut vars = Nums::new(alloc);
    append_sums(&mut vars, e)?;
    Ok(vars)
}

/// Whether a sum may not be over a variable: it is on the left, or that of another sum of the term, or stands in the term outside
/// the sum.
fn binds_wrong(alloc: Global, left: &[u64], e: &Expr, var: u64) -> Result<bool, AllocError>
    ensures { IfOk result (λ wrong. wrong ≡ binds_wrong left.now (tree_of e.now) var) }
{
    let bound = bound_vars(alloc, e)?;
    Ok(is_in(var, left) || is_twice(var, bound.as_slice()) || has_free(e, var))
}

/// The first of these variables that no sum of the expression may be over.
fn wrong_among(
    alloc: Global,
    names: &[Name],
    left: &[u64],
    e: &Expr,
    vars: &[u64],
) -> Result<Option<ProgramKind>, AllocError>
    ensures { IfOk result (λ fault. fault ≡ wrong_among names.now left.now (tree_of e.now) vars.now) }
{
    for var in vars {
        if binds_wrong(alloc, left, e, *var)? {
            let name = Name::from_slice(alloc, name_at(names, *var))?;
            return Ok(Some(ProgramKind::BoundVariable(name)));
        }
    }
    Ok(None)
}

/// The first sum that is over a variable that it may not be over.
pub(crate) fn tops_bind_wrong(
    alloc: Global,
    names: &[Name],
    left: &[u64],
    tops: &[Top],
) -> Result<Option<ProgramKind>, AllocError>
    ensures { IfOk result (λ fault. fault ≡ tops_bind_wrong names.now left.now tops.now) }
{
    match tops {
        [] => Ok(None),
        [top, rest @ ..] => {
            let sums = sum_vars(alloc, &top.body)?;
            match wrong_among(alloc, names, left, &top.body, sums.as_slice())? {
                Some(kind) => Ok(Some(kind)),
                None => tops_bind_wrong(alloc, names, left, rest),
            }
        }
    }
}
