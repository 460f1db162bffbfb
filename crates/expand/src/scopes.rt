//! Which variables stand where in an expression, and which top-level terms fit a left side.

ghost use Rattle.std.specs.Prelude.{◌≡◌, ◌++◌, not, IfOk, OnOk};
ghost use Rattle.std.specs.List.{list_all};
ghost use Rattle.sam_model.specs.Lists.{is_in};
ghost use Rattle.sam_model.specs.Trees.{tree_of};
ghost use Rattle.sam_model.specs.Scopes.{bound_vars, used_vars, free_vars, are_apart, are_in_range, is_implied, implied_of, top_fits};

use crate::equality::same_vars;
use sam_base::Nums;
use sam_model::{Expr, Top, are_below, distinct, is_in};
use std::alloc::{AllocError, Global};

/// Whether an access of an expression has a variable.
fn has(e: &Expr, var: u64) -> bool
    ensures { result ≡ is_in var (used_vars (tree_of e.now)) }
{
    match e {
        Expr::Access { vars, .. } => is_in(var, vars.as_slice()),
        Expr::Literal(_) => false,
        Expr::Times(a, b) | Expr::Plus(a, b) | Expr::Minus(a, b) => has(a, var) || has(b, var),
        Expr::Negate(body) | Expr::Sum { body, .. } => has(body, var),
    }
}

/// Whether an access outside every sum over a variable has it.
pub fn has_free(e: &Expr, var: u64) -> bool
    ensures { result ≡ is_in var (free_vars (tree_of e.now)) }
{
    match e {
        Expr::Access { vars, .. } => is_in(var, vars.as_slice()),
        Expr::Literal(_) => false,
        Expr::Times(a, b) | Expr::Plus(a, b) | Expr::Minus(a, b) => {
            has_free(a, var) || has_free(b, var)
        }
        Expr::Negate(body) => has_free(body, var),
        Expr::Sum { var: over, body } => var != u64::from(*over) && has_free(body, var),
    }
}

/// Whether each variable of an access is one of so many.
fn uses_below(e: &Expr, count: u64) -> bool
    ensures { result ≡ are_in_range count (used_vars (tree_of e.now)) }
{
    match e {
        Expr::Access { vars, .. } => are_below(vars.as_slice(), count),
        Expr::Literal(_) => true,
        Expr::Times(a, b) | Expr::Plus(a, b) | Expr::Minus(a, b) => {
            uses_below(a, count) && uses_below(b, count)
        }
        Expr::Negate(body) | Expr::Sum { body, .. } => uses_below(body, count),
    }
}

/// Appends the variables of the sums in an expression, an inner one before an outer one.
fn append_bound(vars: &mut Nums, e: &Expr) -> Result<(), AllocError>
    ensures { OnOk result (vars.new ≡ vars.old ++ bound_vars (tree_of e.now)) }
{
    match e {
        Expr::Access { .. } | Expr::Literal(_) => Ok(()),
        Expr::Times(a, b) | Expr::Plus(a, b) | Expr::Minus(a, b) => {
            append_bound(vars, a)?;
            append_bound(vars, b)
        }
        Expr::Negate(body) => append_bound(vars, body),
        Expr::Sum { var, body } => {
            append_bound(vars, body)?;
            vars.push(u64::from(*var))
        }
    }
}

/// The variables of the sums in an expression, an inner one before an outer one.
pub fn bound_vars(alloc: Global, e: &Expr) -> Result<Nums, AllocError>
    ensures { IfOk result (λ vars. vars ≡ bound_vars (tree_of e.now)) }
{
    let mut vars = Nums::new(alloc);
    append_bound(&mut vars, e)?;
    Ok(vars)
}

fn are_apart(vars: &[u64], others: &[u64]) -> bool
    ensures { result ≡ are_apart vars.now others.now }
{
    vars.iter().all(|v| !is_in(*v, others))
}

/// Whether these variables stand only inside sums over them.
fn are_inside(vars: &[u64], e: &Expr) -> bool
    ensures { result ≡ are_apart vars.now (free_vars (tree_of e.now)) }
{
    vars.iter().all(|v| !has_free(e, *v))
}

/// Whether a variable is in an access of an expression, not on the left and not among those of its sums.
fn is_implied(left: &[u64], bound: &[u64], e: &Expr, var: u64) -> bool
    requires { bound.now ≡ bound_vars (tree_of e.now) }
    ensures { result ≡ is_implied left.now (tree_of e.now) var }
{
    has(e, var) && !is_in(var, left) && !is_in(var, bound)
}

fn implied(
    alloc: Global,
    count: u64,
    left: &[u64],
    bound: &[u64],
    e: &Expr,
) -> Result<Vec<u64>, AllocError>
    requires { bound.now ≡ bound_vars (tree_of e.now) }
    ensures { IfOk result (λ vars. vars.items ≡ implied_of count left.now (tree_of e.now)) }
{
    (0..count)
        .filter(|v| is_implied(left, bound, e, *v))
        .collect(alloc)
}

/// The implied variables of an expression among so many, ascending: those of its accesses that are neither on the left nor
/// those of a sum in it.
pub fn implied_vars(alloc: Global, count: u64, left: &[u64], e: &Expr) -> Result<Nums, AllocError>
    ensures { IfOk result (λ vars. vars ≡ implied_of count left.now (tree_of e.now)) }
{
    let bound = bound_vars(alloc, e)?;
    let vars = implied(alloc, count, left, bound.as_slice(), e)?;
    Ok(Nums::from_vec(vars))
}

/// Whether the variables of a top-level term are in range, those of its sums are each that of one sum, not on the left and
/// only inside it, and its implied variables are those that are to be implied.
pub fn top_fits(alloc: Global, count: u64, left: &[u64], top: &Top) -> Result<bool, AllocError>
    ensures { IfOk result (λ fits. fits ≡ top_fits count left.now top.now) }
{
    let bound = bound_vars(alloc, &top.body)?;
    let bound = bound.as_slice();
    let implied = implied_vars(alloc, count, left, &top.body)?;
    Ok(
        uses_below(&top.body, count)
            && are_below(bound, count)
            && distinct(bound)
            && are_apart(bound, left)
            && are_inside(bound, &top.body)
            && same_vars(top.implied.as_slice(), implied.as_slice()),
    )
}
