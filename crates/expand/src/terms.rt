//! The terms of expressions.

ghost use Rattle.std.specs.Prelude.{◌≡◌, ◌<◌, ◌≤◌, ℕ, IsOk, [], ◌∷◌, ◌++◌, length, true, false, IfOk, OnOk, IsErrOf};
ghost use Rattle.std.specs.List.{flat_map};
ghost use mathlib.Core.List.{map};
ghost use Rattle.sam_model.specs.Trees.{tree_of};
ghost use Rattle.sam_model.specs.Expressions.{turned_term, joined_term, summed_term, expanded, summed_over, with_sign, expanded_tops};
ghost use Rattle.expand.specs.Counting.{is_long, have_long, top_terms};

use crate::copies::{append_factors, copied_vars};
use crate::faults::TermFault;
use sam_base::{FACTORS_MOST, Items, Nums};
use sam_model::{Expr, Factor, Term, Top, item_at, term_has};
use std::alloc::{AllocError, Global};

/// The positive term of a single factor.
fn single(alloc: Global, factor: Factor) -> Result<Vec<Term>, AllocError>
    ensures { IfOk result (λ terms. terms.items ≡ record { minus = false; factors = factor ∷ [] } ∷ []) }
{
    let mut factors = Items::new(alloc);
    factors.push(factor)?;
    let mut terms = Vec::new(alloc);
    terms.push(Term {
        minus: false,
        factors,
    })?;
    Ok(terms)
}

/// The product of two terms.
fn joined(alloc: Global, left: &Term, right: &Term) -> Result<Term, TermFault>
    requires left { is_long left.now ≡ false }
    requires right { is_long right.now ≡ false }
    ensures made { IfOk result (λ term. term ≡ joined_term left.now right.now) }
    ensures short { IsOk result → is_long (joined_term left.now right.now) ≡ false }
    ensures long { IsErrOf result TermFault.Long → is_long (joined_term left.now right.now) ≡ true }
{
    if FACTORS_MOST < left.factors.len() + right.factors.len() {
        return Err(TermFault::Long);
    }
    let mut factors = Items::new(alloc);
    append_factors(alloc, &mut factors, left.factors.as_slice())?;
    append_factors(alloc, &mut factors, right.factors.as_slice())?;
    Ok(Term {
        minus: left.minus != right.minus,
        factors,
    })
}

/// Appends the products of a term with each of several.
fn append_row(
    alloc: Global,
    left: &Term,
    rights: &[Term],
    terms: &mut Vec<Term>,
) -> Result<(), TermFault>
    requires left { is_long left.now ≡ false }
    requires rights { have_long rights.now ≡ false }
    ensures made { OnOk result (terms.new.items ≡ terms.old.items ++ map (joined_term left.now) rights.now) }
    ensures short { IsOk result → have_long (map (joined_term left.now) rights.now) ≡ false }
    ensures long { IsErrOf result TermFault.Long → have_long (map (joined_term left.now) rights.now) ≡ true }
{
    match rights {
        [] => Ok(()),
        [first, rest @ ..] => {
            terms.push(joined(alloc, left, first)?)?;
            append_row(alloc, left, rest, terms)
        }
    }
}

/// Appends the products of each of some terms with each of others.
fn append_products(
    alloc: Global,
    lefts: &[Term],
    rights: &[Term],
    terms: &mut Vec<Term>,
) -> Result<(), TermFault>
    requires lefts { have_long lefts.now ≡ false }
    requires rights { have_long rights.now ≡ false }
    ensures made { OnOk result (terms.new.items ≡ terms.old.items ++ flat_map (λ t. map (joined_term t) rights.now) lefts.now) }
    ensures short { IsOk result → have_long (flat_map (λ t. map (joined_term t) rights.now) lefts.now) ≡ false }
    ensures long { IsErrOf result TermFault.Long → have_long (flat_map (λ t. map (joined_term t) rights.now) lefts.now) ≡ true }
{
    match lefts {
        [] => Ok(()),
        [first, rest @ ..] => {
            append_row(alloc, first, rights, terms)?;
            append_products(alloc, rest, rights, terms)
        }
    }
}

/// The terms with their signs turned.
fn turned(mut terms: Vec<Term>) -> Vec<Term>
    ensures { result.items ≡ map turned_term terms.items }
{
    for term in terms.iter_mut() {
        term.minus = !term.minus;
    }
    terms
}

/// A term summed over a variable: where no access has it, there is one more literal, the size.
fn sum_term(term: &mut Term, var: u64, sizes: &[u64]) -> Result<(), TermFault>
    requires short { is_long term.old ≡ false }
    ensures made { OnOk result (term.new ≡ summed_term sizes.now var term.old) }
    ensures short { IsOk result → is_long (summed_term sizes.now var term.old) ≡ false }
    ensures long { IsErrOf result TermFault.Long → is_long (summed_term sizes.now var term.old) ≡ true }
{
    if term_has(term, var) {
        return Ok(());
    }
    if FACTORS_MOST <= term.factors.len() {
        return Err(TermFault::Long);
    }
    term.factors.push(Factor::Literal(item_at(sizes, var)))?;
    Ok(())
}

/// The terms summed over a variable.
fn summed(mut terms: Vec<Term>, var: u64, sizes: &[u64]) -> Result<Vec<Term>, TermFault>
    requires short { have_long terms.items ≡ false }
    ensures made { IfOk result (λ made. made.items ≡ map (summed_term sizes.now var) terms.items) }
    ensures short { IsOk result → have_long (map (summed_term sizes.now var) terms.items) ≡ false }
    ensures long { IsErrOf result TermFault.Long → have_long (map (summed_term sizes.now var) terms.items) ≡ true }
{
    for term in terms.iter_mut() {
        sum_term(term, var, sizes)?;
    }
    Ok(terms)
}

/// The terms of a product, from those of its sides.
fn products(alloc: Global, lefts: Vec<Term>, rights: Vec<Term>) -> Result<Vec<Term>, TermFault>
    requires lefts { have_long lefts.items ≡ false }
    requires rights { have_long rights.items ≡ false }
    ensures made { IfOk result (λ terms. terms.items ≡ flat_map (λ t. map (joined_term t) rights.items) lefts.items) }
    ensures short { IsOk result → have_long (flat_map (λ t. map (joined_term t) rights.items) lefts.items) ≡ false }
    ensures long { IsErrOf result TermFault.Long → have_long (flat_map (λ t. map (joined_term t) rights.items) lefts.items) ≡ true }
{
    let mut terms = Vec::new(alloc);
    append_products(alloc, lefts.as_slice(), rights.as_slice(), &mut terms)?;
    Ok(terms)
}

/// The terms of both lists.
fn both(mut terms: Vec<Term>, mut more: Vec<Term>) -> Result<Vec<Term>, AllocError>
    ensures { IfOk result (λ all. all.items ≡ terms.items ++ more.items) }
{
    terms.append(&mut more)?;
    Ok(terms)
}

/// The terms of an expression.
fn terms_of(alloc: Global, e: &Expr, sizes: &[u64]) -> Result<Vec<Term>, TermFault>
    ensures made { IfOk result (λ terms. terms.items ≡ expanded sizes.now (tree_of e.now)) }
    ensures short { IsOk result → have_long (expanded sizes.now (tree_of e.now)) ≡ false }
    ensures long { IsErrOf result TermFault.Long → have_long (expanded sizes.now (tree_of e.now)) ≡ true }
{
    match e {
        Expr::Access { tensor, vars } => {
            let vars = copied_vars(alloc, vars)?;
            Ok(single(
                alloc,
                Factor::Access {
                    tensor: *tensor,
                    vars,
                },
            )?)
        }
        Expr::Literal(number) => Ok(single(alloc, Factor::Literal(*number))?),
        Expr::Times(a, b) => {
            let lefts = terms_of(alloc, a, sizes)?;
            products(alloc, lefts, terms_of(alloc, b, sizes)?)
        }
        Expr::Plus(a, b) => {
            let terms = terms_of(alloc, a, sizes)?;
            Ok(both(terms, terms_of(alloc, b, sizes)?)?)
        }
        Expr::Minus(a, b) => {
            let terms = terms_of(alloc, a, sizes)?;
            Ok(both(terms, turned(terms_of(alloc, b, sizes)?))?)
        }
        Expr::Negate(body) => Ok(turned(terms_of(alloc, body, sizes)?)),
        Expr::Sum { var, body } => { summed(terms_of(alloc, body, sizes)?, u64::from(*var), sizes) }
    }
}

/// The terms summed over several variables, of which the first is innermost.
fn summed_over(terms: Vec<Term>, vars: &[u64], sizes: &[u64]) -> Result<Vec<Term>, TermFault>
    requires short { have_long terms.items ≡ false }
    ensures made { IfOk result (λ made. made.items ≡ summed_over sizes.now vars.now terms.items) }
    ensures short { IsOk result → have_long (summed_over sizes.now vars.now terms.items) ≡ false }
    ensures long { IsErrOf result TermFault.Long → have_long (summed_over sizes.now vars.now terms.items) ≡ true }
{
    match vars {
        [] => Ok(terms),
        [first, rest @ ..] => summed_over(summed(terms, *first, sizes)?, rest, sizes),
    }
}

/// The terms of a top-level term.
fn top_terms(alloc: Global, top: &Top, sizes: &[u64]) -> Result<Vec<Term>, TermFault>
    ensures made { IfOk result (λ terms. terms.items ≡ top_terms sizes.now top.now) }
    ensures short { IsOk result → have_long (top_terms sizes.now top.now) ≡ false }
    ensures long { IsErrOf result TermFault.Long → have_long (top_terms sizes.now top.now) ≡ true }
{
    let terms = terms_of(alloc, &top.body, sizes)?;
    let terms = summed_over(terms, top.implied.as_slice(), sizes)?;
    Ok(if top.minus { turned(terms) } else { terms })
}

/// The terms of a statement, of which none is too long.
pub fn statement_terms(alloc: Global, tops: &[Top], sizes: &[u64]) -> Result<Vec<Term>, TermFault>
    ensures made { IfOk result (λ terms. terms.items ≡ expanded_tops sizes.now tops.now) }
    ensures short { IsOk result → have_long (expanded_tops sizes.now tops.now) ≡ false }
    ensures long { IsErrOf result TermFault.Long → have_long (expanded_tops sizes.now tops.now) ≡ true }
{
    match tops {
        [] => Ok(Vec::new(alloc)),
        [first, rest @ ..] => {
            let terms = top_terms(alloc, first, sizes)?;
            Ok(both(terms, statement_terms(alloc, rest, sizes)?)?)
        }
    }
}
