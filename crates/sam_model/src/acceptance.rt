//! Which programs fit together by their terms.

ghost use Rattle.std.specs.Prelude.{◌≡◌, nat_lt, count_by, slice_index};
ghost use Rattle.std.specs.List.{list_all, list_any};
ghost use Rattle.sam_model.specs.Lists.{below, is_in, items_at};
ghost use Rattle.sam_model.specs.Denote.{has_var};
ghost use Rattle.sam_model.specs.Accepted.{distinct, is_named, distinct_names, is_taken, distinct_tensors, ascending_from, ascending};
ghost use Rattle.sam_model.specs.Accepted.{is_dimension, is_order, is_well_formed, is_operand, declarations_fit};
ghost use Rattle.sam_model.specs.Accepted.{variables_fit, access_fits, tensor_passes, factor_fits, is_access, term_has, terms_have, stands};
ghost use Rattle.sam_model.specs.Accepted.{reduces, factor_reduces, term_fits, statement_fits, fits_by_terms};

use crate::program::{Factor, Program, Term};
use crate::tensors::{Format, Tensor};
use sam_base::{DIMENSION_MOST, FACTORS_MOST, Name, TERMS_MOST, VARIABLES_MOST};

/// Whether a number is one of these.
pub fn is_in(v: u64, vars: &[u64]) -> bool
    ensures { result ≡ is_in v vars.now }
{
    vars.iter().any(|w| v == *w)
}

/// Whether no number stands twice.
pub fn distinct(numbers: &[u64]) -> bool
    ensures { result ≡ distinct numbers.now }
{
    match numbers {
        [] => true,
        [first, rest @ ..] => !is_in(*first, rest) && distinct(rest),
    }
}

/// Whether one of these names is this one.
pub fn is_named(name: &[u8], names: &[Name]) -> bool
    ensures { result ≡ is_named name.now names.now }
{
    names.iter().any(|other| name == other.as_bytes())
}

/// Whether no name stands twice.
pub fn distinct_names(names: &[Name]) -> bool
    ensures { result ≡ distinct_names names.now }
{
    match names {
        [] => true,
        [first, rest @ ..] => !is_named(first.as_bytes(), rest) && distinct_names(rest),
    }
}

/// The number at a place, or 0.
pub fn item_at(numbers: &[u64], place: u64) -> u64
    ensures { result ≡ slice_index numbers.now place }
{
    numbers.get(place as usize).copied().unwrap_or(0)
}

fn ascending_from(last: u64, vars: &[u64], order: &[u64]) -> bool
    ensures { result ≡ ascending_from last (items_at vars.now order.now) }
{
    match order {
        [] => true,
        [first, rest @ ..] => {
            let next = item_at(vars, *first);
            last < next && ascending_from(next, vars, rest)
        }
    }
}

/// Whether the variables stand in loop order when they are listed in storage order.
pub fn ascending(vars: &[u64], order: &[u64]) -> bool
    ensures { result ≡ ascending (items_at vars.now order.now) }
{
    match order {
        [] => true,
        [first, rest @ ..] => ascending_from(item_at(vars, *first), vars, rest),
    }
}

pub fn is_dimension(d: u64) -> bool
    ensures { result ≡ is_dimension d }
{
    1 <= d && d <= DIMENSION_MOST
}

/// Whether each number is below a count.
pub fn are_below(numbers: &[u64], count: u64) -> bool
    ensures { result ≡ list_all (λ m. nat_lt m count) numbers.now }
{
    numbers.iter().all(|m| *m < count)
}

/// Whether these are the modes below a count, each once.
pub fn is_order(count: usize, order: &[u64]) -> bool
    ensures { result ≡ is_order count order.now }
{
    order.len() == count && are_below(order, count as u64) && distinct(order)
}

pub fn are_dimensions(dims: &[u64]) -> bool
    ensures { result ≡ list_all is_dimension dims.now }
{
    dims.iter().all(|d| is_dimension(*d))
}

fn is_well_formed(tensor: &Tensor) -> bool
    ensures { result ≡ is_well_formed tensor.now }
{
    let count = tensor.dims.len();
    count <= VARIABLES_MOST
        && are_dimensions(tensor.dims.as_slice())
        && tensor.formats.len() == count
        && is_order(count, tensor.order.as_slice())
}

fn is_operand(tensor: &Tensor) -> bool
    ensures { result ≡ is_operand tensor.now }
{
    1 <= tensor.dims.len() && is_well_formed(tensor)
}

/// Whether there are as many variables as dimensions, each in range and of the size of its dimension.
fn variables_fit(sizes: &[u64], dims: &[u64], vars: &[u64]) -> bool
    ensures { result ≡ variables_fit sizes.now dims.now vars.now }
{
    match dims {
        [] => match vars {
            [] => true,
            [_, ..] => false,
        },
        [d, dims @ ..] => match vars {
            [] => false,
            [v, vars @ ..] => {
                *v < sizes.len() as u64
                    && item_at(sizes, *v) == *d
                    && variables_fit(sizes, dims, vars)
            }
        },
    }
}

/// Whether the variables of an access fit its tensor, none stands twice, and in storage order they stand in loop order.
fn access_fits(sizes: &[u64], vars: &[u64], tensor: &Tensor) -> bool
    ensures { result ≡ access_fits sizes.now vars.now tensor.now }
{
    variables_fit(sizes, tensor.dims.as_slice(), vars)
        && distinct(vars)
        && ascending(vars, tensor.order.as_slice())
}

/// Whether an access of a tensor, by its number, is in range and fits.
fn numbered_fits(tensors: &[Tensor], number: usize, sizes: &[u64], vars: &[u64]) -> bool
    ensures { result ≡ tensor_passes (access_fits sizes.now vars.now) tensors.now number }
{
    if number < tensors.len() {
        access_fits(sizes, vars, &tensors[number])
    } else {
        false
    }
}

fn factor_fits(tensors: &[Tensor], sizes: &[u64], factor: &Factor) -> bool
    ensures { result ≡ factor_fits tensors.now sizes.now factor.now }
{
    match factor {
        Factor::Access { tensor, vars } => {
            numbered_fits(tensors, *tensor as usize, sizes, vars.as_slice())
        }
        Factor::Literal(_) => true,
    }
}

fn factors_fit(tensors: &[Tensor], sizes: &[u64], factors: &[Factor]) -> bool
    ensures { result ≡ list_all (factor_fits tensors.now sizes.now) factors.now }
{
    factors
        .iter()
        .all(|factor| factor_fits(tensors, sizes, factor))
}

fn is_access(factor: &Factor) -> bool
    ensures { result ≡ is_access factor.now }
{
    match factor {
        Factor::Access { .. } => true,
        Factor::Literal(_) => false,
    }
}

/// Whether one of these factors is an access.
pub fn has_access(factors: &[Factor]) -> bool
    ensures { result ≡ list_any is_access factors.now }
{
    factors.iter().any(|factor| is_access(factor))
}

fn has_var(v: u64, factor: &Factor) -> bool
    ensures { result ≡ has_var v factor.now }
{
    match factor {
        Factor::Access { vars, .. } => is_in(v, vars.as_slice()),
        Factor::Literal(_) => false,
    }
}

/// Whether an access of a term has a variable.
pub fn term_has(term: &Term, v: u64) -> bool
    ensures { result ≡ term_has term.now v }
{
    term.factors
        .as_slice()
        .iter()
        .any(|factor| has_var(v, factor))
}

fn has_all(term: &Term, left: &[u64]) -> bool
    ensures { result ≡ list_all (term_has term.now) left.now }
{
    left.iter().all(|v| term_has(term, *v))
}

fn count_after(left: &[u64], v: u64) -> usize
    ensures { result ≡ count_by (nat_lt v) left.now }
{
    left.iter().filter(|w| v < **w).count()
}

/// Whether at most two variables of the left come after a variable, unless it is on the left itself.
pub fn reduces(left: &[u64], v: u64) -> bool
    ensures { result ≡ reduces left.now v }
{
    is_in(v, left) || count_after(left, v) <= 2
}

fn factor_reduces(left: &[u64], factor: &Factor) -> bool
    ensures { result ≡ factor_reduces left.now factor.now }
{
    match factor {
        Factor::Access { vars, .. } => vars.as_slice().iter().all(|v| reduces(left, *v)),
        Factor::Literal(_) => true,
    }
}

fn factors_reduce(left: &[u64], factors: &[Factor]) -> bool
    ensures { result ≡ list_all (factor_reduces left.now) factors.now }
{
    factors.iter().all(|factor| factor_reduces(left, factor))
}

/// Whether a term has one to eight factors that fit, an access, each variable of the left, and no reduction too deep.
fn term_fits(tensors: &[Tensor], sizes: &[u64], left: &[u64], term: &Term) -> bool
    ensures { result ≡ term_fits tensors.now sizes.now left.now term.now }
{
    let factors = term.factors.as_slice();
    1 <= factors.len()
        && factors.len() <= FACTORS_MOST
        && factors_fit(tensors, sizes, factors)
        && has_access(factors)
        && has_all(term, left)
        && factors_reduce(left, factors)
}

fn terms_fit(tensors: &[Tensor], sizes: &[u64], left: &[u64], terms: &[Term]) -> bool
    ensures { result ≡ list_all (term_fits tensors.now sizes.now left.now) terms.now }
{
    terms
        .iter()
        .all(|term| term_fits(tensors, sizes, left, term))
}

fn terms_have(terms: &[Term], v: u64) -> bool
    ensures { result ≡ terms_have terms.now v }
{
    terms.iter().any(|term| term_has(term, v))
}

/// Whether a variable stands in the statement.
fn stands(left: &[u64], terms: &[Term], v: u64) -> bool
    ensures { result ≡ stands left.now terms.now v }
{
    is_in(v, left) || terms_have(terms, v)
}

fn all_stand(left: &[u64], terms: &[Term], count: usize) -> bool
    ensures { result ≡ list_all (stands left.now terms.now) (below count) }
{
    for v in 0..count {
        if !stands(left, terms, v as u64) {
            return false;
        }
    }
    true
}

pub fn is_taken(name: &[u8], tensors: &[Tensor]) -> bool
    ensures { result ≡ is_taken name.now tensors.now }
{
    tensors.iter().any(|tensor| name == tensor.name.as_bytes())
}

fn distinct_tensors(tensors: &[Tensor]) -> bool
    ensures { result ≡ distinct_tensors tensors.now }
{
    for i in 0..tensors.len() {
        if is_taken(tensors[i].name.as_bytes(), &tensors[i + 1..]) {
            return false;
        }
    }
    true
}

/// Whether the statement of a program fits its tensors and its loops: there are one to sixteen terms and at most eight
/// variables, each of which stands in the statement; each access fits its tensor, in loop order; each term has an access
/// and each variable of the left side; and at most two variables of the left come after one that is summed over.
pub fn statement_fits(p: &Program) -> bool
    ensures { result ≡ statement_fits p.now }
{
    let left = p.left.as_slice();
    let sizes = p.var_sizes.as_slice();
    let terms = p.terms.as_slice();
    p.var_names.len() == sizes.len()
        && sizes.len() <= VARIABLES_MOST
        && distinct_names(p.var_names.as_slice())
        && all_stand(left, terms, sizes.len())
        && access_fits(sizes, left, &p.result)
        && 1 <= terms.len()
        && terms.len() <= TERMS_MOST
        && terms_fit(p.tensors.as_slice(), sizes, left, terms)
}

fn are_operands(tensors: &[Tensor]) -> bool
    ensures { result ≡ list_all is_operand tensors.now }
{
    tensors.iter().all(|tensor| is_operand(tensor))
}

fn declarations_fit(p: &Program) -> bool
    ensures { result ≡ declarations_fit p.now.tensors p.now.result }
{
    let tensors = p.tensors.as_slice();
    are_operands(tensors)
        && is_well_formed(&p.result)
        && distinct_tensors(tensors)
        && !is_taken(p.result.name.as_bytes(), tensors)
}

/// Whether a program fits together by its terms: its tensors and its result are well formed and have different names, and its
/// left side and its terms fit them.
pub fn fits_by_terms(p: &Program) -> bool
    ensures { result ≡ fits_by_terms p.now }
{
    declarations_fit(p) && statement_fits(p)
}
