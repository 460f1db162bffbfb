//! Equality of terms.

ghost use Rattle.std.specs.Prelude.{◌≡◌};
ghost use Rattle.sam_model.specs.Lists.{same_list};
ghost use Rattle.sam_model.specs.Program.{same_factor, same_factors, same_term, same_terms};

use sam_model::{Factor, Term};

/// Whether two lists of variables are equal.
pub fn same_vars(a: &[u64], b: &[u64]) -> bool
    ensures { result ≡ same_list a.now b.now }
{
    a == b
}

fn same_factor(a: &Factor, b: &Factor) -> bool
    ensures { result ≡ same_factor a.now b.now }
{
    match (a, b) {
        (
            Factor::Access { tensor, vars },
            Factor::Access {
                tensor: other,
                vars: others,
            },
        ) => tensor == other && same_vars(vars.as_slice(), others.as_slice()),
        (Factor::Literal(number), Factor::Literal(other)) => number == other,
        _ => false,
    }
}

fn same_factors(a: &[Factor], b: &[Factor]) -> bool
    ensures { result ≡ same_factors a.now b.now }
{
    match a {
        [] => b.is_empty(),
        [first, rest @ ..] => match b {
            [] => false,
            [other, others @ ..] => same_factor(first, other) && same_factors(rest, others),
        },
    }
}

fn same_term(a: &Term, b: &Term) -> bool
    ensures { result ≡ same_term a.now b.now }
{
    a.minus == b.minus && same_factors(a.factors.as_slice(), b.factors.as_slice())
}

/// Whether two lists of terms are equal.
pub fn same_terms(a: &[Term], b: &[Term]) -> bool
    ensures { result ≡ same_terms a.now b.now }
{
    match a {
        [] => b.is_empty(),
        [first, rest @ ..] => match b {
            [] => false,
            [other, others @ ..] => same_term(first, other) && same_terms(rest, others),
        },
    }
}
