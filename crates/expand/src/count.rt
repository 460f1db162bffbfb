//! How many terms a statement has, counted to one more than it may have.

ghost use Rattle.std.specs.Prelude.{◌≡◌, min};
ghost use Rattle.sam_model.specs.Trees.{tree_of};
ghost use Rattle.expand.specs.Counting.{term_count, terms_count};

use sam_base::TERMS_MOST;
use sam_model::{Expr, Top};

const ENOUGH: usize = TERMS_MOST + 1;

fn term_count(e: &Expr) -> usize
    ensures { result ≡ min (term_count (tree_of e.now)) ENOUGH }
{
    match e {
        Expr::Access { .. } | Expr::Literal(_) => 1,
        Expr::Times(a, b) => (term_count(a) * term_count(b)).min(ENOUGH),
        Expr::Plus(a, b) | Expr::Minus(a, b) => (term_count(a) + term_count(b)).min(ENOUGH),
        Expr::Negate(body) | Expr::Sum { body, .. } => term_count(body),
    }
}

/// The number of terms, or 17 where there are more.
pub fn terms_count(tops: &[Top]) -> usize
    ensures { result ≡ min (terms_count tops.now) ENOUGH }
{
    match tops {
        [] => 0,
        [first, rest @ ..] => (term_count(&first.body) + terms_count(rest)).min(ENOUGH),
    }
}
