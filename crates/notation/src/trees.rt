//! Products and sums of what was read.

ghost use Rattle.std.specs.Prelude.{◌≡◌, IfOk, Some};
ghost use Rattle.notation.specs.Trees.{text_tree, product_of, sum_of, signed, added};

use crate::statement::{ExprText, TopText};
use sam_base::Items;
use std::alloc::{AllocError, Global};
use std::marker::Model;

/// A factor that was read.
#[derive(Drop)]
pub(crate) struct Formed {
    pub expr: ExprText,
}

impl Model for Formed {
    ghost use Rattle.notation.specs.Trees.{TextTree, text_tree};
    ghost use Rattle.notation.specs.TreeCode.{text_code};

    ghost Value = { TextTree };

    ghost coded = { text_code };

    ghost view = { λ f. text_tree f.expr };
}

/// The product of factors, of which there is one at least.
pub(crate) fn product(alloc: Global, factors: Items<Formed>) -> Result<ExprText, AllocError>
    ensures { IfOk result (λ e. text_tree e ≡ product_of factors) }
{
    let mut product = None;
    for Formed { expr } in factors.into_vec() {
        product = Some(match product {
            None => expr,
            Some(left) => ExprText::Times(Box::new(alloc, left)?, Box::new(alloc, expr)?),
        });
    }
    Ok(product.unwrap_or(ExprText::Literal(1)))
}

/// A term with its sign.
fn signed(alloc: Global, term: TopText) -> Result<ExprText, AllocError>
    ensures { IfOk result (λ e. text_tree e ≡ signed term) }
{
    if term.minus {
        Ok(ExprText::Negate(Box::new(alloc, term.body)?))
    } else {
        Ok(term.body)
    }
}

/// A sum with one more term.
fn added(alloc: Global, sum: ExprText, term: TopText) -> Result<ExprText, AllocError>
    ensures { IfOk result (λ e. text_tree e ≡ added (text_tree sum) term) }
{
    let minus = term.minus;
    let (left, right) = (Box::new(alloc, sum)?, Box::new(alloc, term.body)?);
    if minus {
        Ok(ExprText::Minus(left, right))
    } else {
        Ok(ExprText::Plus(left, right))
    }
}

/// The sum of terms with their signs, of which there is one at least.
pub(crate) fn sum(alloc: Global, terms: Items<TopText>) -> Result<ExprText, AllocError>
    ensures { IfOk result (λ e. text_tree e ≡ sum_of terms) }
{
    let mut sum = None;
    for term in terms.into_vec() {
        sum = Some(match sum {
            None => signed(alloc, term)?,
            Some(left) => added(alloc, left, term)?,
        });
    }
    Ok(sum.unwrap_or(ExprText::Literal(0)))
}
