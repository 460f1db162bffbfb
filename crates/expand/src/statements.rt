//! The expansion of a statement.

ghost use Rattle.std.specs.Prelude.{◌≡◌, IfOk, IfErr};
ghost use Rattle.sam_model.specs.Expressions.{expanded_tops};
ghost use Rattle.expand.specs.Counting.{IsShort, Refused};
ghost use Rattle.expand.specs.Meaning.{KeepsMeaning};

use crate::count::terms_count;
use crate::faults::{ExpandFault, TermFault};
use crate::terms::statement_terms;
use sam_base::{Items, Nums, TERMS_MOST};
use sam_model::{Term, Top};
use std::alloc::Global;

/// The terms that the top-level terms of a statement expand to, in the order of its text, where `sizes` has the size of each
/// variable. A product is expanded over the terms of both sides, signs are multiplied, and a sum over a variable multiplies
/// a term of which no access has it by the variable's size.
///
/// There are at most 16 terms of at most 8 factors. `Terms` is answered where there are more terms, and `Factors` where there
/// aren't, but one has more factors.
pub fn expand(alloc: Global, tops: &Items<Top>, sizes: &Nums) -> Result<Items<Term>, ExpandFault>
    ensures expanded { IfOk result (λ terms. terms ≡ expanded_tops sizes.now tops.now) }
    ensures meaning { IfOk result (λ terms. KeepsMeaning sizes.now tops.now terms) }
    ensures short { IfOk result (λ terms. IsShort terms) }
    ensures refused { IfErr result (λ fault. Refused (expanded_tops sizes.now tops.now) fault) }
{
    if TERMS_MOST < terms_count(tops.as_slice()) {
        return Err(ExpandFault::Terms);
    }
    match statement_terms(alloc, tops.as_slice(), sizes.as_slice()) {
        Ok(terms) => Ok(Items::from_vec(terms)),
        Err(TermFault::Long) => Err(ExpandFault::Factors),
        Err(TermFault::OutOfMemory) => Err(ExpandFault::OutOfMemory),
    }
}
