//! Which programs are accepted.

ghost use Rattle.std.specs.Prelude.{◌≡◌, length, IfOk};
ghost use Rattle.std.specs.List.{list_all};
ghost use Rattle.sam_model.specs.Expressions.{expanded_tops};
ghost use Rattle.sam_model.specs.Scopes.{top_fits};
ghost use Rattle.sam_model.specs.Program.{accepted};

use crate::equality::same_terms;
use crate::faults::ExpandFault;
use crate::scopes::top_fits;
use crate::statements::expand;
use sam_model::{Program, Top, fits_by_terms};
use std::alloc::{AllocError, Global};

fn all_fit(alloc: Global, count: u64, left: &[u64], tops: &[Top]) -> Result<bool, AllocError>
    ensures { IfOk result (λ fit. fit ≡ list_all (top_fits count left.now) tops.now) }
{
    match tops {
        [] => Ok(true),
        [first, rest @ ..] => {
            Ok(top_fits(alloc, count, left, first)? && all_fit(alloc, count, left, rest)?)
        }
    }
}

/// Whether a program is accepted: it fits together by its terms, these are what its top-level terms expand to, and its
/// top-level terms fit its left side.
pub fn accepted(alloc: Global, p: &Program) -> Result<bool, AllocError>
    ensures { IfOk result (λ is_accepted. is_accepted ≡ accepted p.now) }
{
    if !fits_by_terms(p) {
        return Ok(false);
    }
    let terms = match expand(alloc, &p.tops, &p.var_sizes) {
        Ok(terms) => terms,
        Err(ExpandFault::OutOfMemory) => return Err(AllocError),
        Err(ExpandFault::Terms) => return Ok(false),
        Err(ExpandFault::Factors) => return Ok(false),
    };
    if !same_terms(p.terms.as_slice(), terms.as_slice()) {
        return Ok(false);
    }
    let count = p.var_sizes.len() as u64;
    all_fit(alloc, count, p.left.as_slice(), p.tops.as_slice())
}
