//! The graph of a program whose terms are fused.

ghost use Rattle.std.specs.Prelude.{◌≡◌, true, IfOk};
ghost use Rattle.sam_model.specs.Program.{accepted};
ghost use Rattle.custard_fuse.specs.Fused.{Fused};

use crate::fusing::{draft, is_fused, plans};
use custard_lower::{graph_of, lower};
use graph::Graph;
use sam_model::Program;
use std::alloc::{AllocError, Global};

/// The graph of an accepted program, whose terms are united level by level where they are scanned: unioners give the coordinates of
/// all terms with each factor's references, which may be absent; beneath, each term has its arrays, multipliers and reducers, and
/// adders and subtracters join their values; in the end droppers leave out what has no value, and the writers stand.
///
/// It is the graph that `lower` gives where the program has one term or more than 8 access factors, or where some variable of the
/// result comes after another in the loop order, or the result has none.
pub fn fuse(alloc: Global, p: &Program) -> Result<Graph, AllocError>
    requires { accepted p.now ≡ true }
    ensures { IfOk result (λ g. Fused p.now g) }
{
    let plans = plans(alloc, p)?;
    if !is_fused(p, plans.as_slice()) {
        return lower(alloc, p);
    }
    let made = draft(alloc, p, plans.as_slice())?;
    graph_of(alloc, &made)
}
