//! The graph of a program.

ghost use Rattle.std.specs.Prelude.{◌≡◌, true, IfOk};
ghost use Rattle.sam_model.specs.Program.{accepted};
ghost use Rattle.custard_lower.specs.Lowered.{Lowered};

use crate::lowering::draft;
use crate::wiring::graph_of;
use graph::Graph;
use sam_model::Program;
use std::alloc::{AllocError, Global};

/// The graph of an accepted program: for each term its loops as scanners, intersecters and repeaters, its factors as arrays
/// that are multiplied, its sums as reducers, and droppers of what has no value; from the second term on fillers and unioners
/// that join it to the terms before, and an adder or a subtracter; and the result's writers.
pub fn lower(alloc: Global, p: &Program) -> Result<Graph, AllocError>
    requires { accepted p.now ≡ true }
    ensures { IfOk result (λ g. Lowered p.now g) }
{
    let made = draft(alloc, p)?;
    graph_of(alloc, &made)
}
