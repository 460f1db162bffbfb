//! The graph that a command speaks of.

ghost use Rattle.std.specs.Prelude.{◌≡◌, true, IfOk};
ghost use Rattle.sam_model.specs.Program.{accepted};
ghost use Rattle.sam_cmd.specs.Chosen.{IsChosen};

use custard_fuse::fuse;
use custard_lower::lower;
use graph::Graph;
use sam_model::Program;
use std::alloc::{AllocError, Global};
use words::Lowering;

/// The graph of a program by the lowering that the words choose.
pub(crate) fn chosen_graph(
    alloc: Global,
    lowering: Lowering,
    p: &Program,
) -> Result<Graph, AllocError>
    requires { accepted p.now ≡ true }
    ensures { IfOk result (IsChosen lowering p.now) }
{
    match lowering {
        Lowering::Plain => lower(alloc, p),
        Lowering::Fused => fuse(alloc, p),
    }
}
