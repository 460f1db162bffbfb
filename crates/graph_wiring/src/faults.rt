//! The first of the rules on blocks and channels that a graph breaks.

ghost use Rattle.std.specs.Prelude.{◌≡◌, None, IfOk};
ghost use Rattle.graph.specs.Wiring.{WellFormed};
ghost use Rattle.graph_wiring.specs.Faults.{IsWiringFault};

use crate::cycles::first_on_cycle;
use graph::{Graph, misfit_block, stray_channel};
use std::alloc::{AllocError, Global};

/// A rule on the wiring of a graph that a graph breaks, and the first block or channel at which it does.
#[derive(Clone, Copy, Debug, Drop, PartialEq, Eq)]
pub enum WiringFault {
    /// This block hasn't its kind's numbers of ports, or has a port whose channel is out of range or doesn't name it back.
    Ports(usize),
    /// This channel isn't listed at one of the two ports that it names.
    Stray(usize),
    /// From this block channels lead back to it.
    Cycle(usize),
}

/// The first rule on its wiring that a graph breaks, in the order in which `WiringFault` has them.
///
/// It takes time in proportion to the blocks, their ports and the channels.
pub fn wiring_fault(alloc: Global, g: &Graph) -> Result<Option<WiringFault>, AllocError>
    ensures exact { IfOk result (IsWiringFault g.now) }
    ensures formed { IfOk result (λ fault. fault ≡ None → WellFormed g.now) }
{
    if let Some(b) = misfit_block(g) {
        return Ok(Some(WiringFault::Ports(b)));
    }
    if let Some(c) = stray_channel(g) {
        return Ok(Some(WiringFault::Stray(c)));
    }
    if let Some(b) = first_on_cycle(alloc, g)? {
        return Ok(Some(WiringFault::Cycle(b)));
    }
    Ok(None)
}
