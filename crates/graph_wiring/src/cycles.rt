//! The first block from which channels lead back to it.

ghost use Rattle.std.specs.Prelude.{◌≡◌, ◌<◌, ◌↔◌, ℕ, None, length, IfOk, IsTrue};
ghost use Rattle.graph.specs.Wiring.{Rises};
ghost use Rattle.graph.specs.Joined.{IsJoined};
ghost use Rattle.graph_wiring.specs.Leading.{FirstOnCycle};
ghost use Rattle.graph_wiring.specs.Topping.{KeepsTop};

use crate::ports::receiver;
use crate::search::closing_order;
use crate::tops::tops;
use graph::Graph;
use std::alloc::{AllocError, Global};

/// Whether a channel leads from a block to one of the same top.
fn keeps_top(g: &Graph, tops: &[Option<usize>], b: usize) -> bool
    requires joined { IsJoined g.now }
    requires number { length tops.now ≡ length g.now.blocks }
    requires block { b < length g.now.blocks }
    ensures { IsTrue result ↔ KeepsTop g.now tops.now b }
{
    for port in 0..g.block(b).outs.len() {
        if tops[receiver(g, b, port)] == tops[b] {
            return true;
        }
    }
    false
}

/// The first block from which channels lead back to it.
///
/// Blocks that lead to one another are those that reach the same latest block in the order in which a search of the graph is done
/// with blocks (Kosaraju's and Sharir's way to find the components). It takes time in proportion to the blocks and channels.
pub(crate) fn first_on_cycle(alloc: Global, g: &Graph) -> Result<Option<usize>, AllocError>
    requires { IsJoined g.now }
    ensures first { IfOk result (FirstOnCycle g.now) }
    ensures forwards { IfOk result (λ found. found ≡ None → (rank : ℕ → ℕ) × Rises g.now rank) }
{
    let order = closing_order(alloc, g)?;
    let tops = tops(alloc, g, order.as_slice())?;
    for b in 0..g.blocks.len() {
        if keeps_top(g, tops.as_slice(), b) {
            return Ok(Some(b));
        }
    }
    Ok(None)
}
