//! Which graphs may have a thread for every block.

ghost use Rattle.std.specs.Prelude.{◌≡◌, ◌<◌, ◌^◌, length};
ghost use Rattle.thread_runs.specs.ThreadsFor.{threads_for};

use crate::THREADS_MOST;
use graph::Graph;
use sam_base::Fault;

/// The graph again, where it may have a thread for every block.
///
/// `TooManyBlocks` tells how many blocks it has, where they are more than `THREADS_MOST`.
pub fn threads_for(g: Graph) -> Result<Graph, Fault>
    requires few_blocks { length g.blocks < 2 ^ 32 }
    ensures { result ≡ threads_for g }
{
    let blocks = g.blocks.len();
    if blocks > THREADS_MOST {
        return Err(Fault::TooManyBlocks(blocks as u32));
    }
    Ok(g)
}
