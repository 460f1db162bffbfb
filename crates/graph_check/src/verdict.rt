//! The verdict on a graph that is handed in.

ghost use Rattle.std.specs.Prelude.{◌≡◌, ◌<◌, ◌^◌, true, length, IfOk};
ghost use Rattle.sam_model.specs.Program.{accepted};
ghost use Rattle.graph.specs.Wiring.{WellFormed};
ghost use Rattle.custard_lower.specs.Lowered.{low};
ghost use Rattle.graph_check.specs.declared.verdict.Verdict.TheVariants.{Yes};
ghost use Rattle.graph_check.specs.Laws.{Fulfils};
ghost use Rattle.graph_check.specs.Verdicts.{IsFormedVerdict, IsVerdict, wiring_verdict};

use crate::labels::labels_fault;
use crate::writers::writers_fault;
use graph::Graph;
use graph_wiring::{WiringFault, wiring_fault};
use sam_base::Rule;
use sam_model::Program;
use std::alloc::{AllocError, Global};

/// How many blocks there are at most whose numbers have 32 bits, with that behind them.
const BLOCKS_MOST: usize = 4_294_967_295;

/// Whether a graph computes the tensor of a program, by the rules on graphs.
#[derive(Clone, Copy, Debug, Drop, PartialEq, Eq)]
pub enum Verdict {
    /// It meets all rules.
    Yes,
    /// This is the first rule that it breaks, and it does so at this block, or for stray channels at this channel, and at no
    /// lower number.
    No { rule: Rule, at: u32 },
}

/// The verdict on a well formed graph, by the rules on writers and on labels.
///
/// It takes time in proportion to the blocks, their ports and the channels.
fn formed_verdict(alloc: Global, g: &Graph, p: &Program) -> Result<Verdict, AllocError>
    requires accepted { accepted p.now ≡ true }
    requires few { length g.now.blocks < 2 ^ 32 }
    ensures exact { IfOk result (IsFormedVerdict p.now g.now) }
    ensures fulfils { IfOk result (λ verdict. verdict ≡ Yes → WellFormed g.now → Fulfils p.now g.now) }
    ensures lowered { IfOk result (λ verdict. g.now ≡ low p.now → verdict ≡ Yes) }
{
    if let Some(at) = writers_fault(alloc, p, g)? {
        let rule = Rule::Writers;
        return Ok(Verdict::No { rule, at });
    }
    if let Some(at) = labels_fault(alloc, p, g)? {
        let rule = Rule::Labels;
        return Ok(Verdict::No { rule, at });
    }
    Ok(Verdict::Yes)
}

/// The verdict by a rule on the wiring, where its place fits.
fn wiring_verdict(fault: WiringFault) -> Result<Verdict, AllocError>
    ensures { IfOk result (λ verdict. verdict ≡ wiring_verdict fault) }
{
    let (rule, at) = match fault {
        WiringFault::Ports(block) => (Rule::Ports, block),
        WiringFault::Stray(channel) => (Rule::Stray, channel),
        WiringFault::Cycle(block) => (Rule::Cycle, block),
    };
    match u32::try_from(at) {
        Ok(at) => Ok(Verdict::No { rule, at }),
        Err(_) => Err(AllocError),
    }
}

/// The verdict on a graph: whether it computes the tensor of a program, by the rules on graphs, or the first rule that it breaks and the
/// smallest place where it does.
///
/// A graph that is verified is well formed, and over all entries of the program's tensors its streams fit together, over each channel
/// passes what its label says, and what its writers leave is the program's tensor, in whatever order its blocks move. The graph that the
/// program is lowered to is verified. Not every right graph is: one that joins the terms in another order, or in another way, breaks the
/// rule on labels.
///
/// It takes time in proportion to the blocks, their ports and the channels. A graph with 2^32 blocks is given up as for want of memory.
pub fn verify_graph(alloc: Global, g: &Graph, p: &Program) -> Result<Verdict, AllocError>
    requires { accepted p.now ≡ true }
    ensures exact { IfOk result (IsVerdict p.now g.now) }
    ensures fulfils { IfOk result (λ verdict. verdict ≡ Yes → Fulfils p.now g.now) }
    ensures lowered { IfOk result (λ verdict. g.now ≡ low p.now → verdict ≡ Yes) }
{
    if g.blocks.len() > BLOCKS_MOST {
        return Err(AllocError);
    }
    match wiring_fault(alloc, g)? {
        Some(fault) => wiring_verdict(fault),
        None => formed_verdict(alloc, g, p),
    }
}
