//! A search of a graph forwards along its channels, and the order in which it is done with blocks.

ghost use Rattle.std.specs.Prelude.{◌≡◌, ◌<◌, ◌≤◌, ◌-◌, ◌↔◌, ℕ, [], length, get_or, IfOk, IsTrue};
ghost use Rattle.std.specs.List.{sum_by};
ghost use Rattle.graph.specs.Wiring.{block};
ghost use Rattle.graph.specs.Joined.{IsJoined};
ghost use Rattle.graph_wiring.specs.declared.search.Progress.TheVariants.{Fresh};
ghost use Rattle.graph_wiring.specs.Leading.{Reaches};
ghost use Rattle.graph_wiring.specs.Searching.{receiver, at, steps_of, IsMet, IsSearch, StayMet, IsClosing};

use crate::ports::receiver;
use graph::Graph;
use std::alloc::{AllocError, Global};

/// How far the search is with a block.
#[derive(Clone, Copy, Debug, Drop, PartialEq, Eq)]
enum Progress {
    Fresh,
    /// The receivers at the output ports before this one are met.
    Open(usize),
    Done,
}

/// A search that follows channels as far as it can before it tries the next.
#[derive(Drop)]
struct Search {
    /// How far each block is.
    progress: Vec<Progress>,
    /// The blocks that are open, each of which leads to the next.
    stack: Vec<usize>,
    /// The blocks that are done.
    order: Vec<usize>,
}

impl Search {
    fn is_fresh(&self, b: usize) -> bool
        requires { b < length self.now.progress.items }
        ensures { IsTrue result ↔ (at self.now.progress.items b ≡ Fresh) }
    {
        matches!(self.progress[b], Progress::Fresh)
    }

    /// The first output port of a block, from one on, whose receiver is fresh, or the number of its ports.
    fn fresh_port(&self, g: &Graph, b: usize, from: usize) -> usize
        requires joined { IsJoined g.now }
        requires number { length self.now.progress.items ≡ length g.now.blocks }
        requires block { b < length g.now.blocks }
        requires port { from ≤ length (block g.now b).outs }
        ensures onwards { from ≤ result }
        ensures within { result ≤ length (block g.now b).outs }
        ensures past { (p : ℕ) → from ≤ p → p < result → IsMet self.now.progress.items (receiver g.now b p) }
        ensures fresh { result < length (block g.now b).outs → at self.now.progress.items (receiver g.now b result) ≡ Fresh }
    {
        let ports = g.block(b).outs.len();
        for port in from..ports {
            if self.is_fresh(receiver(g, b, port)) {
                return port;
            }
        }
        ports
    }

    /// Opens a fresh block to which every open block leads.
    fn enter(&mut self, g: &Graph, b: usize) -> Result<(), AllocError>
        requires kept { IsSearch g.now self.old.stack.items self.old.order.items self.old.progress.items }
        requires block { b < length g.now.blocks }
        requires fresh { at self.old.progress.items b ≡ Fresh }
        requires led { (i : ℕ) → i < length self.old.stack.items → Reaches g.now (get_or self.old.stack.items i 0) b }
        ensures kept { IfOk result (λ _. IsSearch g.now self.new.stack.items self.new.order.items self.new.progress.items) }
        ensures met { IfOk result (λ _. StayMet self.old.progress.items self.new.progress.items) }
        ensures here { IfOk result (λ _. IsMet self.new.progress.items b) }
        ensures less { IfOk result (λ _. sum_by steps_of self.new.progress.items < sum_by steps_of self.old.progress.items) }
    {
        self.stack.push(b)?;
        self.progress[b] = Progress::Open(0);
        Ok(())
    }

    /// Is done with the last open block, whose receivers are all met.
    fn leave(&mut self, g: &Graph, b: usize) -> Result<(), AllocError>
        requires kept { IsSearch g.now self.old.stack.items self.old.order.items self.old.progress.items }
        requires some { 0 < length self.old.stack.items }
        requires last { b ≡ get_or self.old.stack.items (length self.old.stack.items - 1) 0 }
        requires met { (p : ℕ) → p < length (block g.now b).outs → IsMet self.old.progress.items (receiver g.now b p) }
        ensures kept { IfOk result (λ _. IsSearch g.now self.new.stack.items self.new.order.items self.new.progress.items) }
        ensures met { IfOk result (λ _. StayMet self.old.progress.items self.new.progress.items) }
        ensures less { IfOk result (λ _. sum_by steps_of self.new.progress.items < sum_by steps_of self.old.progress.items) }
    {
        self.stack.pop();
        self.order.push(b)?;
        self.progress[b] = Progress::Done;
        Ok(())
    }

    /// Goes on from the last open block to a fresh one, or is done with it.
    fn step(&mut self, g: &Graph) -> Result<(), AllocError>
        requires joined { IsJoined g.now }
        requires kept { IsSearch g.now self.old.stack.items self.old.order.items self.old.progress.items }
        requires some { 0 < length self.old.stack.items }
        ensures kept { IfOk result (λ _. IsSearch g.now self.new.stack.items self.new.order.items self.new.progress.items) }
        ensures met { IfOk result (λ _. StayMet self.old.progress.items self.new.progress.items) }
        ensures less { IfOk result (λ _. sum_by steps_of self.new.progress.items < sum_by steps_of self.old.progress.items) }
    {
        let b = self.stack[self.stack.len() - 1];
        let Progress::Open(from) = self.progress[b] else {
            return Ok(());
        };
        let port = self.fresh_port(g, b, from);
        if port == g.block(b).outs.len() {
            return self.leave(g, b);
        }
        self.progress[b] = Progress::Open(port);
        self.enter(g, receiver(g, b, port))
    }

    /// Searches on until it is done with each block that it met.
    fn close(&mut self, g: &Graph) -> Result<(), AllocError>
        requires joined { IsJoined g.now }
        requires kept { IsSearch g.now self.old.stack.items self.old.order.items self.old.progress.items }
        ensures kept { IfOk result (λ _. IsSearch g.now self.new.stack.items self.new.order.items self.new.progress.items) }
        ensures met { IfOk result (λ _. StayMet self.old.progress.items self.new.progress.items) }
        ensures closed { IfOk result (λ _. self.new.stack.items ≡ []) }
    {
        while !self.stack.is_empty() {
            self.step(g)?;
        }
        Ok(())
    }
}

/// All blocks in the order in which a search is done with them.
pub(crate) fn closing_order(alloc: Global, g: &Graph) -> Result<Vec<usize>, AllocError>
    requires { IsJoined g.now }
    ensures { IfOk result (λ order. IsClosing g.now order.items) }
{
    let mut search = Search {
        progress: vec![in alloc; Progress::Fresh; g.blocks.len()]?,
        stack: Vec::new(alloc),
        order: Vec::new(alloc),
    };
    for b in 0..g.blocks.len() {
        if search.is_fresh(b) {
            search.enter(g, b)?;
            search.close(g)?;
        }
    }
    let Search { order, .. } = search;
    Ok(order)
}
