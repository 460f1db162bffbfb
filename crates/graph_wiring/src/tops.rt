//! The latest block of a closing order that each block reaches.

ghost use Rattle.std.specs.Prelude.{◌≡◌, ◌<◌, ◌≤◌, suc, [], length, get_or, IfOk};
ghost use Rattle.graph.specs.Wiring.{block};
ghost use Rattle.graph.specs.Joined.{IsJoined};
ghost use Rattle.graph.specs.Placing.{sender};
ghost use Rattle.graph_wiring.specs.Leading.{Reaches};
ghost use Rattle.graph_wiring.specs.Searching.{IsClosing};
ghost use Rattle.graph_wiring.specs.Topping.{top, IsTops, IsTopping, TopsStay};

use crate::ports::sender;
use graph::Graph;
use std::alloc::{AllocError, Global};

/// The tops of blocks as they are given: of each block the latest place of the order that it reaches.
#[derive(Drop)]
struct Topping {
    tops: Vec<Option<usize>>,
    /// The blocks that have one.
    given: Vec<usize>,
}

impl Topping {
    /// Gives a block this top, where it has none.
    fn give(
        &mut self,
        g: &Graph,
        order: &[usize],
        place: usize,
        passed: usize,
        b: usize,
    ) -> Result<(), AllocError>
        requires kept { IsTopping g.now order.now place passed self.old.given.items self.old.tops.items }
        requires block { b < length g.now.blocks }
        requires place { place < length order.now }
        requires reaches { Reaches g.now b (get_or order.now place 0) }
        ensures kept { IfOk result (λ _. IsTopping g.now order.now place passed self.new.given.items self.new.tops.items) }
        ensures stay { IfOk result (λ _. TopsStay self.old.given.items self.old.tops.items self.new.given.items self.new.tops.items) }
        ensures here { IfOk result (λ _. 0 < top self.new.tops.items b) }
    {
        if self.tops[b].is_none() {
            self.given.push(b)?;
            self.tops[b] = Some(place);
        }
        Ok(())
    }

    /// Gives the senders of a block its top, where they have none.
    fn pass_back(
        &mut self,
        g: &Graph,
        order: &[usize],
        place: usize,
        passed: usize,
    ) -> Result<(), AllocError>
        requires joined { IsJoined g.now }
        requires kept { IsTopping g.now order.now place passed self.old.given.items self.old.tops.items }
        requires place { place < length order.now }
        requires more { passed < length self.old.given.items }
        ensures kept { IfOk result (λ _. IsTopping g.now order.now place (suc passed) self.new.given.items self.new.tops.items) }
        ensures stay { IfOk result (λ _. TopsStay self.old.given.items self.old.tops.items self.new.given.items self.new.tops.items) }
    {
        let b = self.given[passed];
        for port in 0..g.block(b).ins.len() {
            self.give(g, order, place, passed, sender(g, b, port))?;
        }
        Ok(())
    }

    /// Gives this top to the block at its place, and to all that lead to it and have none.
    fn spread(&mut self, g: &Graph, order: &[usize], place: usize) -> Result<(), AllocError>
        requires joined { IsJoined g.now }
        requires kept { IsTopping g.now order.now place (length self.old.given.items) self.old.given.items self.old.tops.items }
        requires place { place < length order.now }
        requires block { get_or order.now place 0 < length g.now.blocks }
        ensures kept { IfOk result (λ _. IsTopping g.now order.now place (length self.new.given.items) self.new.given.items self.new.tops.items) }
        ensures stay { IfOk result (λ _. TopsStay self.old.given.items self.old.tops.items self.new.given.items self.new.tops.items) }
        ensures here { IfOk result (λ _. 0 < top self.new.tops.items (get_or order.now place 0)) }
    {
        let mut passed = self.given.len();
        self.give(g, order, place, passed, order[place])?;
        while passed < self.given.len() {
            self.pass_back(g, order, place, passed)?;
            passed += 1;
        }
        Ok(())
    }
}

/// The latest place of a closing order that each block reaches.
pub(crate) fn tops(
    alloc: Global,
    g: &Graph,
    order: &[usize],
) -> Result<Vec<Option<usize>>, AllocError>
    requires joined { IsJoined g.now }
    requires closing { IsClosing g.now order.now }
    ensures { IfOk result (λ tops. IsTops g.now order.now tops.items) }
{
    let mut topping = Topping {
        tops: vec![in alloc; None; g.blocks.len()]?,
        given: Vec::new(alloc),
    };
    for place in (0..order.len()).rev() {
        topping.spread(g, order, place)?;
    }
    let Topping { tops, .. } = topping;
    Ok(tops)
}
