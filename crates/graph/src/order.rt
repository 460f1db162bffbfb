//! The blocks of a graph in an order in which channels lead forwards.

ghost use Rattle.std.specs.Prelude.{◌≡◌, ◌<◌, ◌≤◌, ◌^◌, ◌↔◌, ℕ, [], length, replicate, IfOk, IsTrue};
ghost use Rattle.graph.specs.declared.order.Progress.TheVariants.{WaitsAt};
ghost use Rattle.graph.specs.Wiring.{block, channel, Rises, WellFormed};
ghost use Rattle.graph.specs.Joined.{IsJoined};
ghost use Rattle.graph.specs.Order.{IsForwardOrder};
ghost use Rattle.graph.specs.Placing.{sender, reached, BlockPlaced, IsPlacing, Later, AllWait};

use crate::graphs::Graph;
use std::alloc::{AllocError, Global};

/// How far a block is.
#[derive(Clone, Copy, Debug, Drop, PartialEq, Eq)]
enum Progress {
    /// It waits for the sender at this input port; the senders at the ports before are placed.
    WaitsAt(usize),
    Placed,
}

/// Blocks as they are placed, each after the senders of all its input channels.
#[derive(Drop)]
struct Placing {
    order: Vec<u32>,
    /// How far each block is.
    progress: Vec<Progress>,
}

impl Graph {
    /// The block that sends to an input port.
    fn sender(&self, b: usize, port: usize) -> usize
        requires joined { IsJoined self.now }
        requires block { b < length self.now.blocks }
        requires port { port < length (block self.now b).ins }
        ensures sender { result ≡ sender self.now b port }
        ensures there { result < length self.now.blocks }
    {
        let channel = self.block(b).ins.get(port);
        self.channel(channel as usize).from_block as usize
    }
}

impl Placing {
    fn is_placed(&self, b: usize) -> bool
        requires { b < length self.now.progress.items }
        ensures { IsTrue result ↔ BlockPlaced self.now.progress.items b }
    {
        matches!(self.progress[b], Progress::Placed)
    }

    /// The first input port of a block, from one on, whose sender is not placed, or the number of its ports.
    fn next_port(&self, g: &Graph, b: usize, from: usize) -> usize
        requires joined { IsJoined g.now }
        requires number { length self.now.progress.items ≡ length g.now.blocks }
        requires block { b < length g.now.blocks }
        requires port { from ≤ length (block g.now b).ins }
        ensures onwards { from ≤ result }
        ensures within { result ≤ length (block g.now b).ins }
        ensures past { (p : ℕ) → from ≤ p → p < result → BlockPlaced self.now.progress.items (sender g.now b p) }
        ensures waits { result < length (block g.now b).ins → ¬ BlockPlaced self.now.progress.items (sender g.now b result) }
    {
        let ports = g.block(b).ins.len();
        for port in from..ports {
            if !self.is_placed(g.sender(b, port)) {
                return port;
            }
        }
        ports
    }

    /// Lets a block pass the ports whose senders are placed, and places it where it is past them all.
    fn advance(&mut self, g: &Graph, b: usize) -> Result<(), AllocError>
        requires joined { IsJoined g.now }
        requires small { length g.now.blocks < 2 ^ 32 }
        requires kept { IsPlacing g.now self.old.order.items self.old.progress.items }
        requires block { b < length g.now.blocks }
        ensures kept { IfOk result (λ _. IsPlacing g.now self.new.order.items self.new.progress.items) }
        ensures later { IfOk result (λ _. Later g.now self.old.order.items self.old.progress.items self.new.order.items self.new.progress.items) }
        ensures waits { IfOk result (λ _. (q : ℕ) → reached self.new.progress.items b ≡ WaitsAt q → (q < length (block g.now b).ins) × ¬ BlockPlaced self.old.progress.items (sender g.now b q)) }
    {
        let Progress::WaitsAt(from) = self.progress[b] else {
            return Ok(());
        };
        let port = self.next_port(g, b, from);
        if port < g.block(b).ins.len() {
            self.progress[b] = Progress::WaitsAt(port);
        } else {
            self.order.push(b as u32)?;
            self.progress[b] = Progress::Placed;
        }
        Ok(())
    }

    /// Every block waits, or is placed where nothing leads to it or all that leads to it is.
    fn start(alloc: Global, g: &Graph) -> Result<Placing, AllocError>
        requires joined { IsJoined g.now }
        requires small { length g.now.blocks < 2 ^ 32 }
        ensures kept { IfOk result (λ placing. IsPlacing g.now placing.order.items placing.progress.items) }
        ensures wait { IfOk result (λ placing. AllWait g.now placing.progress.items) }
    {
        let mut placing = Placing {
            order: Vec::new(alloc),
            progress: vec![in alloc; Progress::WaitsAt(0); g.blocks.len()]?,
        };
        for b in 0..g.blocks.len() {
            placing.advance(g, b)?;
        }
        Ok(placing)
    }

    /// Lets the receivers of a placed block advance.
    fn pass_on(&mut self, g: &Graph, b: usize) -> Result<(), AllocError>
        requires joined { IsJoined g.now }
        requires small { length g.now.blocks < 2 ^ 32 }
        requires kept { IsPlacing g.now self.old.order.items self.old.progress.items }
        requires block { b < length g.now.blocks }
        requires wait { AllWait g.now self.old.progress.items }
        requires placed { BlockPlaced self.old.progress.items b }
        ensures kept { IfOk result (λ _. IsPlacing g.now self.new.order.items self.new.progress.items) }
        ensures later { IfOk result (λ _. Later g.now self.old.order.items self.old.progress.items self.new.order.items self.new.progress.items) }
        ensures past { IfOk result (λ _. (r q : ℕ) → r < length g.now.blocks → reached self.new.progress.items r ≡ WaitsAt q → ¬ (sender g.now r q ≡ b)) }
    {
        for channel in g.block(b).outs.as_slice() {
            let receiver = g.channel(*channel as usize).to_block;
            self.advance(g, receiver as usize)?;
        }
        Ok(())
    }
}

/// The blocks that can be placed after all their senders, in such an order.
pub fn placed_blocks(alloc: Global, g: &Graph) -> Result<Vec<u32>, AllocError>
    requires joined { IsJoined g.now }
    requires small { length g.now.blocks < 2 ^ 32 }
    ensures forward { IfOk result (λ order. length order.items ≡ length g.now.blocks → IsForwardOrder g.now order.items) }
    ensures all { IfOk result (λ order. (rank : ℕ → ℕ) → Rises g.now rank → length order.items ≡ length g.now.blocks) }
{
    let mut placing = Placing::start(alloc, g)?;
    let mut next = 0;
    while next < placing.order.len() {
        let b = placing.order[next];
        placing.pass_on(g, b as usize)?;
        next += 1;
    }
    let Placing { order, .. } = placing;
    Ok(order)
}

/// The blocks of a well formed graph in an order in which channels lead forwards.
pub fn forward_order(alloc: Global, g: &Graph) -> Result<Vec<u32>, AllocError>
    requires formed { WellFormed g.now }
    requires small { length g.now.blocks < 2 ^ 32 }
    ensures { IfOk result (λ order. IsForwardOrder g.now order.items) }
{
    placed_blocks(alloc, g)
}
