//! The rule on labels: those at each block are those that the rule of its kind allows.

ghost use Rattle.std.specs.Prelude.{◌≡◌, ◌<◌, ◌^◌, true, length, IfOk};
ghost use mathlib.Core.List.{map};
ghost use Rattle.sam_model.specs.Program.{accepted};
ghost use Rattle.label_rules.specs.Holding.{label_on};
ghost use Rattle.label_rules.specs.Rules.{allowed};
ghost use Rattle.graph_check.specs.Known.{PlansKnown};
ghost use Rattle.graph_check.specs.Faults.{labels_allowed, labels_fault};

use crate::names::NO_LABEL;
use crate::rules::LabelRules;
use graph::{Graph, Kind};
use sam_base::Items;
use sam_model::Program;
use std::alloc::{AllocError, Global};
use stream_model::Label;

/// The label of a channel, that of the root where there is none.
fn label_on(g: &Graph, channel: u64) -> Label
    ensures { result ≡ label_on g.now channel }
{
    match g.channels.as_slice().get(channel as usize) {
        Some(channel) => channel.label,
        None => NO_LABEL,
    }
}

/// The labels of the channels at some ports.
fn labels_at(alloc: Global, g: &Graph, ports: &[u64]) -> Result<Items<Label>, AllocError>
    ensures { IfOk result (λ labels. labels ≡ map (label_on g.now) ports.now) }
{
    let mut labels = Items::new(alloc);
    for channel in ports {
        labels.push(label_on(g, *channel))?;
    }
    Ok(labels)
}

impl<'a> LabelRules<'a> {
    /// Whether a block of a kind may have these labels at its inputs and outputs.
    fn allows(&self, kind: Kind, ins: &[Label], outs: &[Label]) -> bool
        requires { PlansKnown self.now }
        ensures { result ≡ allowed self.now.program.now kind ins.now outs.now }
    {
        match kind {
            Kind::Root => self.root(ins, outs),
            Kind::Scan { tensor, level } => self.scan(tensor, level, ins, outs),
            Kind::Repeat => self.repeat(ins, outs),
            Kind::Cast { outs: copies } => self.cast(copies, ins, outs),
            Kind::Drain => self.drain(ins, outs),
            Kind::Intersect { left, right } => self.intersect(left, right, ins, outs),
            Kind::Union { left, right } => self.union(left, right, ins, outs),
            Kind::Array { tensor } => self.array(tensor, ins, outs),
            Kind::Mul => self.multiply(ins, outs),
            Kind::Add => self.add(ins, outs),
            Kind::Sub => self.subtract(ins, outs),
            Kind::Const { value } => self.constant(value, ins, outs),
            Kind::SumScalar => self.sum_scalar(ins, outs),
            Kind::SumVector => self.sum_vector(ins, outs),
            Kind::SumMatrix => self.sum_matrix(ins, outs),
            Kind::DropValue => self.drop_value(ins, outs),
            Kind::DropFiber => self.drop_fiber(ins, outs),
            Kind::Fill { payloads } => self.fill(payloads, ins, outs),
            Kind::WriteLevel { level } => self.write_level(level, ins, outs),
            Kind::WriteValue => self.write_value(ins, outs),
        }
    }

    /// Whether the labels at a block are allowed.
    fn allows_at(&self, alloc: Global, g: &Graph, b: usize) -> Result<bool, AllocError>
        requires known { PlansKnown self.now }
        requires inside { b < length g.now.blocks }
        ensures { IfOk result (λ allows. allows ≡ labels_allowed self.now.program.now g.now b) }
    {
        let block = g.blocks.get(b);
        let ins = labels_at(alloc, g, block.ins.as_slice())?;
        let outs = labels_at(alloc, g, block.outs.as_slice())?;
        Ok(self.allows(block.kind, ins.as_slice(), outs.as_slice()))
    }
}

/// The first block whose labels aren't allowed.
///
/// It takes time in proportion to the blocks and their ports.
pub fn labels_fault(alloc: Global, p: &Program, g: &Graph) -> Result<Option<u32>, AllocError>
    requires accepted { accepted p.now ≡ true }
    requires few { length g.now.blocks < 2 ^ 32 }
    ensures { IfOk result (λ fault. fault ≡ labels_fault p.now g.now) }
{
    let rules = LabelRules::new(alloc, p)?;
    for b in 0..g.blocks.len() {
        if !rules.allows_at(alloc, g, b)? {
            return Ok(Some(b as u32));
        }
    }
    Ok(None)
}
