//! Whether the labels at a block are those that the rule of its kind allows.

ghost use Rattle.std.specs.Prelude.{◌≡◌, [], ◌∷◌};
ghost use mathlib.Core.List.{map};
ghost use Rattle.graph.specs.declared.graphs.Kind.TheVariants.{Root, Scan, Repeat, Cast, Drain, Array, Const};
ghost use Rattle.label_rules.specs.Labels.{same_labels};
ghost use Rattle.label_rules.specs.Rules.{allowed, takes_constant};
ghost use Rattle.graph_check.specs.Known.{PlansKnown};

use crate::names::{
    NO_LABEL, are_just, are_same, at_last_port, at_port, attr_number, is_same, tree_level,
    tree_term,
};
use crate::rules::{LabelRules, factor_mask, levels_of, product, tensor_of};
use crate::terms::has_loop;
use stream_model::{Attr, Label, Tree};

/// Whether each label is this one.
fn are_all(labels: &[Label], label: Label) -> bool
    ensures { result ≡ same_labels labels.now (map (λ _. label) labels.now) }
{
    match labels {
        [] => true,
        [first, rest @ ..] => is_same(*first, label) & are_all(rest, label),
    }
}

/// Whether a constant may stand beside what a label tells.
fn takes_constant(label: Label) -> bool
    ensures { result ≡ takes_constant label.tree label.attr }
{
    match label.attr {
        Attr::Coordinate => true,
        Attr::FactorValue(_) | Attr::Partial(_) | Attr::Whole => {
            matches!(label.tree, Tree::Product { .. })
        }
        _ => false,
    }
}

impl<'a> LabelRules<'a> {
    pub(crate) fn root(&self, ins: &[Label], outs: &[Label]) -> bool
        ensures { result ≡ allowed self.now.program.now Root ins.now outs.now }
    {
        are_just(ins, &[]) & are_same(outs, &[NO_LABEL])
    }

    pub(crate) fn scan(&self, tensor: u32, level: u8, ins: &[Label], outs: &[Label]) -> bool
        requires { PlansKnown self.now }
        ensures { result ≡ allowed self.now.program.now (Scan tensor level) ins.now outs.now }
    {
        let tree = at_port(outs, 0).tree;
        let t = tree_term(tree);
        let d = tree_level(tree).saturating_sub(1);
        let f = attr_number(at_last_port(outs).attr);
        if f >= self.factors(t) as u64 {
            return false;
        }
        let f = f as u8;
        let plan = self.plan(t);
        let reads = (tensor == tensor_of(plan, f))
            & (level as u16 == levels_of(plan, f, d) as u16 + 1);
        let asks = (f < self.factors(t)) & (has_loop(plan, d as usize, f as usize) & reads);
        let holds = self.is_term(t) & ((d < self.loops(t)) & asks);
        let mask = factor_mask(f);
        let coordinates = product(t, d + 1, mask, Attr::Coordinate);
        let references = product(t, d + 1, mask, Attr::Rank(f));
        holds
            & (are_just(ins, &[self.reference(t, d, f)])
                & are_same(outs, &[coordinates, references]))
    }

    pub(crate) fn repeat(&self, ins: &[Label], outs: &[Label]) -> bool
        requires { PlansKnown self.now }
        ensures { result ≡ allowed self.now.program.now Repeat ins.now outs.now }
    {
        let tree = at_port(outs, 0).tree;
        let t = tree_term(tree);
        let d = tree_level(tree).saturating_sub(1);
        let f = attr_number(at_last_port(outs).attr);
        if f >= self.factors(t) as u64 {
            return false;
        }
        let f = f as u8;
        let asks = (f < self.factors(t)) & !has_loop(self.plan(t), d as usize, f as usize);
        let holds = self.is_term(t) & ((d < self.loops(t)) & asks);
        let mask = self.mask(t, d);
        let coordinates = product(t, d + 1, mask, Attr::Coordinate);
        let references = product(t, d + 1, mask, Attr::Rank(f));
        holds
            & (are_just(ins, &[coordinates, self.reference(t, d, f)])
                & are_same(outs, &[references]))
    }

    pub(crate) fn cast(&self, copies: u32, ins: &[Label], outs: &[Label]) -> bool
        ensures { result ≡ allowed self.now.program.now (Cast copies) ins.now outs.now }
    {
        let label = at_port(ins, 0);
        (outs.len() == copies as usize) & (are_just(ins, &[label]) & are_all(outs, label))
    }

    pub(crate) fn drain(&self, ins: &[Label], outs: &[Label]) -> bool
        ensures { result ≡ allowed self.now.program.now Drain ins.now outs.now }
    {
        are_just(ins, &[at_port(ins, 0)]) & are_same(outs, &[])
    }

    pub(crate) fn array(&self, tensor: u32, ins: &[Label], outs: &[Label]) -> bool
        requires { PlansKnown self.now }
        ensures { result ≡ allowed self.now.program.now (Array tensor) ins.now outs.now }
    {
        let t = tree_term(at_port(outs, 0).tree);
        let f = attr_number(at_last_port(outs).attr);
        if f >= self.factors(t) as u64 {
            return false;
        }
        let f = f as u8;
        let holds = self.is_term(t)
            & ((f < self.factors(t)) & (tensor == tensor_of(self.plan(t), f)));
        holds
            & (are_just(ins, &[self.bottom(t, Attr::Rank(f))])
                & are_same(outs, &[self.bottom(t, Attr::FactorValue(f))]))
    }

    pub(crate) fn constant(&self, value: u64, ins: &[Label], outs: &[Label]) -> bool
        ensures { result ≡ allowed self.now.program.now (Const value) ins.now outs.now }
    {
        let label = at_port(ins, 0);
        let constant = Label {
            tree: label.tree,
            attr: Attr::Literal(value),
        };
        takes_constant(label) & (are_just(ins, &[label]) & are_same(outs, &[constant]))
    }
}
