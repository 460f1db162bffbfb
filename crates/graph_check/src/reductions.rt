//! Whether the labels at a multiplier, a reducer or a dropper are those that its rule allows.

ghost use Rattle.std.specs.Prelude.{◌≡◌, ◌<◌, ◌-◌, [], ◌∷◌, cond, eqb};
ghost use Rattle.std.specs.List.{list_any};
ghost use Rattle.graph.specs.declared.graphs.Kind.TheVariants.{Mul, SumScalar, SumVector, SumMatrix, DropValue, DropFiber};
ghost use Rattle.label_rules.specs.Labels.{no_label, same_label, ports_allow};
ghost use Rattle.label_rules.specs.TermLabels.{coordinate_labels, value_labels, partial_labels};
ghost use Rattle.label_rules.specs.Rules.{allowed, is_reduction};
ghost use Rattle.graph_check.specs.Known.{PlansKnown};

use crate::choices::{UNPRUNED, is_only, reduced};
use crate::names::{
    NO_LABEL, are_same, at_last_port, at_port, attr_number, is_same, tree_gone, tree_level,
    tree_term,
};
use crate::rules::LabelRules;
use crate::terms::left_after;
use stream_model::{Attr, Label};

impl<'a> LabelRules<'a> {
    fn is_reduction(&self, t: u8, gone: u8, g: u8, after: u8) -> bool
        requires { PlansKnown self.now }
        ensures { result ≡ is_reduction self.now.program.now t gone g after }
    {
        let left = left_after(g as usize, self.plan(t).on_left.as_slice());
        self.is_term(t) & ((0 < gone) & ((g < self.free(t)) & (left == after as usize)))
    }

    /// Whether a label tells the coordinates before the loop that is taken away: those of the root where there is none.
    fn is_outer(&self, t: u8, g: u8, n: u8, label: Label) -> bool
        requires known { PlansKnown self.now }
        requires some { g < 255 }
        ensures { result ≡ list_any (same_label label) (cond (eqb n 1) (no_label ∷ []) (coordinate_labels self.now.program.now t g (n - 1))) }
    {
        if n == 1 {
            is_only(label, NO_LABEL)
        } else {
            self.is_coordinate(t, g, n.saturating_sub(1), label)
        }
    }

    /// Whether the labels tell the coordinates of level d and the values, with g loops gone.
    fn are_summed(&self, t: u8, g: u8, d: u8, ins: &[Label]) -> bool
        requires known { PlansKnown self.now }
        requires some { g < 255 }
        ensures { result ≡ ports_allow (coordinate_labels self.now.program.now t g d ∷ value_labels self.now.program.now t g ∷ []) ins.now }
    {
        let inner = at_port(ins, 0);
        let values = at_port(ins, 1);
        (ins.len() == 2) & (self.is_coordinate(t, g, d, inner) & self.is_value(t, g, values))
    }

    /// Whether the labels tell the coordinates before the loop that is taken away, and the values.
    fn are_summed_alone(&self, t: u8, g: u8, n: u8, ins: &[Label]) -> bool
        requires known { PlansKnown self.now }
        requires some { g < 255 }
        ensures { result ≡ ports_allow (cond (eqb n 1) (no_label ∷ []) (coordinate_labels self.now.program.now t g (n - 1)) ∷ value_labels self.now.program.now t g ∷ []) ins.now }
    {
        let outer = at_port(ins, 0);
        let values = at_port(ins, 1);
        (ins.len() == 2) & (self.is_outer(t, g, n, outer) & self.is_value(t, g, values))
    }

    /// Whether the labels tell the coordinates of levels d and n and the values, with g loops gone.
    fn are_rows(&self, t: u8, g: u8, d: u8, n: u8, ins: &[Label]) -> bool
        requires known { PlansKnown self.now }
        requires some { g < 255 }
        ensures { result ≡ ports_allow (coordinate_labels self.now.program.now t g d ∷ coordinate_labels self.now.program.now t g n ∷ value_labels self.now.program.now t g ∷ []) ins.now }
    {
        let outer = at_port(ins, 0);
        let inner = at_port(ins, 1);
        let values = at_port(ins, 2);
        let has_outer = self.is_coordinate(t, g, d, outer);
        let has_inner = self.is_coordinate(t, g, n, inner);
        (ins.len() == 3) & (has_outer & (has_inner & self.is_value(t, g, values)))
    }

    /// Whether the labels tell the coordinates of level d with g loops gone, and what this one tells.
    fn are_nested(&self, t: u8, g: u8, d: u8, below: Label, ins: &[Label]) -> bool
        requires known { PlansKnown self.now }
        requires some { g < 255 }
        ensures { result ≡ ports_allow (coordinate_labels self.now.program.now t g d ∷ (below ∷ []) ∷ []) ins.now }
    {
        let outer = at_port(ins, 0);
        let inner = at_port(ins, 1);
        (ins.len() == 2) & (self.is_coordinate(t, g, d, outer) & is_only(inner, below))
    }

    pub(crate) fn sum_scalar(&self, ins: &[Label], outs: &[Label]) -> bool
        requires { PlansKnown self.now }
        ensures { result ≡ allowed self.now.program.now SumScalar ins.now outs.now }
    {
        let tree = at_port(outs, 0).tree;
        let t = tree_term(tree);
        let gone = tree_gone(tree);
        let g = gone.saturating_sub(1);
        let n = self.loops(t).saturating_sub(g);
        let sums = reduced(t, g + 1, UNPRUNED, n.saturating_sub(1), Attr::Value);
        let ports = self.are_summed_alone(t, g, n, ins);
        self.is_reduction(t, gone, g, 0) & (ports & are_same(outs, &[sums]))
    }

    pub(crate) fn sum_vector(&self, ins: &[Label], outs: &[Label]) -> bool
        requires { PlansKnown self.now }
        ensures { result ≡ allowed self.now.program.now SumVector ins.now outs.now }
    {
        let tree = at_port(outs, 0).tree;
        let t = tree_term(tree);
        let gone = tree_gone(tree);
        let g = gone.saturating_sub(1);
        let n = self.loops(t).saturating_sub(g);
        let coordinates = reduced(t, g + 1, UNPRUNED, n.saturating_sub(1), Attr::Coordinate);
        let sums = reduced(t, g + 1, UNPRUNED, n.saturating_sub(1), Attr::Value);
        let ports = self.are_summed(t, g, n, ins);
        self.is_reduction(t, gone, g, 1) & (ports & are_same(outs, &[coordinates, sums]))
    }

    pub(crate) fn sum_matrix(&self, ins: &[Label], outs: &[Label]) -> bool
        requires { PlansKnown self.now }
        ensures { result ≡ allowed self.now.program.now SumMatrix ins.now outs.now }
    {
        let tree = at_port(outs, 0).tree;
        let t = tree_term(tree);
        let gone = tree_gone(tree);
        let g = gone.saturating_sub(1);
        let n = self.loops(t).saturating_sub(g);
        let rows = reduced(t, g + 1, UNPRUNED, n.saturating_sub(2), Attr::Coordinate);
        let coordinates = reduced(t, g + 1, UNPRUNED, n.saturating_sub(1), Attr::Coordinate);
        let sums = reduced(t, g + 1, UNPRUNED, n.saturating_sub(1), Attr::Value);
        let ports = self.are_rows(t, g, n.saturating_sub(1), n, ins);
        self.is_reduction(t, gone, g, 2) & (ports & are_same(outs, &[rows, coordinates, sums]))
    }

    pub(crate) fn drop_value(&self, ins: &[Label], outs: &[Label]) -> bool
        requires { PlansKnown self.now }
        ensures { result ≡ allowed self.now.program.now DropValue ins.now outs.now }
    {
        let t = tree_term(at_port(outs, 0).tree);
        let g = self.free(t);
        let r = self.levels;
        let kept = [
            reduced(t, g, r, r, Attr::Coordinate),
            reduced(t, g, r, r, Attr::Value),
        ];
        (self.is_term(t) & (0 < r)) & (self.are_summed(t, g, r, ins) & are_same(outs, &kept))
    }

    pub(crate) fn drop_fiber(&self, ins: &[Label], outs: &[Label]) -> bool
        requires { PlansKnown self.now }
        ensures { result ≡ allowed self.now.program.now DropFiber ins.now outs.now }
    {
        let tree = at_port(outs, 0).tree;
        let t = tree_term(tree);
        let f = tree_level(tree);
        let g = self.free(t);
        if f >= self.levels {
            return false;
        }
        let below = reduced(t, g, f + 1, f + 1, Attr::Coordinate);
        let kept = [
            reduced(t, g, f, f, Attr::Coordinate),
            reduced(t, g, f, f + 1, Attr::Coordinate),
        ];
        let holds = self.is_term(t) & ((0 < f) & (f < self.levels));
        holds & (self.are_nested(t, g, f, below, ins) & are_same(outs, &kept))
    }

    /// Whether the labels tell the product of k factors, and what it is multiplied by.
    fn are_factors(&self, t: u8, k: u8, other: Label, ins: &[Label]) -> bool
        requires { PlansKnown self.now }
        ensures { result ≡ ports_allow (partial_labels self.now.program.now t k ∷ (other ∷ []) ∷ []) ins.now }
    {
        let values = at_port(ins, 0);
        let factor = at_port(ins, 1);
        (ins.len() == 2) & (self.is_partial(t, k, values) & is_only(factor, other))
    }

    pub(crate) fn multiply(&self, ins: &[Label], outs: &[Label]) -> bool
        requires { PlansKnown self.now }
        ensures { result ≡ allowed self.now.program.now Mul ins.now outs.now }
    {
        let t = tree_term(at_port(outs, 0).tree);
        let k = attr_number(at_last_port(outs).attr);
        let whole = self.bottom(t, Attr::Whole);
        if is_same(at_port(outs, 0), whole) {
            let literal = self.bottom(t, Attr::Literal(self.coefficient(t)));
            let ports = self.are_factors(t, self.factors(t), literal, ins);
            return self.is_term(t) & (ports & are_same(outs, &[whole]));
        }
        if k > self.factors(t) as u64 {
            return false;
        }
        let k = k as u8;
        let before = k.saturating_sub(1);
        let factor = self.bottom(t, Attr::FactorValue(before));
        let ports = self.are_factors(t, before, factor, ins);
        let holds = self.is_term(t) & ((1 < k) & (k <= self.factors(t)));
        holds & (ports & are_same(outs, &[self.bottom(t, Attr::Partial(k))]))
    }
}
