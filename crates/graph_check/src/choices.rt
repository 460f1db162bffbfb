//! Whether a label is one of those that may stand at a port.

ghost use Rattle.std.specs.Prelude.{◌≡◌, ◌<◌, ◌≤◌, ◌-◌, ◌&&◌, suc, ℕ, take, [], ◌∷◌};
ghost use Rattle.std.specs.List.{list_any, range_with_len};
ghost use mathlib.Core.List.{map};
ghost use Rattle.sam_model.specs.declared.program.Program.{Program};
ghost use Rattle.sam_model.specs.Lists.{same_list};
ghost use Rattle.stream_model.specs.declared.labels.Attr.TheVariants.{Coordinate};
ghost use Rattle.stream_model.specs.declared.labels.Tree.TheVariants.{Reduced};
ghost use Rattle.label_rules.specs.Labels.{tree_label, same_label};
ghost use Rattle.label_rules.specs.TermLabels.{free_loop_count, same_kept, kept_from, reduced_label, partial_labels, coordinate_labels, value_labels};
ghost use Rattle.label_rules.specs.JoinLabels.{pruned_labels, own_labels};
ghost use Rattle.graph_check.specs.Known.{PlansKnown};

use crate::names::is_same;
use crate::rules::{LabelRules, product};
use crate::terms::free_marks;
use stream_model::{Attr, Label, Side, Tree};

/// From this length on no prefix is left out, since no tree is deeper than 8.
pub(crate) const UNPRUNED: u8 = 9;

/// Whether a label is the only one that may stand at its port.
pub(crate) fn is_only(label: Label, only: Label) -> bool
    ensures { result ≡ list_any (same_label label) (only ∷ []) }
{
    is_same(label, only)
}

/// A label of the tree of a term without so many loops, where prefixes of length `prune` or more are left out.
pub(crate) fn reduced(term: u8, gone: u8, prune: u8, depth: u8, attr: Attr) -> Label
    ensures { result ≡ tree_label (Reduced term gone prune depth) attr }
{
    Label {
        tree: Tree::Reduced {
            term,
            gone,
            prune,
            depth,
        },
        attr,
    }
}

/// Whether the first d loops that are kept are the same where g and where h loops are gone.
fn same_kept(marks: &[bool], d: usize, g: usize, h: usize) -> bool
    ensures { (p : Program) (t n : ℕ) → result ≡ same_list (take d (kept_from p t g n marks.now)) (take d (kept_from p t h n marks.now)) }
{
    match marks {
        [] => true,
        [mark, rest @ ..] => {
            if d == 0 {
                return true;
            }
            let free = free_marks(rest);
            let first = *mark | (g <= free);
            let second = *mark | (h <= free);
            if first {
                if second {
                    same_kept(rest, d - 1, g, h)
                } else {
                    false
                }
            } else if second {
                false
            } else {
                same_kept(rest, d, g, h)
            }
        }
    }
}

impl<'a> LabelRules<'a> {
    /// Whether a label tells the product of k factors.
    pub(crate) fn is_partial(&self, t: u8, k: u8, label: Label) -> bool
        requires { PlansKnown self.now }
        ensures { result ≡ list_any (same_label label) (partial_labels self.now.program.now t k) }
    {
        let product = is_same(label, self.bottom(t, Attr::Partial(k)));
        if k == 1 {
            product | is_same(label, self.bottom(t, Attr::FactorValue(0)))
        } else {
            product
        }
    }

    /// Whether a label tells the values of a term without g loops.
    pub(crate) fn is_value(&self, t: u8, g: u8, label: Label) -> bool
        requires { PlansKnown self.now }
        ensures { result ≡ list_any (same_label label) (value_labels self.now.program.now t g) }
    {
        if g > 0 {
            let depth = self.loops(t).saturating_sub(g);
            return is_only(label, reduced(t, g, UNPRUNED, depth, Attr::Value));
        }
        let whole = is_same(label, self.bottom(t, Attr::Whole));
        if self.coefficient(t) == 1 {
            whole | self.is_partial(t, self.factors(t), label)
        } else {
            whole
        }
    }

    fn keeps_same(&self, t: u8, d: u8, g: u8, h: u8) -> bool
        requires { PlansKnown self.now }
        ensures { result ≡ same_kept self.now.program.now t d g h }
    {
        same_kept(
            self.plan(t).on_left.as_slice(),
            d as usize,
            g as usize,
            h as usize,
        )
    }

    /// Whether a label tells the coordinates of level d with h or more of g loops gone.
    #[tactic(auto, using(crate::proofs::Ranges::range_further, crate::proofs::Ranges::range_past))]
    fn is_reduced_coordinate(&self, t: u8, h: u8, g: u8, d: u8, label: Label) -> bool
        requires known { PlansKnown self.now }
        requires some { g < 255 }
        ensures { result ≡ list_any (λ h. same_kept self.now.program.now t d g h && same_label label (reduced_label self.now.program.now t h 9 d Coordinate)) (range_with_len h (suc g - h)) }
    {
        if h > g {
            return false;
        }
        let here = self.keeps_same(t, d, g, h)
            & is_same(label, reduced(t, h, UNPRUNED, d, Attr::Coordinate));
        here | self.is_reduced_coordinate(t, h + 1, g, d, label)
    }

    /// Whether a label tells the coordinates of level d with g loops gone.
    pub(crate) fn is_coordinate(&self, t: u8, g: u8, d: u8, label: Label) -> bool
        requires known { PlansKnown self.now }
        requires some { g < 255 }
        ensures { result ≡ list_any (same_label label) (coordinate_labels self.now.program.now t g d) }
    {
        let mask = self.mask(t, d.saturating_sub(1));
        let whole = self.keeps_same(t, d, g, 0)
            & is_same(label, product(t, d, mask, Attr::Coordinate));
        self.is_reduced_coordinate(t, 1, g, d, label) | whole
    }

    /// Whether a label tells of level d of a term's result, pruned from level f or a later one on.
    #[tactic(auto, using(crate::proofs::Ranges::range_further, crate::proofs::Ranges::range_past))]
    fn is_pruned_from(&self, t: u8, f: u8, d: u8, attr: Attr, label: Label) -> bool
        requires known { PlansKnown self.now }
        requires some { d < 255 }
        ensures { result ≡ list_any (same_label label) (map (λ f. tree_label (Reduced t (free_loop_count self.now.program.now t) f d) attr) (range_with_len f (suc d - f))) }
    {
        if f > d {
            return false;
        }
        is_same(label, reduced(t, self.free(t), f, d, attr))
            | self.is_pruned_from(t, f + 1, d, attr, label)
    }

    /// Whether a label tells of level d of a term's result, which may be pruned from any level down to it.
    pub(crate) fn is_pruned(&self, t: u8, d: u8, attr: Attr, label: Label) -> bool
        requires known { PlansKnown self.now }
        requires some { d < 255 }
        ensures { result ≡ list_any (same_label label) (pruned_labels self.now.program.now t d attr) }
    {
        self.is_pruned_from(t, 1, d, attr, label)
    }

    /// Whether a label tells of level d of a side of a join.
    pub(crate) fn is_own(&self, e: u8, side: Side, d: u8, attr: Attr, label: Label) -> bool
        requires known { PlansKnown self.now }
        requires some { d < 255 }
        ensures { result ≡ list_any (same_label label) (own_labels self.now.program.now e side d attr) }
    {
        match side {
            Side::Right => self.is_pruned(e, d, attr, label),
            Side::Left => {
                if e == 1 {
                    self.is_pruned(0, d, attr, label)
                } else {
                    let tree = Tree::Joined {
                        last: e.saturating_sub(1),
                        depth: d,
                    };
                    is_only(label, Label { tree, attr })
                }
            }
        }
    }
}
