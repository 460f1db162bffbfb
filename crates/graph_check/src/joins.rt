//! Whether the labels where terms are joined, and at the writers, are those that their rules allow.

ghost use Rattle.std.specs.Prelude.{◌≡◌, ◌<◌, ◌≤◌, [], ◌∷◌, get_or};
ghost use Rattle.std.specs.List.{list_any};
ghost use Rattle.stream_model.specs.declared.labels.Attr.TheVariants.{Value};
ghost use Rattle.graph.specs.declared.graphs.Kind.TheVariants.{Union, Fill, Add, Sub, WriteLevel, WriteValue};
ghost use Rattle.label_rules.specs.Labels.{same_label, ports_allow};
ghost use Rattle.label_rules.specs.TermLabels.{empty_term};
ghost use Rattle.label_rules.specs.JoinLabels.{side_tree, beside_attr, joined_attr, lone_labels, added_labels};
ghost use Rattle.label_rules.specs.Rules.{allowed, is_further, written_labels, written_value_labels};
ghost use Rattle.graph_check.specs.Known.{PlansKnown};

use crate::choices::{UNPRUNED, is_only, reduced};
use crate::names::{are_just, are_same, at_port, tree_level, tree_side, tree_term};
use crate::rules::LabelRules;
use stream_model::{Attr, Label, Side, Tree};

/// What passes beside the coordinates of a side: values on the last level, and marks above it.
fn beside_attr(is_full: bool) -> Attr
    ensures { result ≡ beside_attr is_full }
{
    if is_full {
        Attr::Value
    } else {
        Attr::Literal(1)
    }
}

/// What a union makes of it.
fn joined_attr(is_full: bool, side: Side) -> Attr
    ensures { result ≡ joined_attr is_full side }
{
    if is_full {
        Attr::SideValue(side)
    } else {
        Attr::Present(side)
    }
}

impl<'a> LabelRules<'a> {
    /// Whether it is a term from the second on.
    fn is_further(&self, e: u8) -> bool
        ensures { result ≡ is_further self.now.program.now e }
    {
        (0 < e) & ((e as usize) < self.program.terms.len())
    }

    fn is_subtracted(&self, e: u8) -> bool
        ensures { result ≡ (get_or self.now.program.now.terms e empty_term).minus }
    {
        match self.program.terms.as_slice().get(e as usize) {
            Some(term) => term.minus,
            None => false,
        }
    }

    /// The tree of a side on level d.
    fn side_tree(&self, e: u8, side: Side, d: u8) -> Tree
        requires { PlansKnown self.now }
        ensures { result ≡ side_tree self.now.program.now e side d }
    {
        if d == 0 {
            return Tree::Root;
        }
        if d > 1 {
            return Tree::Beside {
                last: e,
                side,
                depth: d,
            };
        }
        match side {
            Side::Right => Tree::Reduced {
                term: e,
                gone: self.free(e),
                prune: 1,
                depth: 1,
            },
            Side::Left => {
                if e == 1 {
                    Tree::Reduced {
                        term: 0,
                        gone: self.free(0),
                        prune: 1,
                        depth: 1,
                    }
                } else {
                    Tree::Joined {
                        last: e.saturating_sub(1),
                        depth: 1,
                    }
                }
            }
        }
    }

    pub(crate) fn union(&self, left: u32, right: u32, ins: &[Label], outs: &[Label]) -> bool
        requires { PlansKnown self.now }
        ensures { result ≡ allowed self.now.program.now (Union left right) ins.now outs.now }
    {
        let tree = at_port(outs, 0).tree;
        let e = tree_term(tree);
        let d = tree_level(tree);
        let is_full = d == self.levels;
        let level = (0 < d) & (d <= self.levels);
        let holds = (left == 1) & ((right == 1) & (self.is_further(e) & level));
        let ours = self.side_tree(e, Side::Left, d);
        let theirs = self.side_tree(e, Side::Right, d);
        let attr = beside_attr(is_full);
        let sides = [
            Label {
                tree: ours,
                attr: Attr::Coordinate,
            },
            Label { tree: ours, attr },
            Label {
                tree: theirs,
                attr: Attr::Coordinate,
            },
            Label { tree: theirs, attr },
        ];
        let tree = Tree::Joined { last: e, depth: d };
        let joined = [
            Label {
                tree,
                attr: Attr::Coordinate,
            },
            Label {
                tree,
                attr: joined_attr(is_full, Side::Left),
            },
            Label {
                tree,
                attr: joined_attr(is_full, Side::Right),
            },
        ];
        holds & (are_just(ins, &sides) & are_same(outs, &joined))
    }

    pub(crate) fn fill(&self, payloads: u32, ins: &[Label], outs: &[Label]) -> bool
        requires { PlansKnown self.now }
        ensures { result ≡ allowed self.now.program.now (Fill payloads) ins.now outs.now }
    {
        let tree = at_port(outs, 0).tree;
        let e = tree_term(tree);
        let d = tree_level(tree);
        let side = tree_side(tree);
        let joined = Label {
            tree: Tree::Joined {
                last: e,
                depth: d.saturating_sub(1),
            },
            attr: Attr::Present(side),
        };
        if d > self.levels {
            return false;
        }
        let level = (1 < d) & (d <= self.levels);
        let tree = Tree::Beside {
            last: e,
            side,
            depth: d,
        };
        let coordinates = Label {
            tree,
            attr: Attr::Coordinate,
        };
        let [present, rest @ ..] = ins else {
            return false;
        };
        let [own, rest @ ..] = rest else {
            return false;
        };
        let is_present = is_only(*present, joined);
        let is_own = self.is_own(e, side, d, Attr::Coordinate, *own);
        if d != self.levels {
            let ports = is_present & (is_own & are_just(rest, &[]));
            let holds = (payloads == 0) & (self.is_further(e) & level);
            return holds & (ports & are_same(outs, &[coordinates]));
        }
        let [values, rest @ ..] = rest else {
            return false;
        };
        let is_value = self.is_own(e, side, d, Attr::Value, *values);
        let ports = is_present & (is_own & (is_value & are_just(rest, &[])));
        let holds = (payloads == 1) & (self.is_further(e) & level);
        let filled = Label {
            tree,
            attr: Attr::Value,
        };
        holds & (ports & are_same(outs, &[coordinates, filled]))
    }

    /// Whether a label tells the values of the terms before e, where the result has no level.
    fn is_lone(&self, e: u8, label: Label) -> bool
        requires { PlansKnown self.now }
        ensures { result ≡ list_any (same_label label) (lone_labels self.now.program.now e) }
    {
        if e == 1 {
            return self.is_value(0, self.free(0), label);
        }
        let tree = Tree::Joined {
            last: e.saturating_sub(1),
            depth: 0,
        };
        is_only(
            label,
            Label {
                tree,
                attr: Attr::Value,
            },
        )
    }

    /// Whether the labels tell the values of both sides.
    fn are_added(&self, e: u8, ins: &[Label]) -> bool
        requires { PlansKnown self.now }
        ensures { result ≡ ports_allow (added_labels self.now.program.now e) ins.now }
    {
        if self.levels > 0 {
            let tree = Tree::Joined {
                last: e,
                depth: self.levels,
            };
            let ours = Label {
                tree,
                attr: Attr::SideValue(Side::Left),
            };
            let theirs = Label {
                tree,
                attr: Attr::SideValue(Side::Right),
            };
            return are_just(ins, &[ours, theirs]);
        }
        let [ours, rest @ ..] = ins else {
            return false;
        };
        let [theirs, rest @ ..] = rest else {
            return false;
        };
        self.is_lone(e, *ours) & (self.is_value(e, self.free(e), *theirs) & are_just(rest, &[]))
    }

    pub(crate) fn add(&self, ins: &[Label], outs: &[Label]) -> bool
        requires { PlansKnown self.now }
        ensures { result ≡ allowed self.now.program.now Add ins.now outs.now }
    {
        let e = tree_term(at_port(outs, 0).tree);
        let tree = Tree::Joined {
            last: e,
            depth: self.levels,
        };
        let sum = Label {
            tree,
            attr: Attr::Value,
        };
        (self.is_further(e) & !self.is_subtracted(e))
            & (self.are_added(e, ins) & are_same(outs, &[sum]))
    }

    pub(crate) fn subtract(&self, ins: &[Label], outs: &[Label]) -> bool
        requires { PlansKnown self.now }
        ensures { result ≡ allowed self.now.program.now Sub ins.now outs.now }
    {
        let e = tree_term(at_port(outs, 0).tree);
        let tree = Tree::Joined {
            last: e,
            depth: self.levels,
        };
        let difference = Label {
            tree,
            attr: Attr::Value,
        };
        (self.is_further(e) & self.is_subtracted(e))
            & (self.are_added(e, ins) & are_same(outs, &[difference]))
    }

    /// Whether a label tells the coordinates of level d of the result.
    fn is_written(&self, d: u8, label: Label) -> bool
        requires known { PlansKnown self.now }
        requires some { d < 255 }
        ensures { result ≡ list_any (same_label label) (written_labels self.now.program.now d) }
    {
        if self.program.terms.len() == 1 {
            return self.is_pruned(0, d, Attr::Coordinate, label);
        }
        let tree = Tree::Joined {
            last: self.last,
            depth: d,
        };
        is_only(
            label,
            Label {
                tree,
                attr: Attr::Coordinate,
            },
        )
    }

    pub(crate) fn write_level(&self, level: u8, ins: &[Label], outs: &[Label]) -> bool
        requires { PlansKnown self.now }
        ensures { result ≡ allowed self.now.program.now (WriteLevel level) ins.now outs.now }
    {
        if level > self.levels {
            return false;
        }
        let [coordinates, rest @ ..] = ins else {
            return false;
        };
        let ports = self.is_written(level, *coordinates) & are_just(rest, &[]);
        ((0 < level) & (level <= self.levels)) & (ports & are_same(outs, &[]))
    }

    /// Whether a label tells the values of the result.
    fn is_written_value(&self, label: Label) -> bool
        requires { PlansKnown self.now }
        ensures { result ≡ list_any (same_label label) (written_value_labels self.now.program.now) }
    {
        if self.program.terms.len() == 1 {
            let prune = if self.levels == 0 {
                UNPRUNED
            } else {
                self.levels
            };
            return is_only(
                label,
                reduced(0, self.free(0), prune, self.levels, Attr::Value),
            );
        }
        let tree = Tree::Joined {
            last: self.last,
            depth: self.levels,
        };
        is_only(
            label,
            Label {
                tree,
                attr: Attr::Value,
            },
        )
    }

    pub(crate) fn write_value(&self, ins: &[Label], outs: &[Label]) -> bool
        requires { PlansKnown self.now }
        ensures { result ≡ allowed self.now.program.now WriteValue ins.now outs.now }
    {
        let [values, rest @ ..] = ins else {
            return false;
        };
        (self.is_written_value(*values) & are_just(rest, &[])) & are_same(outs, &[])
    }
}
