//! Labels at an intersecter: the coordinates of a tree, with the references of some factors.

ghost use Rattle.std.specs.Prelude.{◌≡◌, ◌∷◌, ◌++◌, drop};
ghost use mathlib.Core.List.{map};
ghost use Rattle.stream_model.specs.declared.labels.Attr.TheVariants.{Coordinate, Rank};
ghost use Rattle.graph.specs.declared.graphs.Kind.TheVariants.{Intersect};
ghost use Rattle.label_rules.specs.Labels.{tree_label, same_label, same_labels};
ghost use Rattle.label_rules.specs.Named.{attr_number, attr_numbers};
ghost use Rattle.label_rules.specs.Rules.{allowed};

use crate::names::{are_same, at_port, attr_number, is_same, tree_level, tree_mask, tree_term};
use crate::rules::LabelRules;
use stream_model::{Attr, Label, Tree};

/// Whether a label tells the references of the factor that an attribute names.
fn is_rank(label: Label, tree: Tree, attr: Attr) -> bool
    ensures { result ≡ same_label label (tree_label tree (Rank (attr_number attr))) }
{
    let f = attr_number(attr);
    if f > 255 {
        return false;
    }
    let attr = Attr::Rank(f as u8);
    is_same(label, Label { tree, attr })
}

/// Whether labels tell the references of the factors that others name.
fn are_ranks(labels: &[Label], tree: Tree, named: &[Label]) -> bool
    ensures { result ≡ same_labels labels.now (map (λ f. tree_label tree (Rank f)) (attr_numbers named.now)) }
{
    match named {
        [] => are_same(labels, &[]),
        [first, named @ ..] => match labels {
            [] => false,
            [label, labels @ ..] => {
                is_rank(*label, tree, first.attr) & are_ranks(labels, tree, named)
            }
        },
    }
}

/// Whether labels tell the references of the factors that the labels of two sides name.
fn are_ranks_of_both(labels: &[Label], tree: Tree, these: &[Label], those: &[Label]) -> bool
    ensures { result ≡ same_labels labels.now (map (λ f. tree_label tree (Rank f)) (attr_numbers these.now ++ attr_numbers those.now)) }
{
    match these {
        [] => are_ranks(labels, tree, those),
        [first, these @ ..] => match labels {
            [] => false,
            [label, labels @ ..] => {
                is_rank(*label, tree, first.attr) & are_ranks_of_both(labels, tree, these, those)
            }
        },
    }
}

/// Whether labels tell the coordinates of a tree, and the references of the factors that they name.
fn is_side(labels: &[Label], tree: Tree) -> bool
    ensures { result ≡ same_labels labels.now (tree_label tree Coordinate ∷ map (λ f. tree_label tree (Rank f)) (attr_numbers (drop 1 labels.now))) }
{
    match labels {
        [] => false,
        [coordinates, ranks @ ..] => {
            let attr = Attr::Coordinate;
            is_same(*coordinates, Label { tree, attr }) & are_ranks(ranks, tree, ranks)
        }
    }
}

/// The labels of the references beside the coordinates.
fn references(labels: &[Label]) -> &[Label]
    ensures { result.now ≡ drop 1 labels.now }
{
    match labels {
        [] => labels,
        [_, rest @ ..] => rest,
    }
}

/// Whether labels tell the coordinates of a tree, and the references of the factors that the labels of two sides name.
fn are_met(labels: &[Label], tree: Tree, these: &[Label], those: &[Label]) -> bool
    ensures { result ≡ same_labels labels.now (tree_label tree Coordinate ∷ map (λ f. tree_label tree (Rank f)) (attr_numbers these.now ++ attr_numbers those.now)) }
{
    match labels {
        [] => false,
        [coordinates, ranks @ ..] => {
            let attr = Attr::Coordinate;
            is_same(*coordinates, Label { tree, attr })
                & are_ranks_of_both(ranks, tree, these, those)
        }
    }
}

impl<'a> LabelRules<'a> {
    pub(crate) fn intersect(&self, left: u32, right: u32, ins: &[Label], outs: &[Label]) -> bool
        ensures { result ≡ allowed self.now.program.now (Intersect left right) ins.now outs.now }
    {
        if ins.len() as u64 != left as u64 + right as u64 + 2 {
            return false;
        }
        let tree = at_port(outs, 0).tree;
        let term = tree_term(tree);
        let level = tree_level(tree);
        let (ours, theirs) = ins.split_at(left as usize + 1);
        let ours_mask = tree_mask(at_port(ours, 0).tree);
        let theirs_mask = tree_mask(at_port(theirs, 0).tree);
        let ours_tree = Tree::Product {
            term,
            level,
            mask: ours_mask,
        };
        let theirs_tree = Tree::Product {
            term,
            level,
            mask: theirs_mask,
        };
        let met_tree = Tree::Product {
            term,
            level,
            mask: ours_mask | theirs_mask,
        };
        let sides = is_side(ours, ours_tree) & is_side(theirs, theirs_tree);
        let met = are_met(outs, met_tree, references(ours), references(theirs));
        self.is_term(term) & (sides & met)
    }
}
