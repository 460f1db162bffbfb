//! What the labels of a block name.

ghost use Rattle.std.specs.Prelude.{◌≡◌};
ghost use Rattle.label_rules.specs.Labels.{same_label, same_labels, port_label, just_these, ports_allow};
ghost use Rattle.label_rules.specs.Named.{tree_term, tree_level, tree_gone, tree_mask, tree_side, attr_number, last_label};

use stream_model::{Attr, Label, Side, Tree};

/// The label that stands for one that isn't there.
pub(crate) const NO_LABEL: Label = Label {
    tree: Tree::Root,
    attr: Attr::Literal(0),
};

/// Its term, or the last one of several.
pub(crate) fn tree_term(tree: Tree) -> u8
    ensures { result ≡ tree_term tree }
{
    match tree {
        Tree::Root => 0,
        Tree::Product { term, .. }
        | Tree::Reduced { term, .. }
        | Tree::Across { term, .. }
        | Tree::Under { term, .. }
        | Tree::UnderReduced { term, .. } => term,
        Tree::Joined { last, .. } | Tree::Beside { last, .. } | Tree::UnderJoined { last, .. } =>
            last,
    }
}

/// Its depth.
pub(crate) fn tree_level(tree: Tree) -> u8
    ensures { result ≡ tree_level tree }
{
    match tree {
        Tree::Root => 0,
        Tree::Product { level, .. } | Tree::Under { level, .. } => level,
        Tree::Reduced { depth, .. }
        | Tree::Joined { depth, .. }
        | Tree::Beside { depth, .. }
        | Tree::Across { depth, .. }
        | Tree::UnderReduced { depth, .. }
        | Tree::UnderJoined { depth, .. } => depth,
    }
}

/// How many loops are gone.
pub(crate) fn tree_gone(tree: Tree) -> u8
    ensures { result ≡ tree_gone tree }
{
    match tree {
        Tree::Reduced { gone, .. } => gone,
        _ => 0,
    }
}

pub(crate) fn tree_mask(tree: Tree) -> u8
    ensures { result ≡ tree_mask tree }
{
    match tree {
        Tree::Product { mask, .. } => mask,
        _ => 0,
    }
}

pub(crate) fn tree_side(tree: Tree) -> Side
    ensures { result ≡ tree_side tree }
{
    match tree {
        Tree::Beside { side, .. } => side,
        _ => Side::Left,
    }
}

/// A factor, a number of factors or a literal.
pub(crate) fn attr_number(attr: Attr) -> u64
    ensures { result ≡ attr_number attr }
{
    match attr {
        Attr::Rank(f) | Attr::FactorValue(f) | Attr::Partial(f) => f as u64,
        Attr::Literal(n) => n,
        _ => 0,
    }
}

/// The label at a port.
pub(crate) fn at_port(labels: &[Label], port: usize) -> Label
    ensures { result ≡ port_label labels.now port }
{
    match labels.get(port) {
        Some(label) => *label,
        None => NO_LABEL,
    }
}

/// The label at the last port.
pub(crate) fn at_last_port(labels: &[Label]) -> Label
    ensures { result ≡ last_label labels.now }
{
    match labels {
        [] => NO_LABEL,
        [label] => *label,
        [_, rest @ ..] => at_last_port(rest),
    }
}

/// Whether two labels are the same.
pub(crate) fn is_same(label: Label, other: Label) -> bool
    ensures { result ≡ same_label label other }
{
    label == other
}

/// Whether two lists of labels are the same.
pub(crate) fn are_same(labels: &[Label], others: &[Label]) -> bool
    ensures { result ≡ same_labels labels.now others.now }
{
    match labels {
        [] => others.is_empty(),
        [label, labels @ ..] => match others {
            [] => false,
            [other, others @ ..] => is_same(*label, *other) & are_same(labels, others),
        },
    }
}

/// Whether just these labels stand at the ports.
pub(crate) fn are_just(labels: &[Label], these: &[Label]) -> bool
    ensures { result ≡ ports_allow (just_these these.now) labels.now }
{
    are_same(labels, these)
}
