//! Labels as text.

ghost use Rattle.std.specs.Prelude.{◌≡◌, ◌++◌, decimal, IfOk, OnOk, [], ◌∷◌};
ghost use Rattle.stream_model.specs.Texts.{side_text, spaced, tree_text, attr_text, text_of_label};

use crate::labels::{Attr, Label, Side, Tree};
use itoa::Buffer;
use sam_base::Name;
use std::alloc::{AllocError, Global};

fn side_word(side: Side) -> &'static str
    ensures { result.now ≡ side_text side }
{
    match side {
        Side::Left => "left",
        Side::Right => "right",
    }
}

fn word(text: &mut Name, word: &str) -> Result<(), AllocError>
    ensures { OnOk result (text.new ≡ text.old ++ word.now) }
{
    text.append(word.as_bytes())
}

/// Appends a space and a number.
fn number(text: &mut Name, n: u64) -> Result<(), AllocError>
    ensures { OnOk result (text.new ≡ text.old ++ 32 ∷ decimal n) }
{
    text.push(b' ')?;
    let mut digits = Buffer::new();
    text.append(digits.format(n).as_bytes())
}

/// Appends numbers, each after a space.
fn numbers(text: &mut Name, ns: &[u8]) -> Result<(), AllocError>
    ensures { OnOk result (text.new ≡ text.old ++ spaced ns.now) }
{
    for &n in ns {
        number(text, u64::from(n))?;
    }
    Ok(())
}

fn append_tree(text: &mut Name, tree: Tree) -> Result<(), AllocError>
    ensures { OnOk result (text.new ≡ text.old ++ tree_text tree) }
{
    match tree {
        Tree::Root => word(text, "root"),
        Tree::Product { term, level, mask } => {
            word(text, "product")?;
            numbers(text, &[term, level, mask])
        }
        Tree::Reduced {
            term,
            gone,
            prune,
            depth,
        } => {
            word(text, "reduced")?;
            numbers(text, &[term, gone, prune, depth])
        }
        Tree::Joined { last, depth } => {
            word(text, "joined")?;
            numbers(text, &[last, depth])
        }
        Tree::Beside { last, side, depth } => {
            word(text, "beside")?;
            number(text, u64::from(last))?;
            text.push(b' ')?;
            word(text, side_word(side))?;
            number(text, u64::from(depth))
        }
        Tree::Across { upto, term, depth } => {
            word(text, "across")?;
            numbers(text, &[upto, term, depth])
        }
        Tree::Under { term, level, mask } => {
            word(text, "under")?;
            numbers(text, &[term, level, mask])
        }
        Tree::UnderReduced { term, gone, depth } => {
            word(text, "underreduced")?;
            numbers(text, &[term, gone, depth])
        }
        Tree::UnderJoined { last, prune, depth } => {
            word(text, "underjoined")?;
            numbers(text, &[last, prune, depth])
        }
    }
}

fn append_attr(text: &mut Name, attr: Attr) -> Result<(), AllocError>
    ensures { OnOk result (text.new ≡ text.old ++ attr_text attr) }
{
    match attr {
        Attr::Coordinate => word(text, "coordinate"),
        Attr::Rank(f) => {
            word(text, "rank")?;
            number(text, u64::from(f))
        }
        Attr::FactorValue(f) => {
            word(text, "factor")?;
            number(text, u64::from(f))
        }
        Attr::Partial(k) => {
            word(text, "partial")?;
            number(text, u64::from(k))
        }
        Attr::Whole => word(text, "whole"),
        Attr::Value => word(text, "value"),
        Attr::Present(side) => {
            word(text, "present ")?;
            word(text, side_word(side))
        }
        Attr::SideValue(side) => {
            word(text, "value ")?;
            word(text, side_word(side))
        }
        Attr::Literal(n) => {
            word(text, "literal")?;
            number(text, n)
        }
    }
}

/// The words and numbers of the tree, then those of the attribute, with single spaces. The root has no attribute in its
/// text.
pub fn label_text(alloc: Global, l: &Label) -> Result<Name, AllocError>
    ensures { IfOk result (λ text. text ≡ text_of_label l.now) }
{
    let mut text = Name::new(alloc);
    append_tree(&mut text, l.tree)?;
    if l.tree != Tree::Root {
        text.push(b' ')?;
        append_attr(&mut text, l.attr)?;
    }
    Ok(text)
}
