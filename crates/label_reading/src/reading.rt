//! The label that a text spells.

ghost use Rattle.std.specs.Prelude.{◌≡◌, IfOk, option_map};
ghost use Rattle.sam_text.specs.Words.{words};
ghost use Rattle.label_reading.specs.Words.{arguments_in, label_by, label_in};

use crate::words::{argument, attr_with, tree_with};
use sam_text::first_word;
use std::alloc::{AllocError, Global};
use stream_model::{Attr, Label, Tree, label_text};

/// The arguments at the beginning of a text, and what stands behind them.
fn arguments(alloc: Global, text: &[u8]) -> Result<(Vec<u64>, &[u8]), AllocError>
    ensures { IfOk result (λ found. (found.0.items, words found.1.now) ≡ arguments_in (words text.now)) }
{
    let mut arguments = Vec::new(alloc);
    let mut rest = text;
    while let Some((word, behind)) = first_word(rest) {
        match argument(word) {
            Some(number) => arguments.push(number)?,
            None => return Ok((arguments, rest)),
        }
        rest = behind;
    }
    Ok((arguments, rest))
}

/// The label of a tree's word and an attribute's word, each with the arguments behind it. What stands behind the last
/// argument isn't looked at.
fn label_by(alloc: Global, text: &[u8]) -> Result<Option<Label>, AllocError>
    ensures { IfOk result (λ label. label ≡ label_by (words text.now)) }
{
    let Some((tree_word, rest)) = first_word(text) else {
        return Ok(None);
    };
    if tree_word == b"root".as_slice() {
        return Ok(Some(Label {
            tree: Tree::Root,
            attr: Attr::Literal(0),
        }));
    }
    let (tree_arguments, rest) = arguments(alloc, rest)?;
    let Some((attr_word, rest)) = first_word(rest) else {
        return Ok(None);
    };
    let (attr_arguments, _) = arguments(alloc, rest)?;
    match tree_with(tree_word, &tree_arguments) {
        None => Ok(None),
        Some(tree) => match attr_with(attr_word, &attr_arguments) {
            None => Ok(None),
            Some(attr) => Ok(Some(Label { tree, attr })),
        },
    }
}

/// The label whose text this is, or None where it is the text of no label: words with single spaces, decimals without leading
/// zeros. `root` is the root with the number 0.
pub fn read_label(alloc: Global, text: &[u8]) -> Result<Option<Label>, AllocError>
    ensures { IfOk result (λ label. label ≡ label_in text.now) }
{
    let Some(label) = label_by(alloc, text)? else {
        return Ok(None);
    };
    let spelled = label_text(alloc, &label)?;
    if spelled.as_bytes() == text {
        Ok(Some(label))
    } else {
        Ok(None)
    }
}
