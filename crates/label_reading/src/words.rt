//! What the words of a label and the arguments behind them stand for.

ghost use Rattle.std.specs.Prelude.{◌≡◌, Option, option_map};
ghost use Rattle.label_reading.specs.Words.{argument_in, side_with, one, two, three, four, tree_with, value_with, literal_with, attr_with};

use sam_text::read_u64;
use stream_model::{Attr, Side, Tree};

/// What an argument stands for: a side is told by 0 or 1, a decimal by its number.
pub(crate) fn argument(word: &[u8]) -> Option<u64>
    ensures { result ≡ argument_in word.now }
{
    if word == b"left".as_slice() {
        return Some(0);
    }
    if word == b"right".as_slice() {
        return Some(1);
    }
    match read_u64(word, 0, word.len()) {
        Ok(number) => Some(number),
        Err(_) => None,
    }
}

fn side_with(number: u8) -> Side
    ensures { result ≡ side_with number }
{
    if number == 0 { Side::Left } else { Side::Right }
}

fn one(arguments: &[u64]) -> Option<u8>
    ensures { result ≡ one arguments.now }
{
    match arguments {
        [a] if *a < 256 => Some(*a as u8),
        _ => None,
    }
}

fn two(arguments: &[u64]) -> Option<(u8, u8)>
    ensures { result ≡ two arguments.now }
{
    match arguments {
        [a, b] if *a < 256 && *b < 256 => Some((*a as u8, *b as u8)),
        _ => None,
    }
}

fn three(arguments: &[u64]) -> Option<(u8, u8, u8)>
    ensures { result ≡ three arguments.now }
{
    match arguments {
        [a, b, c] if *a < 256 && *b < 256 && *c < 256 => Some((*a as u8, *b as u8, *c as u8)),
        _ => None,
    }
}

fn four(arguments: &[u64]) -> Option<(u8, u8, u8, u8)>
    ensures { result ≡ four arguments.now }
{
    match arguments {
        [a, b, c, d] if *a < 256 && *b < 256 && *c < 256 && *d < 256 => {
            Some((*a as u8, *b as u8, *c as u8, *d as u8))
        }
        _ => None,
    }
}

/// The tree that a word and its arguments stand for; the root stands alone and isn't among them.
pub(crate) fn tree_with(word: &[u8], arguments: &[u64]) -> Option<Tree>
    ensures { result ≡ tree_with word.now arguments.now }
{
    if word == b"product".as_slice() {
        three(arguments).map(|(term, level, mask)| Tree::Product { term, level, mask })
    } else if word == b"reduced".as_slice() {
        four(arguments).map(|(term, gone, prune, depth)| Tree::Reduced {
            term,
            gone,
            prune,
            depth,
        })
    } else if word == b"joined".as_slice() {
        two(arguments).map(|(last, depth)| Tree::Joined { last, depth })
    } else if word == b"beside".as_slice() {
        let (last, side, depth) = three(arguments)?;
        let side = side_with(side);
        Some(Tree::Beside { last, side, depth })
    } else if word == b"across".as_slice() {
        three(arguments).map(|(upto, term, depth)| Tree::Across { upto, term, depth })
    } else if word == b"under".as_slice() {
        three(arguments).map(|(term, level, mask)| Tree::Under { term, level, mask })
    } else if word == b"underreduced".as_slice() {
        three(arguments).map(|(term, gone, depth)| Tree::UnderReduced { term, gone, depth })
    } else if word == b"underjoined".as_slice() {
        three(arguments).map(|(last, prune, depth)| Tree::UnderJoined { last, prune, depth })
    } else {
        None
    }
}

/// A value, or that of a side.
fn value_with(arguments: &[u64]) -> Option<Attr>
    ensures { result ≡ value_with arguments.now }
{
    match arguments {
        [] => Some(Attr::Value),
        _ => {
            let side = one(arguments)?;
            Some(Attr::SideValue(side_with(side)))
        }
    }
}

fn literal_with(arguments: &[u64]) -> Option<Attr>
    ensures { result ≡ literal_with arguments.now }
{
    match arguments {
        [number] => Some(Attr::Literal(*number)),
        _ => None,
    }
}

/// What is told of each prefix, by a word and its arguments.
pub(crate) fn attr_with(word: &[u8], arguments: &[u64]) -> Option<Attr>
    ensures { result ≡ attr_with word.now arguments.now }
{
    if word == b"coordinate".as_slice() {
        Some(Attr::Coordinate)
    } else if word == b"rank".as_slice() {
        one(arguments).map(Attr::Rank)
    } else if word == b"factor".as_slice() {
        one(arguments).map(Attr::FactorValue)
    } else if word == b"partial".as_slice() {
        one(arguments).map(Attr::Partial)
    } else if word == b"whole".as_slice() {
        Some(Attr::Whole)
    } else if word == b"value".as_slice() {
        value_with(arguments)
    } else if word == b"present".as_slice() {
        let side = one(arguments)?;
        Some(Attr::Present(side_with(side)))
    } else if word == b"literal".as_slice() {
        literal_with(arguments)
    } else {
        None
    }
}
