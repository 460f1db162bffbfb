//! The trees that the labels of a draft name.

ghost use Rattle.std.specs.Prelude.{◌≡◌};
ghost use Rattle.custard_lower.specs.Trees.{product_tree, bottom_tree, reduced_tree, pruned_tree};

use stream_model::Tree;

/// From this length on no prefix is left out, since no tree is deeper than 8.
const UNPRUNED: u8 = 9;

/// The trees of a term: its own, or those beneath so many levels that it shares with all terms up to number `last`.
#[derive(Clone, Copy, Debug, Drop)]
pub enum TermTrees {
    Own { term: u8 },
    Shared { term: u8, last: u8, levels: u8 },
}

impl TermTrees {
    /// The tree of its loops down to a level, where the accesses of a mask are asked.
    pub fn product(self, level: u8, mask: u8) -> Tree
        ensures { result ≡ product_tree self level mask }
    {
        match self {
            TermTrees::Own { term } => Tree::Product { term, level, mask },
            TermTrees::Shared { term, .. } => Tree::Under { term, level, mask },
        }
    }

    /// The tree of all its loops. Where these are the shared levels alone, what is told of the term stands beside what all
    /// terms have.
    pub fn bottom(self, loops: u8, mask: u8) -> Tree
        ensures { result ≡ bottom_tree self loops mask }
    {
        match self {
            TermTrees::Own { term } => Tree::Product {
                term,
                level: loops,
                mask,
            },
            TermTrees::Shared { term, last, levels } => {
                if loops == levels {
                    Tree::Across {
                        upto: last,
                        term,
                        depth: levels,
                    }
                } else {
                    Tree::Under {
                        term,
                        level: loops,
                        mask,
                    }
                }
            }
        }
    }

    /// The tree without so many loops.
    pub fn reduced(self, gone: u8, depth: u8) -> Tree
        ensures { result ≡ reduced_tree self gone depth }
    {
        match self {
            TermTrees::Own { term } => Tree::Reduced {
                term,
                gone,
                prune: UNPRUNED,
                depth,
            },
            TermTrees::Shared { term, .. } => Tree::UnderReduced { term, gone, depth },
        }
    }
}

/// The trees from which prefixes are left out that have no value: those of a term without so many loops, or those of the terms
/// up to number `last` beneath the levels that they share.
#[derive(Clone, Copy, Debug, Drop)]
pub enum PrunedTrees {
    OfTerm { term: u8, gone: u8 },
    OfAll { last: u8 },
}

impl PrunedTrees {
    /// The tree of a depth, where prefixes of length `prune` or more are left out.
    pub fn pruned(self, prune: u8, depth: u8) -> Tree
        ensures { result ≡ pruned_tree self prune depth }
    {
        match self {
            PrunedTrees::OfTerm { term, gone } => Tree::Reduced {
                term,
                gone,
                prune,
                depth,
            },
            PrunedTrees::OfAll { last } => Tree::UnderJoined { last, prune, depth },
        }
    }
}
