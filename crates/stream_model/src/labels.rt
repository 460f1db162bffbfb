//! The labels of channels.

/// A side of a join of two trees.
#[derive(Clone, Copy, Debug, Drop, PartialEq, Eq)]
pub enum Side {
    Left,
    Right,
}

/// A tree of prefixes of index tuples, down to a depth. Terms are counted from 0.
#[derive(Clone, Copy, Debug, Drop, PartialEq, Eq)]
pub enum Tree {
    /// The empty prefix alone.
    Root,
    /// The prefixes of a term's loops, down to a level. Bit F of the mask is set for each access factor F that restricts
    /// the last level; the levels before are restricted by each factor that has their variable.
    Product {
        term: u8,
        level: u8,
        mask: u8,
    },
    /// The same without so many reduced variables, innermost first. Prefixes of length `prune` or more without a value
    /// are left out; where it is 9, none is.
    Reduced {
        term: u8,
        gone: u8,
        prune: u8,
        depth: u8,
    },
    /// The union of the trees of the terms up to this last one, without prefixes that have no value.
    Joined {
        last: u8,
        depth: u8,
    },
    /// The prefixes of one side of a join, beneath the joined prefixes that are one shorter. On the left are the terms
    /// before `last`, on the right is term `last`.
    Beside {
        last: u8,
        side: Side,
        depth: u8,
    },
    /// The prefixes that several terms share: those that some term has, and of length `depth` those that some term up to
    /// `upto` has. What is told is told by the factors of `term`, where it has the prefix.
    Across {
        upto: u8,
        term: u8,
        depth: u8,
    },
    /// The prefixes of a term's loops, down to a level, beneath the shared ones: on the shared levels before it those that
    /// some term has, on the others those of the term's own tree. The mask is as that of `Product`.
    Under {
        term: u8,
        level: u8,
        mask: u8,
    },
    /// The shared prefixes, and beneath them those of a term without so many reduced variables, innermost first.
    UnderReduced {
        term: u8,
        gone: u8,
        depth: u8,
    },
    /// The shared prefixes, with the sum of the terms up to `last`. Prefixes of length `prune` or more without a value are
    /// left out; where it is 9, none is.
    UnderJoined {
        last: u8,
        prune: u8,
        depth: u8,
    },
}

/// What is told of each prefix of a tree. Access factors of a term are counted from 0.
#[derive(Clone, Copy, Debug, Drop, PartialEq, Eq)]
pub enum Attr {
    /// Its last coordinate.
    Coordinate,
    /// The rank, among the stored prefixes of this factor's tensor, of its coordinates there.
    Rank(u8),
    /// The value of this factor there.
    FactorValue(u8),
    /// The product of so many first factors.
    Partial(u8),
    /// The product of all factors with the term's coefficient.
    Whole,
    /// The tree's value there.
    Value,
    /// 1 where this side has the prefix.
    Present(Side),
    /// This side's value there.
    SideValue(Side),
    /// This number.
    Literal(u64),
}

/// What passes over a channel: for each prefix of the tree, in order, what the attribute tells of it.
#[derive(Clone, Copy, Debug, Drop, PartialEq, Eq)]
pub struct Label {
    pub tree: Tree,
    pub attr: Attr,
}
