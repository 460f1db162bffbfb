//! The texts of labels.

use std::alloc::AllocError;
use stream_model::Attr::{
    self, Coordinate, FactorValue, Literal, Partial, Present, Rank, SideValue, Value, Whole,
};
use stream_model::Side::{Left, Right};
use stream_model::Tree::{
    self, Across, Beside, Joined, Product, Reduced, Root, Under, UnderJoined, UnderReduced,
};
use stream_model::{Label, label_text};

#[test]
fn each_tree_and_each_attribute(rt: HostRuntime) -> Result<(), AllocError> {
    let product = Product {
        term: 0,
        level: 2,
        mask: 3,
    };
    let reduced = Reduced {
        term: 1,
        gone: 2,
        prune: 9,
        depth: 0,
    };
    let joined = Joined { last: 15, depth: 8 };
    let left = Beside {
        last: 1,
        side: Left,
        depth: 2,
    };
    let right = Beside {
        last: 255,
        side: Right,
        depth: 1,
    };
    let across = Across {
        upto: 15,
        term: 1,
        depth: 8,
    };
    let under = Under {
        term: 2,
        level: 8,
        mask: 255,
    };
    let under_reduced = UnderReduced {
        term: 3,
        gone: 2,
        depth: 1,
    };
    let under_joined = UnderJoined {
        last: 15,
        prune: 9,
        depth: 4,
    };
    let rows: [(Tree, Attr, &[u8]); 18] = [
        (Root, Literal(0), b"root"),
        (product, Coordinate, b"product 0 2 3 coordinate"),
        (product, Rank(1), b"product 0 2 3 rank 1"),
        (product, FactorValue(7), b"product 0 2 3 factor 7"),
        (product, Partial(8), b"product 0 2 3 partial 8"),
        (product, Whole, b"product 0 2 3 whole"),
        (reduced, Value, b"reduced 1 2 9 0 value"),
        (
            reduced,
            Literal(u64::MAX),
            b"reduced 1 2 9 0 literal 18446744073709551615",
        ),
        (joined, Present(Left), b"joined 15 8 present left"),
        (joined, Present(Right), b"joined 15 8 present right"),
        (joined, SideValue(Left), b"joined 15 8 value left"),
        (left, Value, b"beside 1 left 2 value"),
        (right, SideValue(Right), b"beside 255 right 1 value right"),
        (across, Coordinate, b"across 15 1 8 coordinate"),
        (across, FactorValue(7), b"across 15 1 8 factor 7"),
        (under, Rank(0), b"under 2 8 255 rank 0"),
        (under_reduced, Value, b"underreduced 3 2 1 value"),
        (under_joined, Value, b"underjoined 15 9 4 value"),
    ];
    for (tree, attr, text) in rows {
        let told = label_text(rt.alloc(), &Label { tree, attr })?;
        assert_eq!(rt; told.as_bytes(), text);
    }
    Ok(())
}
