//! Which small graphs are well formed, and the order of their blocks.

use crate::building::{Ends, Port, graph_of};
use graph::Kind::{
    Array, Cast, Drain, DropValue, Intersect, Mul, Root, Scan, WriteLevel, WriteValue,
};
use graph::{Kind, forward_order, well_formed};
use std::alloc::{AllocError, Global};
use std::test::Fail;

/// The blocks in order, or no where the graph is not well formed.
fn order_text(
    alloc: Global,
    kinds: &[Kind],
    ins: &[Port],
    outs: &[Port],
    ends: &[Ends],
) -> Result<String, AllocError> {
    let g = graph_of(alloc, kinds, ins, outs, ends)?;
    if g.blocks.len() > 100 {
        return String::from_str(alloc, "too many blocks");
    }
    if !well_formed(alloc, &g)? {
        return String::from_str(alloc, "no");
    }
    let mut text = String::new(alloc);
    for b in &forward_order(alloc, &g)? {
        text.push_str(format!(in alloc; "{b} ")?.as_str())?;
    }
    Ok(text)
}

/// Of each graph the kinds, the input ports, the output ports, the channels, and the answer.
#[test]
fn wiring_is_found(rt: HostRuntime) -> Result<(), Fail> {
    let alloc = rt.alloc();
    let copy = Cast { outs: 1 };
    let rows: [(&[Kind], &[Port], &[Port], &[Ends], &str); 12] = [
        // nothing
        (&[], &[], &[], &[], ""),
        // the last block leads to the first
        (
            &[Drain, Root],
            &[(0, 0)],
            &[(1, 0)],
            &[(1, 0, 0, 0)],
            "1 0 ",
        ),
        // ports with each other's channels
        (
            &[Root, Root, Drain, Drain],
            &[(2, 1), (3, 0)],
            &[(0, 0), (1, 1)],
            &[(0, 0, 2, 0), (1, 0, 3, 0)],
            "no",
        ),
        // a channel at no port
        (
            &[Root, Drain],
            &[(1, 0)],
            &[(0, 0)],
            &[(0, 0, 1, 0), (0, 0, 1, 0)],
            "no",
        ),
        // channels that name each other's ports
        (
            &[Root, Root, Mul, Drain],
            &[(2, 0), (2, 1), (3, 2)],
            &[(0, 0), (1, 1), (2, 2)],
            &[(0, 0, 2, 1), (1, 0, 2, 0), (2, 0, 3, 0)],
            "no",
        ),
        // a product of one factor
        (
            &[Root, Mul, Drain],
            &[(1, 0), (2, 1)],
            &[(0, 0), (1, 1)],
            &[(0, 0, 1, 0), (1, 0, 2, 0)],
            "no",
        ),
        // two outputs of a root
        (
            &[Root, Drain, Drain],
            &[(1, 0), (2, 1)],
            &[(0, 0), (0, 1)],
            &[(0, 0, 1, 0), (0, 1, 2, 0)],
            "no",
        ),
        // a port without a channel
        (&[Root, Drain], &[(1, 1)], &[(0, 0)], &[(0, 0, 1, 0)], "no"),
        // a channel to no block, and one from none
        (&[Root], &[], &[(0, 0)], &[(0, 0, 1, 0)], "no"),
        (&[Drain], &[(0, 0)], &[], &[(1, 0, 0, 0)], "no"),
        // a ring, and a block that feeds itself
        (
            &[copy, copy],
            &[(0, 1), (1, 0)],
            &[(0, 0), (1, 1)],
            &[(0, 0, 1, 0), (1, 0, 0, 0)],
            "no",
        ),
        (
            &[Root, Mul],
            &[(1, 0), (1, 1)],
            &[(0, 0), (1, 1)],
            &[(0, 0, 1, 0), (1, 0, 1, 1)],
            "no",
        ),
    ];
    for (kinds, ins, outs, ends, text) in rows {
        assert_eq!(rt; order_text(alloc, kinds, ins, outs, ends)?.as_str(), text);
    }
    Ok(())
}

/// In the product of two vectors the last block feeds earlier ones.
#[test]
fn blocks_follow_their_senders(rt: HostRuntime) -> Result<(), Fail> {
    let alloc = rt.alloc();
    let kinds = [
        Root,
        Scan {
            tensor: 0,
            level: 1,
        },
        Scan {
            tensor: 1,
            level: 1,
        },
        Intersect { left: 1, right: 1 },
        Array { tensor: 0 },
        Array { tensor: 1 },
        Mul,
        DropValue,
        WriteLevel { level: 1 },
        WriteValue,
        Cast { outs: 2 },
    ];
    let ends = [
        (0, 0, 10, 0),
        (1, 0, 3, 0),
        (1, 1, 3, 1),
        (2, 0, 3, 2),
        (2, 1, 3, 3),
        (3, 0, 7, 0),
        (3, 1, 4, 0),
        (3, 2, 5, 0),
        (4, 0, 6, 0),
        (5, 0, 6, 1),
        (6, 0, 7, 1),
        (7, 0, 8, 0),
        (7, 1, 9, 0),
        (10, 0, 1, 0),
        (10, 1, 2, 0),
    ];
    let ins = [
        (1, 13),
        (2, 14),
        (3, 1),
        (3, 2),
        (3, 3),
        (3, 4),
        (4, 6),
        (5, 7),
        (6, 8),
        (6, 9),
        (7, 5),
        (7, 10),
        (8, 11),
        (9, 12),
        (10, 0),
    ];
    let outs = [
        (0, 0),
        (1, 1),
        (1, 2),
        (2, 3),
        (2, 4),
        (3, 5),
        (3, 6),
        (3, 7),
        (4, 8),
        (5, 9),
        (6, 10),
        (7, 11),
        (7, 12),
        (10, 13),
        (10, 14),
    ];
    let text = order_text(alloc, &kinds, &ins, &outs, &ends)?;
    assert_eq!(rt; text.as_str(), "0 10 1 2 3 4 5 6 7 8 9 ");
    Ok(())
}
