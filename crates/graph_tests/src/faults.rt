//! Which rule on its wiring a small graph breaks, and where.

use crate::building::{Ends, Port, graph_of};
use graph::Kind::{self, Cast, Drain, Mul, Root};
use graph_wiring::WiringFault::{self, Cycle, Ports, Stray};
use graph_wiring::wiring_fault;
use std::test::Fail;

/// Of each graph the kinds, the input ports, the output ports, the channels, and the answer.
#[test]
fn first_fault_is_told(rt: HostRuntime) -> Result<(), Fail> {
    let alloc = rt.alloc();
    let copy = Cast { outs: 1 };
    let twice = Cast { outs: 2 };
    let rows: [(&[Kind], &[Port], &[Port], &[Ends], Option<WiringFault>); 6] = [
        // a root that leads to a drain
        (&[Root, Drain], &[(1, 0)], &[(0, 0)], &[(0, 0, 1, 0)], None),
        // a product of one factor, and a stray channel
        (
            &[Root, Mul, Drain],
            &[(1, 0), (2, 1)],
            &[(0, 0), (1, 1)],
            &[(0, 0, 1, 0), (1, 0, 2, 0), (7, 0, 7, 0)],
            Some(Ports(1)),
        ),
        // a channel that stands at no port, beside a ring
        (
            &[copy, copy],
            &[(0, 1), (1, 0)],
            &[(0, 0), (1, 1)],
            &[(0, 0, 1, 0), (1, 0, 0, 0), (0, 0, 1, 0)],
            Some(Stray(2)),
        ),
        // a block between two that each feed themselves
        (
            &[copy, twice, Mul],
            &[(0, 1), (1, 0), (2, 2), (2, 3)],
            &[(0, 2), (1, 0), (1, 1), (2, 3)],
            &[(1, 0, 1, 0), (1, 1, 0, 0), (0, 0, 2, 0), (2, 0, 2, 1)],
            Some(Cycle(1)),
        ),
        // a root that feeds a ring of two, which drains
        (
            &[Drain, Root, twice, Mul],
            &[(0, 3), (2, 1), (3, 0), (3, 2)],
            &[(1, 0), (2, 2), (2, 3), (3, 1)],
            &[(1, 0, 3, 0), (3, 0, 2, 0), (2, 0, 3, 1), (2, 1, 0, 0)],
            Some(Cycle(2)),
        ),
        // a ring of three, whose last blocks come first
        (
            &[copy, copy, copy],
            &[(0, 1), (1, 2), (2, 0)],
            &[(0, 0), (1, 1), (2, 2)],
            &[(0, 0, 2, 0), (1, 0, 0, 0), (2, 0, 1, 0)],
            Some(Cycle(0)),
        ),
    ];
    for (kinds, ins, outs, ends, fault) in rows {
        let g = graph_of(alloc, kinds, ins, outs, ends)?;
        assert_eq!(rt; wiring_fault(alloc, &g)?, fault);
    }
    Ok(())
}
