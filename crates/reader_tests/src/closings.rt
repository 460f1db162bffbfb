//! What is found of a matrix, closed over its dense levels, by hand.

ghost use Rattle.std.specs.Prelude.{◌≡◌, ◌-◌, ◌^◌, [], ◌∷◌, true, IfOk};
ghost use Rattle.sam_model.specs.Accepted.{is_well_formed};
ghost use Rattle.sam_model.specs.Listing.{InRange, listing};

use sam_base::{Items, Name, Nums};
use sam_model::{Format, Tensor, Written};
use std::alloc::{AllocError, Global};
use std::test::Fail;
use tns_io::{close_result, result_text};

/// A matrix of 3 by 2 with these formats.
fn matrix(alloc: Global, outer: Format, inner: Format) -> Result<Tensor, AllocError>
    ensures dims { IfOk result (λ t. t.dims ≡ 3 ∷ 2 ∷ []) }
    ensures order { IfOk result (λ t. t.order ≡ 0 ∷ 1 ∷ []) }
    ensures formed { IfOk result (λ t. is_well_formed t ≡ true) }
{
    Ok(Tensor {
        name: Name::new(alloc),
        dims: Nums::from_vec(vec![in alloc; 3, 2]?),
        formats: Items::from_vec(vec![in alloc; outer, inner]?),
        order: Nums::from_vec(vec![in alloc; 0, 1]?),
        file: Name::new(alloc),
    })
}

/// What is found of it: 5 in the first row, -7 and 8 in the last.
fn found(alloc: Global) -> Result<Written, AllocError>
    ensures in_range { IfOk result (InRange 2) }
    ensures listed { IfOk result (λ w. listing w ≡ (0 ∷ 1 ∷ [], 5) ∷ (2 ∷ 0 ∷ [], 2 ^ 64 - 7) ∷ (2 ∷ 1 ∷ [], 8) ∷ []) }
{
    let rows = Nums::from_vec(vec![in alloc; 0, 2]?);
    let columns = Nums::from_vec(vec![in alloc; 1, 0, 1]?);
    let all = Nums::from_vec(vec![in alloc; 0, 2]?);
    let each = Nums::from_vec(vec![in alloc; 0, 1, 3]?);
    Ok(Written {
        segs: Items::from_vec(vec![in alloc; all, each]?),
        crds: Items::from_vec(vec![in alloc; rows, columns]?),
        vals: Nums::from_vec(vec![in alloc; 5, 7u64.wrapping_neg(), 8]?),
    })
}

/// The text of what is found, closed.
fn closed_text(alloc: Global, outer: Format, inner: Format) -> Result<Name, Fail> {
    let declared = matrix(alloc, outer, inner)?;
    match close_result(alloc, &declared, found(alloc)?) {
        Ok(closed) => Ok(result_text(alloc, &declared, &closed)?),
        Err(_) => Err(Fail::from("the result isn't closed")),
    }
}

#[test]
fn results_are_closed(rt: HostRuntime) -> Result<(), Fail> {
    let c = Format::Compressed;
    let d = Format::Dense;
    for (outer, inner, text) in [
        (c, c, "1 2 5\n3 1 -7\n3 2 8\n"),
        (d, c, "1 2 5\n3 1 -7\n3 2 8\n"),
        (c, d, "1 1 0\n1 2 5\n3 1 -7\n3 2 8\n"),
        (d, d, "1 1 0\n1 2 5\n2 1 0\n2 2 0\n3 1 -7\n3 2 8\n"),
    ] {
        let told = closed_text(rt.alloc(), outer, inner)?;
        assert!(rt; told.as_bytes() == text.as_bytes(), "{outer:?} {inner:?}");
    }
    Ok(())
}
