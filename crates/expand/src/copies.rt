//! Copies of factors.

ghost use Rattle.std.specs.Prelude.{◌≡◌, ◌++◌, IfOk, OnOk};

use sam_base::{Items, Nums};
use sam_model::Factor;
use std::alloc::{AllocError, Global};

/// A copy of a list of variables.
pub fn copied_vars(alloc: Global, vars: &Nums) -> Result<Nums, AllocError>
    ensures { IfOk result (λ copy. copy ≡ vars.now) }
{
    Ok(Nums::from_vec(vars.as_slice().to_vec(alloc)?))
}

fn copied_factor(alloc: Global, factor: &Factor) -> Result<Factor, AllocError>
    ensures { IfOk result (λ copy. copy ≡ factor.now) }
{
    match factor {
        Factor::Access { tensor, vars } => Ok(Factor::Access {
            tensor: *tensor,
            vars: copied_vars(alloc, vars)?,
        }),
        Factor::Literal(number) => Ok(Factor::Literal(*number)),
    }
}

/// Appends copies of some factors.
pub fn append_factors(
    alloc: Global,
    factors: &mut Items<Factor>,
    more: &[Factor],
) -> Result<(), AllocError>
    ensures { OnOk result (factors.new ≡ factors.old ++ more.now) }
{
    for factor in more {
        factors.push(copied_factor(alloc, factor)?)?;
    }
    Ok(())
}
