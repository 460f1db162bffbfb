//! Copies of tensors, so that each step of a chain has its own.

ghost use Rattle.std.specs.Prelude.{◌≡◌, IfOk};

use sam_base::{Items, Name, Nums};
use sam_model::{Format, Tensor};
use std::alloc::{AllocError, Global};

fn copied_numbers(alloc: Global, numbers: &Nums) -> Result<Nums, AllocError>
    ensures { IfOk result (λ copy. copy ≡ numbers.now) }
{
    Ok(Nums::from_vec(numbers.as_slice().to_vec(alloc)?))
}

fn copied_formats(alloc: Global, formats: &[Format]) -> Result<Items<Format>, AllocError>
    ensures { IfOk result (λ copies. copies ≡ formats.now) }
{
    let mut copies = Items::new(alloc);
    for format in formats {
        copies.push(*format)?;
    }
    Ok(copies)
}

/// A copy of a tensor.
pub(crate) fn copied_tensor(alloc: Global, tensor: &Tensor) -> Result<Tensor, AllocError>
    ensures { IfOk result (λ copy. copy ≡ tensor.now) }
{
    Ok(Tensor {
        name: Name::from_slice(alloc, tensor.name.as_bytes())?,
        dims: copied_numbers(alloc, &tensor.dims)?,
        formats: copied_formats(alloc, tensor.formats.as_slice())?,
        order: copied_numbers(alloc, &tensor.order)?,
        file: Name::from_slice(alloc, tensor.file.as_bytes())?,
    })
}

/// Copies of some tensors.
pub(crate) fn copied_tensors(alloc: Global, tensors: &[Tensor]) -> Result<Items<Tensor>, AllocError>
    ensures { IfOk result (λ copies. copies ≡ tensors.now) }
{
    let mut copies = Items::new(alloc);
    for tensor in tensors {
        copies.push(copied_tensor(alloc, tensor)?)?;
    }
    Ok(copies)
}
