//! Tensors that are stored from entries at hand.

ghost use Rattle.std.specs.Prelude.{◌≡◌, ℕ, Some, length, slice_get, IfOk};
ghost use Rattle.sam_model.specs.declared.tensors.Tensor.{Tensor as OneTensor};
ghost use Rattle.sam_model.specs.declared.tensors.Entries.{Entries as SomeEntries};
ghost use Rattle.sam_model.specs.Tensors.{stored_as};
ghost use Rattle.sam_model.specs.Children.{ranked};
ghost use Rattle.inputs.specs.Tensors.{AreStored};
ghost use Rattle.gen_data.specs.Workload.{MayBeStored};

use levels::{BuildFault, Storage};
use sam_base::Items;
use sam_model::{Entries, Tensor};
use std::alloc::{AllocError, Global};

/// Stores a tensor whose entries may be stored.
fn stored(alloc: Global, entries: &Entries, t: &Tensor) -> Result<Storage, AllocError>
    requires { MayBeStored t.now entries.now }
    ensures { IfOk result (λ storage. storage ≡ ranked (stored_as t.now entries.now)) }
{
    match Storage::build(alloc, entries, t) {
        Ok(storage) => Ok(storage),
        Err(BuildFault::TooManyPositions) => unreachable!(),
        Err(BuildFault::OutOfMemory) => Err(AllocError),
    }
}

/// Stores each tensor from its entries, which may be stored.
pub(crate) fn storages(
    alloc: Global,
    tensors: &[Tensor],
    entries: &[Entries],
) -> Result<Items<Storage>, AllocError>
    requires each { length entries.now ≡ length tensors.now }
    requires may { (k : ℕ) (t : OneTensor) (e : SomeEntries) →
        slice_get tensors.now k ≡ Some t → slice_get entries.now k ≡ Some e → MayBeStored t e }
    ensures { IfOk result (AreStored tensors.now entries.now) }
{
    let mut storages = Items::new(alloc);
    for k in 0..entries.len() {
        storages.push(stored(alloc, &entries[k], &tensors[k])?)?;
    }
    Ok(storages)
}
