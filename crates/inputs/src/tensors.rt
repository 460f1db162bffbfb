//! The tensors of a program, as they are stored from their files.

ghost use Rattle.std.specs.Prelude.{◌≡◌, ◌*◌, ◌≤◌, List, length, true, IfOk, IfSome};
ghost use Rattle.std.specs.List.{list_all};
ghost use Rattle.sam_io.specs.Spans.{KeepsFiles, files_span};
ghost use Rattle.sam_model.specs.Accepted.{is_well_formed, is_operand};
ghost use Rattle.sam_model.specs.Lists.{within};
ghost use Rattle.sam_model.specs.Tensors.{entry_list};
ghost use Rattle.parts.specs.Parts.{gives, followed, each_part};
ghost use Rattle.parts.specs.Answers.{Comes, ComesAlways, IsFault};
ghost use Rattle.inputs.specs.Tensors.{entries_in, storage_part, stored_part, AreStored};

use levels::{BuildFault, Storage};
use parts::read_file;
use sam_base::{FILE_MOST, Fault, Items, Name, TnsKind, VARIABLES_MOST};
use sam_io::Files;
use sam_model::{Entries, Tensor};
use std::alloc::Global;
use tns_io::{TnsFault, read_tns};

/// The tensor that is told by a name is refused for this reason, at this line.
fn refused(alloc: Global, told: &Name, kind: TnsKind, line: u32) -> Fault
    ensures { IsFault (Fault.Tensor told.now kind line) result }
{
    match Name::from_slice(alloc, told.as_bytes()) {
        Ok(name) => Fault::Tensor { name, kind, line },
        Err(_) => Fault::OutOfMemory,
    }
}

/// The entries that a tensor's file spells.
fn spelled_entries(alloc: Global, text: Option<Name>, t: &Tensor) -> Result<Entries, Fault>
    requires short { IfSome text (λ bytes. length bytes ≤ FILE_MOST) }
    requires modes { length t.now.dims ≤ VARIABLES_MOST }
    ensures arity { IfOk result (λ e. e.arity ≡ length t.now.dims) }
    ensures whole { IfOk result (λ e. length e.coords ≡ e.arity * length e.values) }
    ensures inside { IfOk result (λ e.
        list_all (λ entry. within t.now.dims entry.0) (entry_list e.arity e.coords e.values) ≡ true) }
    ensures comes { ComesAlways (gives (entries_in t.now text)) result }
{
    let Some(text) = text else {
        return Err(refused(alloc, &t.file, TnsKind::FileTooLong, 0));
    };
    match read_tns(alloc, text.as_bytes(), &t.dims) {
        Ok(entries) => Ok(entries),
        Err(TnsFault::Refused { kind, line }) => Err(refused(alloc, &t.file, kind, line)),
        Err(TnsFault::OutOfMemory) => Err(Fault::OutOfMemory),
    }
}

/// Stores a tensor's entries. Where more prefixes of one length would be stored than may be, the tensor is refused by this name.
pub fn storage(alloc: Global, entries: &Entries, t: &Tensor, told: &Name) -> Result<Storage, Fault>
    requires tensor { is_well_formed t.now ≡ true }
    requires arity { entries.now.arity ≡ length t.now.dims }
    requires whole { length entries.now.coords ≡ entries.now.arity * length entries.now.values }
    requires inside { list_all (λ entry. within t.now.dims entry.0)
        (entry_list entries.now.arity entries.now.coords entries.now.values) ≡ true }
    ensures { ComesAlways (storage_part told.now t.now entries.now) result }
{
    match Storage::build(alloc, entries, t) {
        Ok(storage) => Ok(storage),
        Err(BuildFault::TooManyPositions) => Err(refused(
            alloc,
            told,
            TnsKind::TooManyPositions,
            0,
        )),
        Err(BuildFault::OutOfMemory) => Err(Fault::OutOfMemory),
    }
}

fn spelled_storage(alloc: Global, text: Option<Name>, t: &Tensor) -> Result<Storage, Fault>
    requires short { IfSome text (λ bytes. length bytes ≤ FILE_MOST) }
    requires tensor { is_well_formed t.now ≡ true }
    requires modes { length t.now.dims ≤ VARIABLES_MOST }
    ensures { ComesAlways (followed (gives (entries_in t.now text)) (storage_part t.now.file t.now)) result }
{
    match spelled_entries(alloc, text, t) {
        Err(fault) => Err(fault),
        Ok(entries) => storage(alloc, &entries, t, &t.file),
    }
}

/// Reads a tensor's file, and stores the tensor.
fn stored<F: Files>(alloc: Global, files: &mut F, t: &Tensor) -> Result<Storage, Fault>
    requires tensor { is_well_formed t.now ≡ true }
    requires modes { length t.now.dims ≤ VARIABLES_MOST }
    ensures keeps { KeepsFiles F.Files files.old files.new }
    ensures comes { Comes (stored_part t.now) (files_span F.Files files.old files.new) result }
{
    match read_file(alloc, files, &t.file) {
        Err(fault) => Err(fault),
        Ok(text) => spelled_storage(alloc, text, t),
    }
}

/// Reads the files of all tensors in their order, and stores each.
pub fn storages<F: Files>(
    alloc: Global,
    files: &mut F,
    tensors: &[Tensor],
) -> Result<Items<Storage>, Fault>
    requires { list_all is_operand tensors.now ≡ true }
    ensures keeps { KeepsFiles F.Files files.old files.new }
    ensures stored { IfOk result (λ stored. (entries : List Entries) × AreStored tensors.now entries stored) }
    ensures comes { Comes (each_part stored_part tensors.now) (files_span F.Files files.old files.new) result }
{
    let mut storages = Items::new(alloc);
    for tensor in tensors {
        match stored(alloc, files, tensor) {
            Err(fault) => return Err(fault),
            Ok(storage) => match storages.push(storage) {
                Err(_) => return Err(Fault::OutOfMemory),
                Ok(()) => {}
            },
        }
    }
    Ok(storages)
}
