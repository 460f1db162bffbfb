//! Variables and tensors by numbers.

ghost use Rattle.std.specs.Prelude.{◌≡◌, IfOk};
ghost use Rattle.std.specs.List.{list_all};
ghost use mathlib.Core.List.{map};
ghost use Rattle.sam_model.specs.Accepted.{is_named};
ghost use Rattle.program_file.specs.Accesses.{is_known};
ghost use Rattle.program_file.specs.Numbers.{are_loops, names_of, numbering, place_of, places, name_at, size_of, tensor_place, number_of};

use crate::accesses::{Variable, is_known};
use sam_base::{Items, Name, Nums};
use sam_model::{Tensor, distinct_names, is_named};
use std::alloc::{AllocError, Global};

fn all_known(loops: &[Name], vars: &[Variable]) -> bool
    ensures { result ≡ list_all (λ n. is_known n vars.now) loops.now }
{
    loops.iter().all(|name| is_known(name.as_bytes(), vars))
}

fn all_named(vars: &[Variable], loops: &[Name]) -> bool
    ensures { result ≡ list_all (λ v. is_named v.name loops.now) vars.now }
{
    vars.iter().all(|v| is_named(v.name.as_bytes(), loops))
}

/// Whether the loops are the variables, each exactly once.
pub(crate) fn are_loops(vars: &[Variable], loops: &[Name]) -> bool
    ensures { result ≡ are_loops vars.now loops.now }
{
    loops.len() == vars.len()
        && all_known(loops, vars)
        && distinct_names(loops)
        && all_named(vars, loops)
}

/// Copies of some names.
pub(crate) fn copied_names(alloc: Global, names: &[Name]) -> Result<Items<Name>, AllocError>
    ensures { IfOk result (λ copies. copies ≡ names.now) }
{
    let mut copies = Items::new(alloc);
    for name in names {
        copies.push(Name::from_slice(alloc, name.as_bytes())?)?;
    }
    Ok(copies)
}

fn names_of(alloc: Global, vars: &[Variable]) -> Result<Items<Name>, AllocError>
    ensures { IfOk result (λ names. names ≡ names_of vars.now) }
{
    let mut names = Items::new(alloc);
    for v in vars {
        names.push(Name::from_slice(alloc, v.name.as_bytes())?)?;
    }
    Ok(names)
}

/// The variables in the order of their numbers: that of the loops where these are right, and else that of their first places
/// in the statement.
pub(crate) fn numbering(
    alloc: Global,
    vars: &[Variable],
    loops: &[Name],
) -> Result<Items<Name>, AllocError>
    ensures { IfOk result (λ names. names ≡ numbering vars.now loops.now) }
{
    if are_loops(vars, loops) {
        copied_names(alloc, loops)
    } else {
        names_of(alloc, vars)
    }
}

/// The number of a variable.
pub(crate) fn place_of(names: &[Name], name: &[u8]) -> usize
    ensures { result ≡ place_of names.now name.now }
{
    names
        .iter()
        .take_while(|other| name != other.as_bytes())
        .count()
}

/// The numbers of these variables.
pub(crate) fn places(alloc: Global, names: &[Name], vars: &[Name]) -> Result<Nums, AllocError>
    ensures { IfOk result (λ found. found ≡ places names.now vars.now) }
{
    let mut found = Nums::new(alloc);
    for name in vars {
        found.push(place_of(names, name.as_bytes()) as u64)?;
    }
    Ok(found)
}

/// The variable of a number.
pub(crate) fn name_at(names: &[Name], number: u64) -> &[u8]
    ensures { result.now ≡ name_at names.now number }
{
    match names {
        [] => b"",
        [first, rest @ ..] => {
            if number == 0 {
                first.as_bytes()
            } else {
                name_at(rest, number - 1)
            }
        }
    }
}

/// The dimension at the first place of a variable.
fn size_of(vars: &[Variable], name: &[u8]) -> u64
    ensures { result ≡ size_of vars.now name.now }
{
    match vars {
        [] => 0,
        [first, rest @ ..] => {
            if name == first.name.as_bytes() {
                first.size
            } else {
                size_of(rest, name)
            }
        }
    }
}

/// The sizes of the variables with these names.
pub(crate) fn sizes_of(alloc: Global, vars: &[Variable], names: &[Name]) -> Result<Nums, AllocError>
    ensures { IfOk result (λ sizes. sizes ≡ map (size_of vars.now) names.now) }
{
    let mut sizes = Nums::new(alloc);
    for name in names {
        sizes.push(size_of(vars, name.as_bytes()))?;
    }
    Ok(sizes)
}

/// The place of a tensor among the declared ones.
fn place_of_tensor(tensors: &[Tensor], name: &[u8]) -> usize
    ensures { result ≡ tensor_place tensors.now name.now }
{
    tensors
        .iter()
        .take_while(|tensor| name != tensor.name.as_bytes())
        .count()
}

/// The number of a tensor, by its name.
pub(crate) fn number_of(tensors: &[Tensor], name: &[u8]) -> u32
    ensures { result ≡ number_of tensors.now name.now }
{
    let place = place_of_tensor(tensors, name);
    if place < u32::MAX as usize {
        place as u32
    } else {
        u32::MAX
    }
}
