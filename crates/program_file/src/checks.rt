//! The checks that follow when each access is right: of the sums, of the expanded terms, and of the order of the loops.

ghost use Rattle.std.specs.Prelude.{◌≡◌, option_copied, IfOk};
ghost use Rattle.std.specs.List.{list_any};
ghost use mathlib.Core.List.{map};
ghost use Rattle.sam_model.specs.Denote.{vars_of};
ghost use Rattle.program_file.specs.Checks.{has_named, missing, term_fault, terms_fault, vars_deep, factors_deep, terms_deep};
ghost use Rattle.program_file.specs.Checks.{access_discordant, accesses_discordant};
ghost use Rattle.program_file.specs.Checks.{unused};

use crate::accesses::{Variable, is_known, tensor_named};
use crate::numbers::{name_at, place_of, places};
use notation::AccessText;
use sam_base::{Name, ProgramKind};
use sam_model::{Factor, Tensor, Term, ascending, has_access, reduces, term_has};
use std::alloc::{AllocError, Global};

/// The first of these names that is no variable of the statement's accesses.
pub(crate) fn unused<'a>(vars: &[Variable], sums: &[&'a Name]) -> Option<&'a Name>
    ensures { option_copied result ≡ unused vars.now (map (λ v. v.now) sums.now) }
{
    for sum in sums {
        if !is_known(sum.as_bytes(), vars) {
            return Some(*sum);
        }
    }
    None
}

#[tactic(auto, unfolding(crate::specs::Checks::has_named))]
fn has_named(names: &[Name], term: &Term, name: &[u8]) -> bool
    ensures { result ≡ has_named names.now term.now name.now }
{
    term_has(term, place_of(names, name) as u64)
}

/// The first variable of the left that a term lacks.
fn missing<'a>(names: &[Name], term: &Term, left: &'a [Name]) -> Option<&'a Name>
    ensures { option_copied result ≡ missing names.now term.now left.now }
{
    match left {
        [] => None,
        [first, rest @ ..] => {
            if has_named(names, term, first.as_bytes()) {
                missing(names, term, rest)
            } else {
                Some(first)
            }
        }
    }
}

fn term_fault(
    alloc: Global,
    names: &[Name],
    left: &[Name],
    term: &Term,
) -> Result<Option<ProgramKind>, AllocError>
    ensures { IfOk result (λ fault. fault ≡ term_fault names.now left.now term.now) }
{
    if !has_access(term.factors.as_slice()) {
        return Ok(Some(ProgramKind::NoAccess));
    }
    match missing(names, term, left) {
        Some(name) => {
            let name = Name::from_slice(alloc, name.as_bytes())?;
            Ok(Some(ProgramKind::MissingResultVariable(name)))
        }
        None => Ok(None),
    }
}

/// The first fault of the first term that has no access, or lacks a variable of the left, where variables have these names.
pub(crate) fn terms_fault(
    alloc: Global,
    names: &[Name],
    left: &[Name],
    terms: &[Term],
) -> Result<Option<ProgramKind>, AllocError>
    ensures { IfOk result (λ fault. fault ≡ terms_fault names.now left.now terms.now) }
{
    match terms {
        [] => Ok(None),
        [first, rest @ ..] => match term_fault(alloc, names, left, first)? {
            Some(kind) => Ok(Some(kind)),
            None => terms_fault(alloc, names, left, rest),
        },
    }
}

/// Whether the variables of an access don't stand in loop order when they are listed in storage order.
pub(crate) fn access_discordant(
    alloc: Global,
    loops: &[Name],
    access: &AccessText,
    tensor: &Tensor,
) -> Result<Option<ProgramKind>, AllocError>
    ensures { IfOk result (λ fault. fault ≡ access_discordant loops.now access.now tensor.now) }
{
    let found = places(alloc, loops, access.vars.as_slice())?;
    if ascending(found.as_slice(), tensor.order.as_slice()) {
        return Ok(None);
    }
    let name = Name::from_slice(alloc, access.name.as_bytes())?;
    Ok(Some(ProgramKind::Discordant(name)))
}

/// The first of these accesses that doesn't stand in loop order.
pub(crate) fn accesses_discordant(
    alloc: Global,
    tensors: &[Tensor],
    loops: &[Name],
    accesses: &[&AccessText],
) -> Result<Option<ProgramKind>, AllocError>
    ensures { IfOk result (λ fault. fault ≡ accesses_discordant tensors.now loops.now (map (λ a. a.now) accesses.now)) }
{
    match accesses {
        [] => Ok(None),
        [access, rest @ ..] => {
            if let Some(tensor) = tensor_named(access.name.as_bytes(), tensors) {
                if let Some(kind) = access_discordant(alloc, loops, access, tensor)? {
                    return Ok(Some(kind));
                }
            }
            accesses_discordant(alloc, tensors, loops, rest)
        }
    }
}

fn vars_deep(
    alloc: Global,
    names: &[Name],
    left: &[u64],
    vars: &[u64],
) -> Result<Option<ProgramKind>, AllocError>
    ensures { IfOk result (λ fault. fault ≡ vars_deep names.now left.now vars.now) }
{
    match vars {
        [] => Ok(None),
        [first, rest @ ..] => {
            if reduces(left, *first) {
                vars_deep(alloc, names, left, rest)
            } else {
                let name = Name::from_slice(alloc, name_at(names, *first))?;
                Ok(Some(ProgramKind::ReducerTooDeep(name)))
            }
        }
    }
}

fn factors_deep(
    alloc: Global,
    names: &[Name],
    left: &[u64],
    factors: &[Factor],
) -> Result<Option<ProgramKind>, AllocError>
    ensures { IfOk result (λ fault. fault ≡ factors_deep names.now left.now factors.now) }
{
    match factors {
        [] => Ok(None),
        [Factor::Literal(_), rest @ ..] => factors_deep(alloc, names, left, rest),
        [Factor::Access { vars, .. }, rest @ ..] => {
            match vars_deep(alloc, names, left, vars.as_slice())? {
                Some(kind) => Ok(Some(kind)),
                None => factors_deep(alloc, names, left, rest),
            }
        }
    }
}

/// The first variable of the first term that is summed over with more than two variables of the left after it.
pub(crate) fn terms_deep(
    alloc: Global,
    names: &[Name],
    left: &[u64],
    terms: &[Term],
) -> Result<Option<ProgramKind>, AllocError>
    ensures { IfOk result (λ fault. fault ≡ terms_deep names.now left.now terms.now) }
{
    match terms {
        [] => Ok(None),
        [first, rest @ ..] => match factors_deep(alloc, names, left, first.factors.as_slice())? {
            Some(kind) => Ok(Some(kind)),
            None => terms_deep(alloc, names, left, rest),
        },
    }
}
