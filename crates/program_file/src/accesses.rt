//! The variables of a statement, bound access by access.

ghost use Rattle.std.specs.Prelude.{◌≡◌, None, Some, [], option_copied, IfOk, OnOk, MatchOption};
ghost use mathlib.Core.List.{map};
ghost use Rattle.program_file.specs.Accesses.{tensor_named, is_known, repeated_variable, differs, mismatched, with_variable, with_variables};
ghost use Rattle.program_file.specs.Accesses.{access_fault, bind_access, bind_left, no_operand, bind_right, bind_accesses};
ghost use Rattle.program_file.specs.Refusals.{LeavesProgram};

use crate::faults::ProgramFault;
use notation::AccessText;
use sam_base::{Items, Name, ProgramKind};
use sam_model::{Tensor, is_named};
use std::alloc::{AllocError, Global};

/// A variable of the statement, with the dimension at its first place.
#[derive(Drop)]
pub(crate) struct Variable {
    pub name: Name,
    pub size: u64,
}

/// A declared tensor by its name.
pub(crate) fn tensor_named<'a>(name: &[u8], tensors: &'a [Tensor]) -> Option<&'a Tensor>
    ensures { MatchOption result (tensor_named name.now tensors.now ≡ None)
        (λ tensor. tensor_named name.now tensors.now ≡ Some tensor.now) }
{
    for tensor in tensors {
        if name == tensor.name.as_bytes() {
            return Some(tensor);
        }
    }
    None
}

pub(crate) fn is_known(name: &[u8], vars: &[Variable]) -> bool
    ensures { result ≡ is_known name.now vars.now }
{
    vars.iter().any(|v| name == v.name.as_bytes())
}

/// The first variable that stands twice.
fn repeated(vars: &[Name]) -> Option<&Name>
    ensures { option_copied result ≡ repeated_variable vars.now }
{
    match vars {
        [] => None,
        [first, rest @ ..] => {
            if is_named(first.as_bytes(), rest) {
                Some(first)
            } else {
                repeated(rest)
            }
        }
    }
}

/// Whether the dimension at a variable's first place is another.
fn differs(name: &[u8], size: u64, vars: &[Variable]) -> bool
    ensures { result ≡ differs name.now size vars.now }
{
    match vars {
        [] => false,
        [first, rest @ ..] => {
            if name == first.name.as_bytes() {
                first.size != size
            } else {
                differs(name, size, rest)
            }
        }
    }
}

/// The first variable of an access at another dimension than at its first place.
fn mismatched<'a>(vars: &[Variable], names: &'a [Name], dims: &[u64]) -> Option<&'a Name>
    ensures { option_copied result ≡ mismatched vars.now names.now dims.now }
{
    match names {
        [] => None,
        [name, names @ ..] => match dims {
            [] => None,
            [d, dims @ ..] => {
                if differs(name.as_bytes(), *d, vars) {
                    Some(name)
                } else {
                    mismatched(vars, names, dims)
                }
            }
        },
    }
}

/// Adds a variable, unless it is known.
fn add_variable(
    alloc: Global,
    vars: &mut Items<Variable>,
    name: &Name,
    size: u64,
) -> Result<(), AllocError>
    ensures { OnOk result (vars.new ≡ with_variable vars.old name.now size) }
{
    if is_known(name.as_bytes(), vars.as_slice()) {
        return Ok(());
    }
    vars.push(Variable {
        name: Name::from_slice(alloc, name.as_bytes())?,
        size,
    })
}

/// Adds the variables of one more access.
fn add_variables(
    alloc: Global,
    vars: &mut Items<Variable>,
    names: &[Name],
    dims: &[u64],
) -> Result<(), AllocError>
    ensures { OnOk result (vars.new ≡ with_variables vars.old names.now dims.now) }
{
    match names {
        [] => Ok(()),
        [name, names @ ..] => match dims {
            [] => Ok(()),
            [d, dims @ ..] => {
                add_variable(alloc, vars, name, *d)?;
                add_variables(alloc, vars, names, dims)
            }
        },
    }
}

/// The first fault of an access of this tensor.
fn access_fault(
    alloc: Global,
    vars: &[Variable],
    access: &AccessText,
    tensor: &Tensor,
) -> Result<Option<ProgramKind>, AllocError>
    ensures { IfOk result (λ fault. fault ≡ access_fault vars.now access.now tensor.now) }
{
    let names = access.vars.as_slice();
    let dims = tensor.dims.as_slice();
    if names.len() != dims.len() {
        let name = Name::from_slice(alloc, access.name.as_bytes())?;
        return Ok(Some(ProgramKind::ArityMismatch(name)));
    }
    if let Some(name) = repeated(names) {
        let name = Name::from_slice(alloc, name.as_bytes())?;
        return Ok(Some(ProgramKind::RepeatedVariable(name)));
    }
    if let Some(name) = mismatched(vars, names, dims) {
        let name = Name::from_slice(alloc, name.as_bytes())?;
        return Ok(Some(ProgramKind::DimMismatch(name)));
    }
    Ok(None)
}

/// What the accesses of a statement are checked against: the tensors that it may read, the names of the earlier results
/// without dimensions, and the result, with the statement's line.
#[derive(Clone, Copy)]
pub(crate) struct Accesses<'a> {
    pub line: u32,
    pub tensors: &'a [Tensor],
    pub scalars: &'a [Name],
    pub result: &'a Tensor,
}

impl Accesses<'_> {
    fn refused(&self, kind: ProgramKind) -> ProgramFault
        ensures { result ≡ ProgramFault.Refused kind self.now.line }
    {
        ProgramFault::Refused {
            kind,
            line: self.line,
        }
    }

    /// Adds the variables of an access of this tensor.
    fn bind_access(
        &self,
        alloc: Global,
        vars: &mut Items<Variable>,
        access: &AccessText,
        tensor: &Tensor,
    ) -> Result<(), ProgramFault>
        ensures { LeavesProgram result (λ _. vars.new) (bind_access self.now.line vars.old access.now tensor.now) }
    {
        if let Some(kind) = access_fault(alloc, vars.as_slice(), access, tensor)? {
            return Err(self.refused(kind));
        }
        add_variables(alloc, vars, access.vars.as_slice(), tensor.dims.as_slice())?;
        Ok(())
    }

    /// Adds the variables of the left side, where only the result may stand.
    pub(crate) fn bind_left(
        &self,
        alloc: Global,
        vars: &mut Items<Variable>,
        access: &AccessText,
    ) -> Result<(), ProgramFault>
        requires { vars.old ≡ [] }
        ensures { LeavesProgram result (λ _. vars.new) (bind_left self.now.line self.now.result.now access.now) }
    {
        if access.name.as_bytes() == self.result.name.as_bytes() {
            return self.bind_access(alloc, vars, access, self.result);
        }
        let name = Name::from_slice(alloc, access.name.as_bytes())?;
        Err(self.refused(ProgramKind::UnknownName(name)))
    }

    /// What is told of a name on the right that no tensor has.
    fn no_operand(&self, alloc: Global, name: &[u8]) -> Result<ProgramKind, AllocError>
        ensures { IfOk result (λ kind. kind ≡ no_operand self.now.scalars.now name.now) }
    {
        let copy = Name::from_slice(alloc, name)?;
        if is_named(name, self.scalars) {
            Ok(ProgramKind::ScalarOperand(copy))
        } else {
            Ok(ProgramKind::UnknownName(copy))
        }
    }

    /// Adds the variables of an access of the right side, where only these tensors may stand.
    fn bind_right(
        &self,
        alloc: Global,
        vars: &mut Items<Variable>,
        access: &AccessText,
    ) -> Result<(), ProgramFault>
        ensures { LeavesProgram result (λ _. vars.new)
            (bind_right self.now.line self.now.tensors.now self.now.scalars.now self.now.result.now vars.old access.now) }
    {
        if access.name.as_bytes() == self.result.name.as_bytes() {
            let name = Name::from_slice(alloc, access.name.as_bytes())?;
            return Err(self.refused(ProgramKind::ResultOnRight(name)));
        }
        match tensor_named(access.name.as_bytes(), self.tensors) {
            Some(tensor) => self.bind_access(alloc, vars, access, tensor),
            None => {
                let kind = self.no_operand(alloc, access.name.as_bytes())?;
                Err(self.refused(kind))
            }
        }
    }

    /// Adds the variables of these accesses of the right side, one after another.
    pub(crate) fn bind_accesses(
        &self,
        alloc: Global,
        vars: &mut Items<Variable>,
        accesses: &[&AccessText],
    ) -> Result<(), ProgramFault>
        ensures { LeavesProgram result (λ _. vars.new)
            (bind_accesses self.now.line self.now.tensors.now self.now.scalars.now self.now.result.now vars.old (map (λ a. a.now) accesses.now)) }
    {
        for access in accesses {
            self.bind_right(alloc, vars, access)?;
        }
        Ok(())
    }
}
