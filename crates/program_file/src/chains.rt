//! The chain of programs that a file of several statements writes.

ghost use Rattle.std.specs.Prelude.{◌≡◌, ◌<◌, ◌≤◌, ◌^◌, All, length, [], IfOk, OnOk};
ghost use mathlib.Core.List.{map};
ghost use Rattle.sam_base.specs.declared.TheConstants.{FILE_MOST};
ghost use Rattle.sam_model.specs.Chains.{and_result, AreChained};
ghost use Rattle.program_file.specs.Files.{file_with};
ghost use Rattle.program_file.specs.Chains.{and_scalar, steps_of, lines_of, chain_of, chain_reading};
ghost use Rattle.program_file.specs.Refusals.{GivesProgram};

use crate::copies::{copied_tensor, copied_tensors};
use crate::faults::ProgramFault;
use crate::files::{File, Group, file_with};
use crate::groups::{ChainFile, read_chain_file};
use crate::numbers::copied_names;
use crate::programs::check_file;
use sam_base::{FILE_MOST, Items, Name, Nums};
use sam_model::{Chain, Program, Tensor};
use std::alloc::{AllocError, Global};

/// The tensors that the next statement may read, and the names of the earlier results without dimensions, which it may not.
#[derive(Drop)]
struct Operands {
    tensors: Items<Tensor>,
    scalars: Items<Name>,
}

impl Operands {
    /// A group that may read copies of these.
    fn file(&self, alloc: Global, group: Group) -> Result<File, AllocError>
        ensures { IfOk result (λ f. f ≡ file_with self.now.tensors self.now.scalars group) }
    {
        let tensors = copied_tensors(alloc, self.tensors.as_slice())?;
        let scalars = copied_names(alloc, self.scalars.as_slice())?;
        Ok(file_with(tensors, scalars, group))
    }

    /// With one more result.
    fn add(&mut self, alloc: Global, made: &Tensor) -> Result<(), AllocError>
        ensures tensors { OnOk result (self.new.tensors ≡ and_result made.now self.old.tensors made.now) }
        ensures scalars { OnOk result (self.new.scalars ≡ and_scalar made.now self.old.scalars) }
    {
        if made.dims.len() == 0 {
            let name = Name::from_slice(alloc, made.name.as_bytes())?;
            self.scalars.push(name)
        } else {
            let copy = copied_tensor(alloc, made)?;
            self.tensors.push(copy)
        }
    }
}

/// The programs of groups, the first of which may read these tensors.
fn steps_of(
    alloc: Global,
    tensors: Items<Tensor>,
    groups: Items<Group>,
) -> Result<Items<Program>, ProgramFault>
    ensures { GivesProgram result (steps_of tensors [] groups) }
{
    let scalars = Items::new(alloc);
    let mut operands = Operands { tensors, scalars };
    let mut steps = Items::new(alloc);
    for group in groups.into_vec() {
        let file = operands.file(alloc, group)?;
        operands.add(alloc, &file.result)?;
        steps.push(check_file(alloc, file)?)?;
    }
    Ok(steps)
}

/// The lines of the results.
fn lines_of(alloc: Global, groups: &[Group]) -> Result<Nums, AllocError>
    ensures lines { IfOk result (λ lines. lines ≡ lines_of groups.now) }
    ensures small { IfOk result (All (λ line. line < 2 ^ 32)) }
{
    let mut lines = Nums::new(alloc);
    for group in groups {
        lines.push(u64::from(group.result_line))?;
    }
    Ok(lines)
}

/// The chain of a file's groups, unless a check refuses one of them.
fn chain_of(alloc: Global, file: ChainFile) -> Result<Chain, ProgramFault>
    ensures exact { GivesProgram result (chain_of file) }
    ensures lines { IfOk result (λ c. All (λ line. line < 2 ^ 32) c.lines) }
{
    let ChainFile { tensors, groups } = file;
    let lines = lines_of(alloc, groups.as_slice())?;
    let steps = steps_of(alloc, tensors, groups)?;
    Ok(Chain { steps, lines })
}

/// The chain that a text writes: lines that declare tensors, and one to eight groups of a result, a statement and its loops,
/// each of which may read the results of those before it that have dimensions. A refusal tells the first fault of the lines,
/// and where they are right, of the checks in their order, group by group.
pub fn read_chain(alloc: Global, text: &[u8]) -> Result<Chain, ProgramFault>
    requires { length text.now ≤ FILE_MOST }
    // Each step is accepted, and reads the declared tensors and the earlier results that have dimensions.
    ensures follow { IfOk result (λ c. AreChained c.steps) }
    // There is a step for each group, one to eight of them.
    ensures some { IfOk result (λ c. 1 ≤ length c.steps) }
    ensures few { IfOk result (λ c. length c.steps ≤ 8) }
    ensures each_line { IfOk result (λ c. length c.lines ≡ length c.steps) }
    ensures lines { IfOk result (λ c. All (λ line. line < 2 ^ 32) c.lines) }
    // It is the one that the text writes, and a refusal is the first fault.
    ensures exact { GivesProgram result (chain_reading text.now) }
{
    let file = read_chain_file(alloc, text)?;
    chain_of(alloc, file)
}
