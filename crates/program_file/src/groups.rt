//! The lines of a program file of several statements.

ghost use Rattle.std.specs.Prelude.{◌≡◌, ◌≤◌, [], ◌∷◌, length, Err};
ghost use Rattle.sam_text.specs.Remaining.{lines_left, past_end, numbered};
ghost use Rattle.sam_base.specs.declared.TheConstants.{FILE_MOST};
ghost use Rattle.program_file.specs.Chains.{is_result, later_result, later_group, last_in, groups_in, chain_file_reading};
ghost use Rattle.program_file.specs.Refusals.{GivesProgram, LeavesProgram};

use crate::faults::ProgramFault;
use crate::files::{FileReader, Group, read_result};
use crate::keywords::behind;
use crate::names::Declared;
use sam_base::{FILE_MOST, Items, Name, ProgramKind, STATEMENTS_MOST};
use sam_model::Tensor;
use sam_text::Line;
use std::alloc::Global;

/// A program file of several statements as it is written: the tensors that it declares, and its groups.
#[derive(Drop)]
pub(crate) struct ChainFile {
    pub tensors: Items<Tensor>,
    pub groups: Items<Group>,
}

/// Whether the result of one of these groups has this name.
fn is_result(name: &[u8], groups: &[Group]) -> bool
    ensures { result ≡ is_result name.now groups.now }
{
    groups
        .iter()
        .any(|group| name == group.result.name.as_bytes())
}

/// The result that a line behind these groups declares.
fn later_result(
    alloc: Global,
    tensors: &Declared,
    groups: &[Group],
    line: Line<'_>,
) -> Result<Tensor, ProgramFault>
    ensures { GivesProgram result (later_result tensors.now groups.now (numbered line.entry)) }
{
    let found = read_result(alloc, tensors, line.text, line.number)?;
    if is_result(found.name.as_bytes(), groups) {
        let name = Name::from_slice(alloc, found.name.as_bytes())?;
        return Err(ProgramFault::Refused {
            kind: ProgramKind::DuplicateName(name),
            line: line.number,
        });
    }
    Ok(found)
}

/// The group behind these that begins with a line.
fn later_group(
    alloc: Global,
    reader: &mut FileReader<'_>,
    tensors: &Declared,
    groups: &[Group],
    line: Line<'_>,
) -> Result<Group, ProgramFault>
    ensures found { LeavesProgram result (λ found. (found, lines_left reader.new.lines))
        (later_group (past_end reader.old.lines) tensors.now groups.now (numbered line.entry) (lines_left reader.old.lines)) }
    ensures past { past_end reader.new.lines ≡ past_end reader.old.lines }
{
    let found = later_result(alloc, tensors, groups, line)?;
    reader.group(alloc, found, line.number)
}

/// What is told of a line behind the last group that a file may have.
fn line_too_many(line: Line<'_>) -> ProgramFault
    ensures { GivesProgram (Err result) (last_in (numbered line.entry ∷ [])) }
{
    let kind = if behind(line.text, b"result").is_some() {
        ProgramKind::TooManyStatements
    } else {
        ProgramKind::BadLine
    };
    ProgramFault::Refused {
        kind,
        line: line.number,
    }
}

/// These groups and those behind them, of which there may be so many.
fn read_groups(
    alloc: Global,
    reader: &mut FileReader<'_>,
    tensors: &Declared,
    groups: Items<Group>,
    room: usize,
) -> Result<Items<Group>, ProgramFault>
    ensures { GivesProgram result
        (groups_in (past_end reader.old.lines) tensors.now room groups (lines_left reader.old.lines)) }
{
    let Some(line) = reader.next() else {
        return Ok(groups);
    };
    if room == 0 {
        return Err(line_too_many(line));
    }
    let group = later_group(alloc, reader, tensors, groups.as_slice(), line)?;
    let mut groups = groups;
    groups.push(group)?;
    read_groups(alloc, reader, tensors, groups, room - 1)
}

/// The tensors and groups that a text spells; or its first fault, line by line.
pub(crate) fn read_chain_file(alloc: Global, text: &[u8]) -> Result<ChainFile, ProgramFault>
    requires { length text.now ≤ FILE_MOST }
    ensures { GivesProgram result (chain_file_reading text.now) }
{
    let mut reader = FileReader::new(text);
    let (tensors, (found, line)) = reader.declarations(alloc)?;
    let mut groups = Items::new(alloc);
    groups.push(reader.group(alloc, found, line)?)?;
    let groups = read_groups(alloc, &mut reader, &tensors, groups, STATEMENTS_MOST - 1)?;
    Ok(ChainFile {
        tensors: tensors.into_tensors(),
        groups,
    })
}
