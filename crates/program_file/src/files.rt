//! The reading of a program file, line by line.

ghost use Rattle.std.specs.Prelude.{◌≡◌, ◌+◌, ◌≤◌, [], ◌∷◌, false, true, length, IfOk, MatchOption, MatchResult};
ghost use Rattle.std.specs.List.{list_all};
ghost use Rattle.sam_text.specs.Lines.{lines};
ghost use Rattle.sam_text.specs.Words.{words};
ghost use Rattle.sam_text.specs.Counted.{counted_lines};
ghost use Rattle.sam_text.specs.Names.{is_name};
ghost use Rattle.sam_text.specs.Remaining.{lines_left, past_end, text_length, numbered};
ghost use Rattle.sam_base.specs.declared.TheConstants.{FILE_MOST};
ghost use Rattle.notation.specs.Positions.{statement_reading};
ghost use Rattle.program_file.specs.Files.{declarations_in, result_declared, compute_in, noted, loops_in, loop_names, group_in, end_in, starts_again, file_with, file_reading};
ghost use Rattle.program_file.specs.Refusals.{GivesProgram, LeavesProgram};

use crate::declarations::{declared, result_of, tensor_of};
use crate::faults::ProgramFault;
use crate::keywords::behind;
use crate::names::Declared;
use notation::{NoteFault, Statement, read_statement};
use sam_base::{FILE_MOST, Items, Name, ProgramKind};
use sam_model::Tensor;
use sam_text::{Line, Lines, first_word, is_name};
use std::alloc::{AllocError, Global};

/// A result with its statement and its loops, by names, and the lines of these.
#[derive(Drop)]
pub(crate) struct Group {
    pub result: Tensor,
    pub statement: Statement,
    pub loops: Items<Name>,
    pub result_line: u32,
    pub statement_line: u32,
    pub loops_line: u32,
}

/// A statement as it is written, by names: the tensors that it may read, the names of the earlier results without
/// dimensions, which it may not, its result, and its loops.
#[derive(Drop)]
pub(crate) struct File {
    pub tensors: Items<Tensor>,
    pub scalars: Items<Name>,
    pub result: Tensor,
    pub statement: Statement,
    pub loops: Items<Name>,
    pub statement_line: u32,
    pub loops_line: u32,
}

/// A group that may read these tensors, where the earlier results without dimensions have these names.
pub(crate) fn file_with(tensors: Items<Tensor>, scalars: Items<Name>, group: Group) -> File
    ensures { result ≡ file_with tensors scalars group }
{
    File {
        tensors,
        scalars,
        result: group.result,
        statement: group.statement,
        loops: group.loops,
        statement_line: group.statement_line,
        loops_line: group.loops_line,
    }
}

pub(crate) fn bad_line(line: u32) -> ProgramFault
    ensures { result ≡ ProgramFault.Refused ProgramKind.BadLine line }
{
    ProgramFault::Refused {
        kind: ProgramKind::BadLine,
        line,
    }
}

/// The names that a line's words are, if each is one.
fn names_of(alloc: Global, line: &[u8]) -> Result<Option<Items<Name>>, AllocError>
    ensures { IfOk result (λ found. MatchOption found (list_all is_name (words line.now) ≡ false)
        (λ names. (list_all is_name (words line.now) ≡ true) × (names ≡ words line.now))) }
{
    let mut names = Items::new(alloc);
    let mut rest = line;
    while let Some((word, more)) = first_word(rest) {
        if !is_name(word) {
            return Ok(None);
        }
        names.push(Name::from_slice(alloc, word)?)?;
        rest = more;
    }
    Ok(Some(names))
}

/// The names behind the word `loops`, if the line has this form.
fn loops_of(alloc: Global, line: &[u8]) -> Result<Option<Items<Name>>, AllocError>
    ensures { IfOk result (λ found. found ≡ loop_names (words line.now)) }
{
    match behind(line, b"loops") {
        Some(rest) => names_of(alloc, rest),
        None => Ok(None),
    }
}

/// The statement of a text, whose refusal is told at a line.
fn statement_of(alloc: Global, text: &[u8], line: u32) -> Result<Statement, ProgramFault>
    requires { length text.now ≤ FILE_MOST }
    ensures { GivesProgram result (noted line (statement_reading text.now)) }
{
    match read_statement(alloc, text) {
        Ok(statement) => Ok(statement),
        Err(NoteFault::Refused { kind, place }) => Err(ProgramFault::Refused {
            kind: ProgramKind::Note { kind, place },
            line,
        }),
        Err(NoteFault::OutOfMemory) => Err(ProgramFault::OutOfMemory),
    }
}

/// Whether a line begins a second statement.
fn begins_again(line: &[u8]) -> bool
    ensures { result ≡ starts_again (words line.now) }
{
    behind(line, b"result").is_some()
        || behind(line, b"tensor").is_some()
        || behind(line, b"compute").is_some()
}

/// The result that a line declares, behind these tensors.
pub(crate) fn read_result(
    alloc: Global,
    tensors: &Declared,
    line: &[u8],
    number: u32,
) -> Result<Tensor, ProgramFault>
    ensures { GivesProgram result (result_declared tensors.now (record { number = number; text = line.now })) }
{
    let found = match behind(line, b"result") {
        Some(rest) => result_of(alloc, rest)?,
        None => None,
    };
    declared(alloc, tensors, number, found)
}

/// A reader of the parts of a program file, in their order.
#[derive(Drop)]
pub(crate) struct FileReader<'a> {
    pub lines: Lines<'a>,
    ghost short: { text_length lines ≤ FILE_MOST },
}

impl<'a> FileReader<'a> {
    pub(crate) fn new(text: &'a [u8]) -> FileReader<'a>
        requires { length text.now ≤ FILE_MOST }
        ensures left { lines_left result.lines ≡ counted_lines 1 (lines text.now) }
        ensures past { past_end result.lines ≡ 1 + length (lines text.now) }
    {
        FileReader {
            lines: Lines::new(text),
        }
    }

    /// The next line, if there is one.
    pub(crate) fn next(&mut self) -> Option<Line<'a>>
        ensures next { MatchOption result (lines_left self.old.lines ≡ [])
            (λ line. lines_left self.old.lines ≡ numbered line ∷ lines_left self.new.lines) }
        ensures past { past_end self.new.lines ≡ past_end self.old.lines }
    {
        self.lines.next().ok()
    }

    /// The next line; where there is none, it is bad.
    fn line(&mut self) -> Result<Line<'a>, ProgramFault>
        ensures next { MatchResult result (λ line. lines_left self.old.lines ≡ numbered line ∷ lines_left self.new.lines)
            (λ fault. (lines_left self.old.lines ≡ []) × (fault ≡ ProgramFault.Refused ProgramKind.BadLine (past_end self.old.lines))) }
        ensures past { past_end self.new.lines ≡ past_end self.old.lines }
        ensures short { IfOk result (λ line. length line.text.now ≤ FILE_MOST) }
    {
        match self.lines.next() {
            Ok(line) => Ok(line),
            Err(past) => Err(bad_line(past)),
        }
    }

    /// The tensors that are declared, and the result, with the number of its line.
    pub(crate) fn declarations(
        &mut self,
        alloc: Global,
    ) -> Result<(Declared, (Tensor, u32)), ProgramFault>
        ensures found { LeavesProgram result (λ found. (found, lines_left self.new.lines))
            (declarations_in (past_end self.old.lines) [] (lines_left self.old.lines)) }
        ensures past { past_end self.new.lines ≡ past_end self.old.lines }
    {
        let mut tensors = Declared::new(alloc);
        loop {
            let line = self.line()?;
            match behind(line.text, b"tensor") {
                Some(rest) => {
                    let found = tensor_of(alloc, rest)?;
                    let tensor = declared(alloc, &tensors, line.number, found)?;
                    tensors = tensors.with(alloc, tensor)?;
                }
                None => {
                    let found = read_result(alloc, &tensors, line.text, line.number)?;
                    return Ok((tensors, (found, line.number)));
                }
            }
        }
    }

    /// The statement, and the number of its line.
    fn compute(&mut self, alloc: Global) -> Result<(Statement, u32), ProgramFault>
        ensures found { LeavesProgram result (λ found. (found, lines_left self.new.lines))
            (compute_in (past_end self.old.lines) (lines_left self.old.lines)) }
        ensures past { past_end self.new.lines ≡ past_end self.old.lines }
    {
        let line = self.line()?;
        match behind(line.text, b"compute") {
            Some(rest) => Ok((statement_of(alloc, rest, line.number)?, line.number)),
            None => Err(bad_line(line.number)),
        }
    }

    /// The names of the loops, and the number of their line.
    fn loops(&mut self, alloc: Global) -> Result<(Items<Name>, u32), ProgramFault>
        ensures found { LeavesProgram result (λ found. (found, lines_left self.new.lines))
            (loops_in (past_end self.old.lines) (lines_left self.old.lines)) }
        ensures past { past_end self.new.lines ≡ past_end self.old.lines }
    {
        let line = self.line()?;
        match loops_of(alloc, line.text)? {
            Some(names) => Ok((names, line.number)),
            None => Err(bad_line(line.number)),
        }
    }

    /// The group of a result on this line: the lines behind that.
    pub(crate) fn group(
        &mut self,
        alloc: Global,
        declared: Tensor,
        result_line: u32,
    ) -> Result<Group, ProgramFault>
        ensures found { LeavesProgram result (λ found. (found, lines_left self.new.lines))
            (group_in (past_end self.old.lines) (declared, result_line) (lines_left self.old.lines)) }
        ensures past { past_end self.new.lines ≡ past_end self.old.lines }
    {
        let (statement, statement_line) = self.compute(alloc)?;
        let (loops, loops_line) = self.loops(alloc)?;
        Ok(Group {
            result: declared,
            statement,
            loops,
            result_line,
            statement_line,
            loops_line,
        })
    }

    /// Nothing stands behind the loops.
    fn end(&mut self) -> Result<(), ProgramFault>
        ensures { GivesProgram result (end_in (lines_left self.old.lines)) }
    {
        match self.lines.next() {
            Err(_) => Ok(()),
            Ok(line) => {
                let kind = if begins_again(line.text) {
                    ProgramKind::ManyStatements
                } else {
                    ProgramKind::BadLine
                };
                Err(ProgramFault::Refused {
                    kind,
                    line: line.number,
                })
            }
        }
    }
}

/// The file that a text spells; or its first fault, line by line.
pub(crate) fn read_file(alloc: Global, text: &[u8]) -> Result<File, ProgramFault>
    requires { length text.now ≤ FILE_MOST }
    ensures { GivesProgram result (file_reading text.now) }
{
    let mut reader = FileReader::new(text);
    let (tensors, (result_tensor, line)) = reader.declarations(alloc)?;
    let group = reader.group(alloc, result_tensor, line)?;
    reader.end()?;
    Ok(file_with(tensors.into_tensors(), Items::new(alloc), group))
}
