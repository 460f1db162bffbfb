//! The program of a file, and the reading of a text.

ghost use Rattle.std.specs.Prelude.{◌≡◌, ◌≤◌, length, true, Ok, IfOk};
ghost use Rattle.sam_model.specs.declared.program.Program.{Program as SpecProgram};
ghost use Rattle.sam_model.specs.Program.{accepted};
ghost use Rattle.sam_model.specs.Expressions.{expanded_tops};
ghost use Rattle.program_file.specs.Statements.{right_accesses};
ghost use Rattle.program_file.specs.Programs.{file_tops, left_of, sizes_of, program_reading};
ghost use Rattle.program_file.specs.Checks.{accesses_discordant, terms_deep};
ghost use Rattle.program_file.specs.Programs.{bound_of, order_fault, loops_checked, terms_checked, sums_fault, sums_checked};
ghost use Rattle.program_file.specs.Programs.{expansion_checked, numbered_reading, checked};
ghost use Rattle.program_file.specs.Written.{Writes};
ghost use Rattle.program_file.specs.Refusals.{GivesProgram};

use crate::accesses::{Accesses, Variable};
use crate::checks::{access_discordant, accesses_discordant, terms_deep, terms_fault, unused};
use crate::faults::ProgramFault;
use crate::files::{File, read_file};
use crate::numbers::{are_loops, numbering, places, sizes_of};
use crate::statements::{Names, right_accesses, right_sums};
use crate::sums::tops_bind_wrong;
use expand::{ExpandFault, expand};
use sam_base::{FILE_MOST, Items, Name, Nums, ProgramKind, VARIABLES_MOST};
use sam_model::{Program, Term, Top};
use std::alloc::{AllocError, Global};

/// A statement by numbers: the variables of its left side, the sizes of all variables, and its top-level terms.
#[derive(Drop)]
struct NumberedStatement {
    left: Nums,
    sizes: Nums,
    tops: Items<Top>,
}

/// A file's statement by numbers, where its variables have these names.
fn numbered(
    alloc: Global,
    file: &File,
    names: &[Name],
    vars: &[Variable],
) -> Result<NumberedStatement, AllocError>
    ensures left { IfOk result (λ n. n.left ≡ left_of names.now file.now) }
    ensures sizes { IfOk result (λ n. n.sizes ≡ sizes_of names.now file.now vars.now) }
    ensures tops { IfOk result (λ n. n.tops ≡ file_tops names.now file.now) }
{
    let left = places(alloc, names, file.statement.left.vars.as_slice())?;
    let sizes = sizes_of(alloc, vars, names)?;
    let known = Names {
        tensors: file.tensors.as_slice(),
        variables: names,
    };
    let tops = known.tops(alloc, left.as_slice(), &file.statement)?;
    Ok(NumberedStatement { left, sizes, tops })
}

/// The terms that a statement on this line expands to.
fn expanded_terms(
    alloc: Global,
    line: u32,
    tops: &Items<Top>,
    sizes: &Nums,
) -> Result<Items<Term>, ProgramFault>
    ensures { GivesProgram result (expansion_checked line (expanded_tops sizes.now tops.now)) }
{
    match expand(alloc, tops, sizes) {
        Ok(terms) => Ok(terms),
        Err(ExpandFault::Terms) => Err(ProgramFault::Refused {
            kind: ProgramKind::ExpandedTerms,
            line,
        }),
        Err(ExpandFault::Factors) => Err(ProgramFault::Refused {
            kind: ProgramKind::ExpandedFactors,
            line,
        }),
        Err(ExpandFault::OutOfMemory) => Err(ProgramFault::OutOfMemory),
    }
}

/// The variables of a file's statement, if each access is right.
fn bound_of(alloc: Global, file: &File) -> Result<Items<Variable>, ProgramFault>
    ensures { GivesProgram result (bound_of file.now) }
{
    let accesses = Accesses {
        line: file.statement_line,
        tensors: file.tensors.as_slice(),
        scalars: file.scalars.as_slice(),
        result: &file.result,
    };
    let mut vars = Items::new(alloc);
    accesses.bind_left(alloc, &mut vars, &file.statement.left)?;
    let right = right_accesses(alloc, &file.statement)?;
    accesses.bind_accesses(alloc, &mut vars, &right)?;
    Ok(vars)
}

/// The first access of the right side that doesn't stand in loop order.
fn right_fault(alloc: Global, file: &File) -> Result<Option<ProgramKind>, AllocError>
    ensures { IfOk result
        (λ fault. fault ≡ accesses_discordant file.now.tensors file.now.loops (right_accesses file.now.statement)) }
{
    let right = right_accesses(alloc, &file.statement)?;
    accesses_discordant(
        alloc,
        file.tensors.as_slice(),
        file.loops.as_slice(),
        &right,
    )
}

/// The first variable of these terms that is summed over too deep in the loops.
fn depth_fault(
    alloc: Global,
    file: &File,
    terms: &[Term],
) -> Result<Option<ProgramKind>, AllocError>
    ensures { IfOk result (λ fault. fault ≡ terms_deep file.now.loops (left_of file.now.loops file.now) terms.now) }
{
    let loops = file.loops.as_slice();
    let left = places(alloc, loops, file.statement.left.vars.as_slice())?;
    terms_deep(alloc, loops, left.as_slice(), terms)
}

/// The first fault of the loops' order, where the statement has these terms.
fn order_fault(
    alloc: Global,
    file: &File,
    terms: &[Term],
) -> Result<Option<ProgramKind>, AllocError>
    ensures { IfOk result (λ fault. fault ≡ order_fault file.now terms.now) }
{
    let left = &file.statement.left;
    if let Some(kind) = access_discordant(alloc, file.loops.as_slice(), left, &file.result)? {
        return Ok(Some(kind));
    }
    if let Some(kind) = right_fault(alloc, file)? {
        return Ok(Some(kind));
    }
    depth_fault(alloc, file, terms)
}

/// The checks of the line with the loops.
fn check_loops(
    alloc: Global,
    file: &File,
    vars: &[Variable],
    terms: &[Term],
) -> Result<(), ProgramFault>
    ensures { GivesProgram result (loops_checked file.now vars.now terms.now) }
{
    let line = file.loops_line;
    if !are_loops(vars, file.loops.as_slice()) {
        return Err(ProgramFault::Refused {
            kind: ProgramKind::LoopsMismatch,
            line,
        });
    }
    match order_fault(alloc, file, terms)? {
        Some(kind) => Err(ProgramFault::Refused { kind, line }),
        None => Ok(()),
    }
}

/// The checks of the expanded terms, where variables have these names, and those behind them.
fn check_terms(
    alloc: Global,
    names: &[Name],
    file: &File,
    vars: &[Variable],
    terms: &[Term],
) -> Result<(), ProgramFault>
    ensures { GivesProgram result (terms_checked names.now file.now vars.now terms.now) }
{
    let line = file.statement_line;
    let left = file.statement.left.vars.as_slice();
    if let Some(kind) = terms_fault(alloc, names, left, terms)? {
        return Err(ProgramFault::Refused { kind, line });
    }
    if vars.len() > VARIABLES_MOST {
        return Err(ProgramFault::Refused {
            kind: ProgramKind::TooManyVariables,
            line,
        });
    }
    check_loops(alloc, file, vars, terms)
}

/// The first fault of the sums, where the statement is this by numbers and variables have these names.
fn sums_fault(
    alloc: Global,
    names: &[Name],
    file: &File,
    vars: &[Variable],
    statement: &NumberedStatement,
) -> Result<Option<ProgramKind>, AllocError>
    ensures { IfOk result
        (λ fault. fault ≡ sums_fault names.now file.now vars.now statement.now.left statement.now.tops) }
{
    let sums = right_sums(alloc, &file.statement)?;
    match unused(vars, &sums) {
        Some(name) => {
            let name = Name::from_slice(alloc, name.as_bytes())?;
            Ok(Some(ProgramKind::UnusedSum(name)))
        }
        None => tops_bind_wrong(
            alloc,
            names,
            statement.left.as_slice(),
            statement.tops.as_slice(),
        ),
    }
}

/// The checks of the sums.
fn check_sums(
    alloc: Global,
    names: &[Name],
    file: &File,
    vars: &[Variable],
    statement: &NumberedStatement,
) -> Result<(), ProgramFault>
    ensures { GivesProgram result (sums_checked names.now file.now vars.now statement.now.left statement.now.tops) }
{
    match sums_fault(alloc, names, file, vars, statement)? {
        Some(kind) => Err(ProgramFault::Refused {
            kind,
            line: file.statement_line,
        }),
        None => Ok(()),
    }
}

/// The program of a file whose statement is this by numbers, where variables have these names.
fn numbered_program(
    alloc: Global,
    names: &[Name],
    file: File,
    vars: &[Variable],
    statement: NumberedStatement,
) -> Result<Program, ProgramFault>
    ensures { GivesProgram result (numbered_reading names.now file vars.now statement.left statement.tops statement.sizes) }
{
    check_sums(alloc, names, &file, vars, &statement)?;
    let NumberedStatement { left, sizes, tops } = statement;
    let terms = expanded_terms(alloc, file.statement_line, &tops, &sizes)?;
    check_terms(alloc, names, &file, vars, terms.as_slice())?;
    Ok(Program {
        tensors: file.tensors,
        result: file.result,
        left,
        terms,
        tops,
        var_names: file.loops,
        var_sizes: sizes,
    })
}

/// The program of a file, unless a check refuses it.
pub(crate) fn check_file(alloc: Global, file: File) -> Result<Program, ProgramFault>
    ensures { GivesProgram result (checked file) }
{
    let vars = bound_of(alloc, &file)?;
    let names = numbering(alloc, vars.as_slice(), file.loops.as_slice())?;
    let statement = numbered(alloc, &file, names.as_slice(), vars.as_slice())?;
    numbered_program(alloc, names.as_slice(), file, vars.as_slice(), statement)
}

/// The program that a text writes: lines that declare tensors and a result, a line with the statement and one with its
/// loops. A refusal tells the first fault of the lines, and where they are right, of the checks in their order.
pub fn read_program(alloc: Global, text: &[u8]) -> Result<Program, ProgramFault>
    requires { length text.now ≤ FILE_MOST }
    // The program is accepted.
    ensures accepted { IfOk result (λ p. accepted p ≡ true) }
    // Each accepted program is read, whatever text of the right form writes it.
    ensures complete { (p : SpecProgram) → Writes text.now p → accepted p ≡ true → GivesProgram result (Ok p) }
    // It is the one that the text writes, and a refusal is the first fault.
    ensures exact { GivesProgram result (program_reading text.now) }
{
    let file = read_file(alloc, text)?;
    check_file(alloc, file)
}
