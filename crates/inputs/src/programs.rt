//! The programs of a program file.

ghost use Rattle.std.specs.Prelude.{◌≡◌, ◌<◌, ◌≤◌, ◌^◌, All, length, true, IfOk, IfSome};
ghost use Rattle.sam_io.specs.Spans.{KeepsFiles, files_span};
ghost use Rattle.sam_model.specs.Program.{accepted};
ghost use Rattle.parts.specs.Parts.{gives, followed};
ghost use Rattle.parts.specs.Answers.{Comes, ComesAlways};
ghost use Rattle.inputs.specs.Programs.{chain_in, accepts, chain_part, program_part, only_of, many_statements, HasNames, IsRead};

use parts::read_file;
use program_file::{ProgramFault, read_chain};
use sam_base::{FILE_MOST, Fault, Name, Nums, ProgramKind};
use sam_io::Files;
use sam_model::{Chain, Program};
use std::alloc::Global;

/// The statements that a file spells.
fn spelled_chain(alloc: Global, text: Option<Name>) -> Result<Chain, Fault>
    requires { IfSome text (λ bytes. length bytes ≤ FILE_MOST) }
    ensures read { IfOk result IsRead }
    ensures comes { ComesAlways (followed (gives (chain_in text)) accepts) result }
{
    let Some(text) = text else {
        return Err(Fault::Program {
            kind: ProgramKind::FileTooLong,
            line: 0,
        });
    };
    match read_chain(alloc, text.as_bytes()) {
        Ok(chain) => Ok(chain),
        Err(ProgramFault::Refused { kind, line }) => Err(Fault::Program { kind, line }),
        Err(ProgramFault::OutOfMemory) => Err(Fault::OutOfMemory),
    }
}

/// Reads the program file: a program for each of its statements.
pub fn chain<F: Files>(alloc: Global, files: &mut F, name: &Name) -> Result<Chain, Fault>
    ensures keeps { KeepsFiles F.Files files.old files.new }
    ensures read { IfOk result IsRead }
    ensures comes { Comes (chain_part name.now) (files_span F.Files files.old files.new) result }
{
    match read_file(alloc, files, name) {
        Err(fault) => Err(fault),
        Ok(text) => spelled_chain(alloc, text),
    }
}

/// What is told of a second statement where there is to be one alone, from the lines of the statements.
pub fn many_statements(lines: &Nums) -> Fault
    requires several { 2 ≤ length lines.now }
    requires lines { All (λ line. line < 2 ^ 32) lines.now }
    ensures { result ≡ many_statements lines.now }
{
    Fault::Program {
        kind: ProgramKind::ManyStatements,
        line: lines.as_slice()[1] as u32,
    }
}

/// The one program of a file.
fn only_program(chain: Chain) -> Result<Program, Fault>
    requires { IsRead chain }
    ensures { result ≡ only_of chain.steps chain.lines }
{
    let Chain { steps, lines } = chain;
    if steps.len() > 1 {
        return Err(many_statements(&lines));
    }
    match steps.into_vec().pop() {
        Some(program) => Ok(program),
        None => unreachable!(),
    }
}

/// Reads the program file, which is to have one statement.
pub fn program<F: Files>(alloc: Global, files: &mut F, name: &Name) -> Result<Program, Fault>
    ensures keeps { KeepsFiles F.Files files.old files.new }
    ensures accepted { IfOk result (λ p. accepted p ≡ true) }
    ensures named { IfOk result (λ p. HasNames p) }
    ensures comes { Comes (program_part name.now) (files_span F.Files files.old files.new) result }
{
    match chain(alloc, files, name) {
        Err(fault) => Err(fault),
        Ok(chain) => only_program(chain),
    }
}
