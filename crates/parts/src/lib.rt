//! Parts of commands: what a step of a command gives, and how it fails.
//!
//! A command is a chain of parts. A part says of what is told of the files when it gives each of its answers; a chain of
//! parts is a part, so that the order in which files are opened and refusals come is the order of the chain. Over a told
//! map of files a part has at most one answer that is due, and this is the answer that is given unless a count of faults
//! rises or there is no memory.
#![tactic(auto)]

ghost use Rattle.sam_io.specs.Spans.{KeepsFiles, files_span};
ghost use Rattle.parts.specs.Parts.{reads};
ghost use Rattle.parts.specs.Answers.{Comes, IsFault};

use sam_base::{Fault, Name};
use sam_io::{Files, ReadEnd, read_whole};
use std::alloc::Global;

fn missing(alloc: Global, name: &Name) -> Fault
    ensures { IsFault (Fault.Missing name.now) result }
{
    match Name::from_slice(alloc, name.as_bytes()) {
        Ok(name) => Fault::Missing(name),
        Err(_) => Fault::OutOfMemory,
    }
}

fn read_fault(alloc: Global, name: &Name) -> Fault
    ensures { IsFault (Fault.ReadFault name.now) result }
{
    match Name::from_slice(alloc, name.as_bytes()) {
        Ok(name) => Fault::ReadFault(name),
        Err(_) => Fault::OutOfMemory,
    }
}

/// The bytes of a file, or none where there are more than a file may have.
///
/// `Missing` and `ReadFault` name this file.
pub fn read_file<F: Files>(alloc: Global, files: &mut F, name: &Name) -> Result<Option<Name>, Fault>
    ensures keeps { KeepsFiles F.Files files.old files.new }
    ensures comes { Comes (reads name.now) (files_span F.Files files.old files.new) result }
{
    match read_whole(alloc, files, name) {
        Ok(text) => Ok(Some(text)),
        Err(ReadEnd::TooLong) => Ok(None),
        Err(ReadEnd::Missing) => Err(missing(alloc, name)),
        Err(ReadEnd::Failed) => Err(read_fault(alloc, name)),
        Err(ReadEnd::OutOfMemory) => Err(Fault::OutOfMemory),
    }
}
