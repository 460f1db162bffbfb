//! The text of a fault, as it is written on standard error.

ghost use Rattle.std.specs.Prelude.{◌≡◌, ◌++◌, codes, decimal, IfOk, OnOk, OnErr};
ghost use Rattle.sam_base.specs.Kinds.{note_kind, program_kind, tns_kind, rule_kind};
ghost use Rattle.sam_base.specs.Texts.{text_line, place_of, state_of, text_of, waiting_line, waiting_lines};

use crate::faults::{Fault, NoteKind, ProgramKind, Rule, TnsKind, Waiting};
use crate::lists::Name;
use itoa::Buffer;
use std::alloc::{AllocError, Global};

fn note_text(kind: NoteKind) -> &'static str
    ensures { result.now ≡ note_kind kind }
{
    match kind {
        NoteKind::BadChar => "BadChar",
        NoteKind::ExpectedName => "ExpectedName",
        NoteKind::ExpectedOpen => "ExpectedOpen",
        NoteKind::ExpectedComma => "ExpectedComma",
        NoteKind::ExpectedEquals => "ExpectedEquals",
        NoteKind::TooDeep => "TooDeep",
        NoteKind::NumberTooLarge => "NumberTooLarge",
        NoteKind::ExpectedFactor => "ExpectedFactor",
        NoteKind::ExpectedOperator => "ExpectedOperator",
        NoteKind::TooManyTerms => "TooManyTerms",
        NoteKind::TooManyFactors => "TooManyFactors",
    }
}

fn tns_text(kind: TnsKind) -> &'static str
    ensures { result.now ≡ tns_kind kind }
{
    match kind {
        TnsKind::FieldCount => "FieldCount",
        TnsKind::BadField => "BadField",
        TnsKind::CoordinateRange => "CoordinateRange",
        TnsKind::Fraction => "Fraction",
        TnsKind::ValueRange => "ValueRange",
        TnsKind::TooManyEntries => "TooManyEntries",
        TnsKind::FileTooLong => "FileTooLong",
        TnsKind::TooManyPositions => "TooManyPositions",
    }
}

fn rule_text(rule: Rule) -> &'static str
    ensures { result.now ≡ rule_kind rule }
{
    match rule {
        Rule::Ports => "Ports",
        Rule::Stray => "Stray",
        Rule::Cycle => "Cycle",
        Rule::Writers => "Writers",
        Rule::Labels => "Labels",
    }
}

/// Appends a text, and answers only want of memory.
fn word(text: &mut Name, word: &str) -> Result<(), AllocError>
    ensures { OnOk result (text.new ≡ text.old ++ word.now) }
{
    text.append(word.as_bytes())
}

fn number(text: &mut Name, n: u32) -> Result<(), AllocError>
    ensures { OnOk result (text.new ≡ text.old ++ decimal n) }
{
    let mut buffer = Buffer::new();
    text.append(buffer.format(n).as_bytes())
}

fn numbered(text: &mut Name, head: &str, n: u32) -> Result<(), AllocError>
    ensures { OnOk result (text.new ≡ text.old ++ (head.now ++ decimal n)) }
{
    word(text, head)?;
    number(text, n)
}

fn named_kind(text: &mut Name, kind: &str, name: &Name) -> Result<(), AllocError>
    ensures { OnOk result (text.new ≡ text.old ++ (kind.now ++ name.now)) }
{
    word(text, kind)?;
    text.append(name.as_bytes())
}

fn note(text: &mut Name, kind: NoteKind, place: u32) -> Result<(), AllocError>
    ensures { OnOk result (text.new ≡ text.old ++ (note_kind kind ++ codes " " ++ decimal place)) }
{
    word(text, note_text(kind))?;
    word(text, " ")?;
    number(text, place)
}

fn program_text(text: &mut Name, kind: &ProgramKind) -> Result<(), AllocError>
    ensures { OnOk result (text.new ≡ text.old ++ program_kind kind.now) }
{
    match kind {
        ProgramKind::FileTooLong => word(text, "FileTooLong"),
        ProgramKind::ManyStatements => word(text, "ManyStatements"),
        ProgramKind::TooManyStatements => word(text, "TooManyStatements"),
        ProgramKind::BadLine => word(text, "BadLine"),
        ProgramKind::DimensionRange => word(text, "DimensionRange"),
        ProgramKind::DuplicateName(name) => named_kind(text, "DuplicateName ", name),
        ProgramKind::Note { kind, place } => note(text, *kind, *place),
        ProgramKind::UnknownName(name) => named_kind(text, "UnknownName ", name),
        ProgramKind::ResultOnRight(name) => named_kind(text, "ResultOnRight ", name),
        ProgramKind::ScalarOperand(name) => named_kind(text, "ScalarOperand ", name),
        ProgramKind::ArityMismatch(name) => named_kind(text, "ArityMismatch ", name),
        ProgramKind::RepeatedVariable(name) => named_kind(text, "RepeatedVariable ", name),
        ProgramKind::DimMismatch(name) => named_kind(text, "DimMismatch ", name),
        ProgramKind::UnusedSum(name) => named_kind(text, "UnusedSum ", name),
        ProgramKind::BoundVariable(name) => named_kind(text, "BoundVariable ", name),
        ProgramKind::ExpandedTerms => word(text, "ExpandedTerms"),
        ProgramKind::ExpandedFactors => word(text, "ExpandedFactors"),
        ProgramKind::NoAccess => word(text, "NoAccess"),
        ProgramKind::MissingResultVariable(name) => named_kind(
            text,
            "MissingResultVariable ",
            name,
        ),
        ProgramKind::TooManyVariables => word(text, "TooManyVariables"),
        ProgramKind::LoopsMismatch => word(text, "LoopsMismatch"),
        ProgramKind::Discordant(name) => named_kind(text, "Discordant ", name),
        ProgramKind::ReducerTooDeep(name) => named_kind(text, "ReducerTooDeep ", name),
    }
}

/// A line of a head and a name.
fn name_line(alloc: Global, head: &str, name: &Name) -> Result<Name, AllocError>
    ensures { IfOk result (λ text. text ≡ text_line (head.now ++ name.now)) }
{
    let mut text = Name::from_slice(alloc, head.as_bytes())?;
    text.append(name.as_bytes())?;
    text.push(b'\n')?;
    Ok(text)
}

/// A line of a head, a number and a tail.
fn number_line(alloc: Global, head: &str, n: u32, tail: &str) -> Result<Name, AllocError>
    ensures { IfOk result (λ text. text ≡ text_line (head.now ++ decimal n ++ tail.now)) }
{
    let mut text = Name::from_slice(alloc, head.as_bytes())?;
    number(&mut text, n)?;
    word(&mut text, tail)?;
    text.push(b'\n')?;
    Ok(text)
}

fn program_line(alloc: Global, kind: &ProgramKind, line: u32) -> Result<Name, AllocError>
    ensures { IfOk result
        (λ text. text ≡ text_line (codes "sam: program line " ++ decimal line ++ codes ": " ++ program_kind kind.now)) }
{
    let mut text = Name::from_slice(alloc, b"sam: program line ")?;
    number(&mut text, line)?;
    word(&mut text, ": ")?;
    program_text(&mut text, kind)?;
    text.push(b'\n')?;
    Ok(text)
}

fn tensor_line(alloc: Global, name: &Name, kind: TnsKind, line: u32) -> Result<Name, AllocError>
    ensures { IfOk result
        (λ text. text ≡ text_line (codes "sam: " ++ name.now ++ codes " line " ++ decimal line ++ codes ": " ++ tns_kind kind)) }
{
    let mut text = Name::from_slice(alloc, b"sam: ")?;
    text.append(name.as_bytes())?;
    word(&mut text, " line ")?;
    number(&mut text, line)?;
    word(&mut text, ": ")?;
    word(&mut text, tns_text(kind))?;
    text.push(b'\n')?;
    Ok(text)
}

/// Where a rule of graphs fails: at a channel for stray channels, and else at a block.
fn place_text(rule: Rule) -> &'static str
    ensures { result.now ≡ place_of rule }
{
    match rule {
        Rule::Stray => "sam: graph channel ",
        Rule::Ports => "sam: graph block ",
        Rule::Cycle => "sam: graph block ",
        Rule::Writers => "sam: graph block ",
        Rule::Labels => "sam: graph block ",
    }
}

/// The line of a rule that a graph breaks.
fn rule_line(alloc: Global, rule: Rule, at: u32) -> Result<Name, AllocError>
    ensures { IfOk result (λ text. text ≡ text_line (place_of rule ++ decimal at ++ codes ": " ++ rule_kind rule)) }
{
    let mut text = Name::from_slice(alloc, place_text(rule).as_bytes())?;
    number(&mut text, at)?;
    word(&mut text, ": ")?;
    word(&mut text, rule_text(rule))?;
    text.push(b'\n')?;
    Ok(text)
}

/// Why a block waits on a channel.
fn state_text(full: bool) -> &'static str
    ensures { result.now ≡ state_of full }
{
    if full {
        " full channel "
    } else {
        " empty channel "
    }
}

/// Appends the line of one waiting block, behind a head.
fn waiting_line(text: &mut Name, head: &str, waiting: Waiting) -> Result<(), AllocError>
    ensures { OnOk result (text.new ≡ text.old ++ waiting_line head.now waiting) }
{
    numbered(text, head, waiting.block)?;
    numbered(text, state_text(waiting.full), waiting.channel)?;
    text.push(b'\n')?;
    Ok(())
}

/// The lines of waiting blocks, each `block B full channel C` or `block B empty channel C` behind the head, which ends with
/// the word `block` and a blank.
pub fn waiting_lines(alloc: Global, head: &str, blocks: &[Waiting]) -> Result<Name, AllocError>
    ensures { IfOk result (λ text. text ≡ waiting_lines head.now blocks.now) }
{
    let mut text = Name::new(alloc);
    for waiting in blocks {
        waiting_line(&mut text, head, *waiting)?;
    }
    Ok(text)
}

/// The text of a fault: one line, and for a stall one line for each waiting block, each ended by a newline.
pub fn fault_text(alloc: Global, fault: &Fault) -> Result<Name, AllocError>
    ensures { IfOk result (λ text. text ≡ text_of fault.now) }
{
    match fault {
        Fault::Usage => Name::from_slice(
            alloc,
            b"sam: usage: sam COMMAND SUBJECT [GRAPH] [--capacity N] [--of C=N,..] [--schedule FILE] [--fused]\n",
        ),
        Fault::Missing(name) => name_line(alloc, "sam: missing ", name),
        Fault::ReadFault(name) => name_line(alloc, "sam: read fault ", name),
        Fault::Program { kind, line } => program_line(alloc, kind, *line),
        Fault::Schedule { line } => number_line(alloc, "sam: schedule line ", *line, ""),
        Fault::TooManyBlocks(blocks) => number_line(alloc, "sam: ", *blocks, " blocks"),
        Fault::NoSuchChannel(channel) => number_line(alloc, "sam: no channel ", *channel, ""),
        Fault::Graph => Name::from_slice(alloc, b"sam: graph refused\n"),
        Fault::NotVerified { rule, at } => rule_line(alloc, *rule, *at),
        Fault::Tensor { name, kind, line } => tensor_line(alloc, name, *kind, *line),
        Fault::Stalled(blocks) => waiting_lines(alloc, "sam: stalled: block ", blocks.as_slice()),
        Fault::ResultTooLarge => Name::from_slice(alloc, b"sam: result too large\n"),
        Fault::WriteFault => Name::from_slice(alloc, b"sam: write fault\n"),
        Fault::OutOfMemory => Name::from_slice(alloc, b"sam: out of memory\n"),
    }
}
