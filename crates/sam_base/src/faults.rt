//! Why a command gives no result, and the exit status of each cause.

ghost use Rattle.std.specs.Prelude.{◌≡◌};
ghost use Rattle.sam_base.specs.Texts.{status_of};

use crate::lists::{Items, Name};

/// What is wrong with the text of a statement.
#[derive(Clone, Copy, Debug, PartialEq, Eq)]
pub enum NoteKind {
    /// A byte begins no token.
    BadChar,
    /// A name was to stand here: at the start, after `(` or `,` inside an access, or after the `(` of a sum.
    ExpectedName,
    /// `(` was to stand here, after the word `sum`.
    ExpectedOpen,
    /// `,` or `)` was to stand here, after a variable; or `,`, after that of a sum.
    ExpectedComma,
    /// `=` was to stand here, after the left access; or `(` or `=` after its name.
    ExpectedEquals,
    /// `(` opens more parentheses and sums within each other than a statement may have.
    TooDeep,
    /// A decimal above 2^64-1 stands where a factor is expected.
    NumberTooLarge,
    /// Something else stands where a factor is expected.
    ExpectedFactor,
    /// `+`, `-`, `*` or the end was to stand here, after a factor; or `)`, where a parenthesis or sum is open.
    ExpectedOperator,
    /// `+` or `-` stands after the last term that a statement may have.
    TooManyTerms,
    /// `*` stands after the last factor that a term may have.
    TooManyFactors,
}

/// What is wrong with a program file.
#[derive(Debug, Drop)]
pub enum ProgramKind {
    /// The file has more bytes than a file may have.
    FileTooLong,
    /// A second statement begins on this line, where there is to be one alone.
    ManyStatements,
    /// A statement begins on this line after the last that a program file may have.
    TooManyStatements,
    /// The line isn't of the form that its place asks for, or the text ends too early.
    BadLine,
    /// A dimension is out of range.
    DimensionRange,
    /// The name was declared by an earlier line.
    DuplicateName(Name),
    /// The statement is refused at this place of its text, counted in bytes from 0.
    Note { kind: NoteKind, place: u32 },
    /// A name isn't declared, or the one on the left isn't the result's.
    UnknownName(Name),
    /// The result stands on the right.
    ResultOnRight(Name),
    /// This result of an earlier statement has no dimensions, and stands on the right.
    ScalarOperand(Name),
    /// An access of this tensor has another number of variables than it has dimensions.
    ArityMismatch(Name),
    /// This variable stands twice in one access.
    RepeatedVariable(Name),
    /// This variable stands at two dimensions that differ.
    DimMismatch(Name),
    /// The variable of this sum stands in no access.
    UnusedSum(Name),
    /// The variable of this sum is on the left, is that of another sum of the same term, or stands outside this sum too.
    BoundVariable(Name),
    /// There are more expanded terms than a program may have.
    ExpandedTerms,
    /// An expanded term has more factors than a term may have.
    ExpandedFactors,
    /// A term has no access.
    NoAccess,
    /// A term lacks this variable of the left side.
    MissingResultVariable(Name),
    /// The statement has more variables than it may have.
    TooManyVariables,
    /// The names of `loops` aren't each variable of the statement exactly once.
    LoopsMismatch,
    /// The variables of an access of this tensor don't stand in loop order.
    Discordant(Name),
    /// Too many variables of the left side come after this one, which is summed over.
    ReducerTooDeep(Name),
}

/// What is wrong with a tensor file.
#[derive(Clone, Copy, Debug, PartialEq, Eq)]
pub enum TnsKind {
    /// A line has too few or too many words.
    FieldCount,
    /// A word is no coordinate, or no value.
    BadField,
    /// A coordinate is 0 or above its dimension.
    CoordinateRange,
    /// A value has a fraction digit other than 0.
    Fraction,
    /// A value is below -2^63 or above 2^64-1.
    ValueRange,
    /// There are more entries than a file may have.
    TooManyEntries,
    /// The file has more bytes than a file may have.
    FileTooLong,
    /// Too many prefixes of one length are stored.
    TooManyPositions,
}

/// An unfinished block of a graph that can't move, with the channel of its next move: it is full where the block would
/// put a token, and else empty.
#[derive(Clone, Copy, Debug, PartialEq, Eq)]
pub struct Waiting {
    pub block: u32,
    pub channel: u32,
    pub full: bool,
}

/// A rule that a graph has to keep, whoever made it.
#[derive(Clone, Copy, Debug, PartialEq, Eq)]
pub enum Rule {
    /// Each block has the ports of its kind, and the channel at each names it back.
    Ports,
    /// Each channel stands at both ports that it names.
    Stray,
    /// No channels lead from a block back to it.
    Cycle,
    /// There is one writer for each level of the result, and one for its values.
    Writers,
    /// Each block has labels that its kind allows.
    Labels,
}

/// Why a command gives no result. Names are names of files; lines count from 1, and 0 stands for no line.
#[derive(Debug, Drop)]
pub enum Fault {
    /// The words are no command.
    Usage,
    /// There is no file of this name.
    Missing(Name),
    /// This file could not be read.
    ReadFault(Name),
    /// The program file is refused.
    Program {
        kind: ProgramKind,
        line: u32,
    },
    /// The schedule file is refused.
    Schedule {
        line: u32,
    },
    /// The graph has this many blocks, too many for a thread each.
    TooManyBlocks(u32),
    /// The graph lacks this channel.
    NoSuchChannel(u32),
    /// The graph file is refused.
    Graph,
    /// The graph breaks this rule at this block, or for stray channels at this channel, and at no lower number.
    NotVerified {
        rule: Rule,
        at: u32,
    },
    /// A tensor file is refused.
    Tensor {
        name: Name,
        kind: TnsKind,
        line: u32,
    },
    /// The graph stands still, and these blocks aren't finished.
    Stalled(Items<Waiting>),
    /// The result has more coordinates than may be written: a dense level of it lists every one.
    ResultTooLarge,
    /// Standard output could not be written.
    WriteFault,
    /// There is no memory.
    OutOfMemory,
}

/// The exit status of a fault.
pub fn status(fault: &Fault) -> u8
    ensures { result ≡ status_of fault.now }
{
    match fault {
        Fault::Usage => 2,
        Fault::Program { .. } => 3,
        Fault::Schedule { .. } => 3,
        Fault::TooManyBlocks(_) => 3,
        Fault::NoSuchChannel(_) => 3,
        Fault::Graph => 3,
        Fault::Tensor { .. } => 4,
        Fault::Missing(_) => 5,
        Fault::ReadFault(_) => 6,
        Fault::WriteFault => 7,
        Fault::Stalled(_) => 8,
        Fault::OutOfMemory => 9,
        Fault::ResultTooLarge => 10,
        Fault::NotVerified { .. } => 11,
    }
}
