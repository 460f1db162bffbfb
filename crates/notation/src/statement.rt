//! Statements as they are written, by names, and why a text is none.

ghost use Rattle.std.specs.Prelude.{◌≡◌};
ghost use Rattle.notation.specs.declared.statement.NoteFault.TheVariants.{OutOfMemory};

use sam_base::{Items, Name, NoteKind};
use std::alloc::AllocError;
use std::marker::Model;
use thiserror::Error;

/// A tensor's name with its variables in parentheses, or alone. The place is that of its first byte in the text.
#[derive(Debug, Drop)]
pub struct AccessText {
    pub name: Name,
    pub vars: Items<Name>,
    pub place: u32,
}

/// An expression. Operators of one rank group from the left, and a parenthesis leaves no trace but the grouping. The place
/// of a sum is that of the first byte of its word `sum`.
#[derive(Debug, Drop)]
pub enum ExprText {
    Access(AccessText),
    Literal(u64),
    Times(Box<ExprText>, Box<ExprText>),
    Plus(Box<ExprText>, Box<ExprText>),
    Minus(Box<ExprText>, Box<ExprText>),
    Negate(Box<ExprText>),
    Sum {
        var: Name,
        place: u32,
        body: Box<ExprText>,
    },
}

/// A term that is added or subtracted, with the sign before it.
#[derive(Debug, Drop)]
pub struct TopText {
    pub minus: bool,
    pub body: ExprText,
}

impl Model for TopText {
    ghost use Rattle.notation.specs.Trees.{TopTextTree, text_tree};
    ghost use Rattle.notation.specs.TreeCode.{top_text_code};

    ghost Value = { TopTextTree };

    ghost coded = { top_text_code };

    ghost view = { λ t. record { minus = t.minus; body = text_tree t.body } };
}

/// `left = terms`, with one to sixteen terms.
#[derive(Debug, Drop)]
pub struct Statement {
    pub left: AccessText,
    pub tops: Items<TopText>,
}

/// Why a text gives no statement. The place is that of the first byte of the first fault, counted from 0, or the length
/// of the text where the end stands at a fault.
#[derive(Debug, Drop, Error)]
pub enum NoteFault {
    #[error("{kind:?} at byte {place}")]
    Refused { kind: NoteKind, place: u32 },
    #[error("out of memory")]
    OutOfMemory,
}

impl From<AllocError> for NoteFault {
    ghost from_gives = { λ _ e. e ≡ OutOfMemory };

    fn from(_e: AllocError) -> NoteFault {
        NoteFault::OutOfMemory
    }
}
