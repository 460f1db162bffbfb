//! The reading of a statement.

ghost use Rattle.std.specs.Prelude.{◌≡◌, ◌≤◌, length, IfOk, Ok};
ghost use Rattle.notation.specs.declared.statement.Statement.{Statement as SpecStatement};
ghost use Rattle.notation.specs.Refusals.{GivesNote, IfNoteRefused};
ghost use Rattle.notation.specs.Positions.{statement_reading};
ghost use Rattle.notation.specs.Spelling.{Spells, FirstFault};
ghost use Rattle.notation.specs.Tokens.{tokens_of};

use crate::state::State;
use crate::statement::{NoteFault, Statement};
use crate::step::{finish, step};
use crate::tokens::{Found, Placed, token_at};
use sam_base::FILE_MOST;
use std::alloc::Global;

fn read(alloc: Global, text: &[u8]) -> Result<Statement, NoteFault>
    requires { length text.now ≤ FILE_MOST }
    ensures { GivesNote result (statement_reading text.now) }
{
    let mut state = State::Start;
    let mut at = 0;
    while let Some(Found { placed, end }) = token_at(alloc, text, at)? {
        let Placed { token, place } = placed;
        state = step(alloc, state, token, place)?;
        at = end;
    }
    finish(alloc, state, text.len() as u32)
}

/// The statement that a text spells: an access, `=`, and an expression, which has terms with `+` or `-` between them, each of
/// factors with `*` between them. A factor is an access, a number, an expression in parentheses, or `sum(k, e)`, the sum of an
/// expression over a variable. A refusal tells the first fault. The text is read once, from the left, and no deeper than 32
/// parentheses and sums within one another.
pub fn read_statement(alloc: Global, text: &[u8]) -> Result<Statement, NoteFault>
    requires { length text.now ≤ FILE_MOST }
    // What is read is spelled so.
    ensures found { IfOk result (λ x. Spells (tokens_of text.now) x) }
    // What is spelled so is read, unless memory runs out.
    ensures only { (x : SpecStatement) → Spells (tokens_of text.now) x → GivesNote result (Ok x) }
    // A refusal stands at the first fault.
    ensures first { IfNoteRefused result (FirstFault (length text.now) (tokens_of text.now)) }
    // Its kind is that of the position where the first fault stands.
    ensures exact { GivesNote result (statement_reading text.now) }
{
    read(alloc, text)
}
