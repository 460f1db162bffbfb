//! What each token does where the reading stands.

ghost use Rattle.std.specs.Prelude.{◌≡◌};
ghost use Rattle.notation.specs.Refusals.{GivesNote};
ghost use Rattle.notation.specs.Positions.{token_kind, opens, at_factor, closes, at_operator, step_of, ends, end_of, more_terms};

use crate::state::{Opened, Reading, State};
use crate::statement::{AccessText, ExprText, NoteFault, Statement};
use crate::tokens::Token;
use sam_base::{FACTORS_MOST, Name, NoteKind, TERMS_MOST};
use std::alloc::Global;

/// The refusal of a token that may not stand where it stands.
fn refuse_token(token: &Token, kind: NoteKind, place: u32) -> NoteFault
    ensures { result ≡ NoteFault.Refused (token_kind token.now kind) place }
{
    let kind = match token {
        Token::Bad => NoteKind::BadChar,
        _ => kind,
    };
    NoteFault::Refused { kind, place }
}

/// How many parentheses and sums may lie within one another.
const DEPTH_MOST: usize = 32;

/// Within a parenthesis or sum that opens at this place.
fn opens(alloc: Global, reading: Reading, opened: Opened, place: u32) -> Result<State, NoteFault>
    ensures { GivesNote result (opens reading opened place) }
{
    if reading.outer.len() < DEPTH_MOST {
        Ok(State::First(reading.deeper(alloc, opened)?))
    } else {
        Err(NoteFault::Refused {
            kind: NoteKind::TooDeep,
            place,
        })
    }
}

#[tactic(auto, unfolding(crate::specs::Positions::at_factor))]
fn factor(alloc: Global, reading: Reading, token: Token, place: u32) -> Result<State, NoteFault>
    ensures { GivesNote result (at_factor reading token place) }
{
    match token {
        Token::Name(name) => Ok(State::Named(reading, AccessText::named(alloc, name, place))),
        Token::Number(n) => {
            let mut reading = reading;
            reading.add(ExprText::Literal(n))?;
            Ok(State::Operator(reading))
        }
        Token::Open => opens(alloc, reading, Opened::Parenthesis, place),
        Token::Sum => Ok(State::SumOpen(reading, place)),
        Token::TooLarge => Err(NoteFault::Refused {
            kind: NoteKind::NumberTooLarge,
            place,
        }),
        other => Err(refuse_token(&other, NoteKind::ExpectedFactor, place)),
    }
}

fn term(alloc: Global, reading: Reading, minus: bool, place: u32) -> Result<State, NoteFault>
    ensures { GivesNote result (more_terms reading minus place) }
{
    if reading.level.terms.len() < TERMS_MOST - 1 {
        Ok(State::Factor(reading.next(alloc, minus)?))
    } else {
        Err(NoteFault::Refused {
            kind: NoteKind::TooManyTerms,
            place,
        })
    }
}

/// Behind a `)`, which closes the innermost expression that stands open.
fn close(alloc: Global, reading: Reading, place: u32) -> Result<State, NoteFault>
    ensures { GivesNote result (closes reading.left reading.outer reading.level place) }
{
    let Reading { left, outer, level } = reading;
    let mut outer = outer;
    match outer.pop() {
        None => Err(NoteFault::Refused {
            kind: NoteKind::ExpectedOperator,
            place,
        }),
        Some(around) => {
            let mut reading = Reading {
                left,
                outer,
                level: around,
            };
            reading.add(level.close(alloc)?)?;
            Ok(State::Operator(reading))
        }
    }
}

#[tactic(auto, unfolding(crate::specs::Positions::at_operator))]
fn operator(alloc: Global, reading: Reading, token: Token, place: u32) -> Result<State, NoteFault>
    ensures { GivesNote result (at_operator reading token place) }
{
    match token {
        Token::Plus => term(alloc, reading, false, place),
        Token::Minus => term(alloc, reading, true, place),
        Token::Star => {
            if reading.level.factors.len() < FACTORS_MOST {
                Ok(State::Factor(reading))
            } else {
                Err(NoteFault::Refused {
                    kind: NoteKind::TooManyFactors,
                    place,
                })
            }
        }
        Token::Close => close(alloc, reading, place),
        other => Err(refuse_token(&other, NoteKind::ExpectedOperator, place)),
    }
}

/// At the start.
#[tactic(auto, unfolding(crate::specs::Positions::step_of))]
fn start(alloc: Global, token: Token, place: u32) -> Result<State, NoteFault>
    ensures { GivesNote result (step_of (State.Start) token place) }
{
    match token {
        Token::Name(name) => Ok(State::LeftName(AccessText::named(alloc, name, place))),
        other => Err(refuse_token(&other, NoteKind::ExpectedName, place)),
    }
}

/// Behind the name of the left access.
#[tactic(auto, unfolding(crate::specs::Positions::step_of))]
fn left_name(
    alloc: Global,
    access: AccessText,
    token: Token,
    place: u32,
) -> Result<State, NoteFault>
    ensures { GivesNote result (step_of (State.LeftName access) token place) }
{
    match token {
        Token::Open => Ok(State::LeftVar(access)),
        Token::Equals => Ok(State::First(Reading::begun(alloc, access))),
        other => Err(refuse_token(&other, NoteKind::ExpectedEquals, place)),
    }
}

/// Where a variable of the left access is expected.
#[tactic(auto, unfolding(crate::specs::Positions::step_of))]
fn left_var(access: AccessText, token: Token, place: u32) -> Result<State, NoteFault>
    ensures { GivesNote result (step_of (State.LeftVar access) token place) }
{
    match token {
        Token::Name(name) => {
            let mut access = access;
            access.add(name)?;
            Ok(State::LeftNext(access))
        }
        other => Err(refuse_token(&other, NoteKind::ExpectedName, place)),
    }
}

/// Behind a variable of the left access.
#[tactic(auto, unfolding(crate::specs::Positions::step_of))]
fn left_next(access: AccessText, token: Token, place: u32) -> Result<State, NoteFault>
    ensures { GivesNote result (step_of (State.LeftNext access) token place) }
{
    match token {
        Token::Comma => Ok(State::LeftVar(access)),
        Token::Close => Ok(State::LeftDone(access)),
        other => Err(refuse_token(&other, NoteKind::ExpectedComma, place)),
    }
}

/// Behind the `)` of the left access.
#[tactic(auto, unfolding(crate::specs::Positions::step_of))]
fn left_done(
    alloc: Global,
    access: AccessText,
    token: Token,
    place: u32,
) -> Result<State, NoteFault>
    ensures { GivesNote result (step_of (State.LeftDone access) token place) }
{
    match token {
        Token::Equals => Ok(State::First(Reading::begun(alloc, access))),
        other => Err(refuse_token(&other, NoteKind::ExpectedEquals, place)),
    }
}

/// Where an expression begins.
#[tactic(auto, unfolding(crate::specs::Positions::step_of))]
fn first(alloc: Global, reading: Reading, token: Token, place: u32) -> Result<State, NoteFault>
    ensures { GivesNote result (step_of (State.First reading) token place) }
{
    match token {
        Token::Minus => {
            let mut reading = reading;
            reading.negate();
            Ok(State::Factor(reading))
        }
        other => factor(alloc, reading, other, place),
    }
}

/// Behind the name of an access.
#[tactic(auto, unfolding(crate::specs::Positions::step_of))]
fn named(
    alloc: Global,
    reading: Reading,
    access: AccessText,
    token: Token,
    place: u32,
) -> Result<State, NoteFault>
    ensures { GivesNote result (step_of (State.Named reading access) token place) }
{
    match token {
        Token::Open => Ok(State::Var(reading, access)),
        other => {
            let mut reading = reading;
            reading.add(ExprText::Access(access))?;
            operator(alloc, reading, other, place)
        }
    }
}

/// Where a variable of an access is expected.
#[tactic(auto, unfolding(crate::specs::Positions::step_of))]
fn var(reading: Reading, access: AccessText, token: Token, place: u32) -> Result<State, NoteFault>
    ensures { GivesNote result (step_of (State.Var reading access) token place) }
{
    match token {
        Token::Name(name) => {
            let mut access = access;
            access.add(name)?;
            Ok(State::Next(reading, access))
        }
        other => Err(refuse_token(&other, NoteKind::ExpectedName, place)),
    }
}

/// Behind a variable of an access.
#[tactic(auto, unfolding(crate::specs::Positions::step_of))]
fn next(reading: Reading, access: AccessText, token: Token, place: u32) -> Result<State, NoteFault>
    ensures { GivesNote result (step_of (State.Next reading access) token place) }
{
    match token {
        Token::Comma => Ok(State::Var(reading, access)),
        Token::Close => {
            let mut reading = reading;
            reading.add(ExprText::Access(access))?;
            Ok(State::Operator(reading))
        }
        other => Err(refuse_token(&other, NoteKind::ExpectedComma, place)),
    }
}

/// Behind the word `sum`.
#[tactic(auto, unfolding(crate::specs::Positions::step_of))]
fn sum_open(reading: Reading, at: u32, token: Token, place: u32) -> Result<State, NoteFault>
    ensures { GivesNote result (step_of (State.SumOpen reading at) token place) }
{
    match token {
        Token::Open => {
            if reading.outer.len() < DEPTH_MOST {
                Ok(State::SumVar(reading, at))
            } else {
                Err(NoteFault::Refused {
                    kind: NoteKind::TooDeep,
                    place,
                })
            }
        }
        other => Err(refuse_token(&other, NoteKind::ExpectedOpen, place)),
    }
}

/// Where the variable of a sum is expected.
#[tactic(auto, unfolding(crate::specs::Positions::step_of))]
fn sum_var(reading: Reading, at: u32, token: Token, place: u32) -> Result<State, NoteFault>
    ensures { GivesNote result (step_of (State.SumVar reading at) token place) }
{
    match token {
        Token::Name(name) => Ok(State::SumComma(reading, at, name)),
        other => Err(refuse_token(&other, NoteKind::ExpectedName, place)),
    }
}

/// Behind the variable of a sum.
#[tactic(auto, unfolding(crate::specs::Positions::step_of))]
fn sum_comma(
    alloc: Global,
    reading: Reading,
    at: u32,
    var: Name,
    token: Token,
    place: u32,
) -> Result<State, NoteFault>
    ensures { GivesNote result (step_of (State.SumComma reading at var) token place) }
{
    match token {
        Token::Comma => Ok(State::First(reading.deeper(alloc, Opened::Sum { var, place: at })?)),
        other => Err(refuse_token(&other, NoteKind::ExpectedComma, place)),
    }
}

/// Where the reading stands behind the token.
#[tactic(auto, unfolding(crate::specs::Positions::step_of))]
pub(crate) fn step(
    alloc: Global,
    state: State,
    token: Token,
    place: u32,
) -> Result<State, NoteFault>
    ensures { GivesNote result (step_of state token place) }
{
    match state {
        State::Start => start(alloc, token, place),
        State::LeftName(access) => left_name(alloc, access, token, place),
        State::LeftVar(access) => left_var(access, token, place),
        State::LeftNext(access) => left_next(access, token, place),
        State::LeftDone(access) => left_done(alloc, access, token, place),
        State::First(reading) => first(alloc, reading, token, place),
        State::Factor(reading) => factor(alloc, reading, token, place),
        State::Named(reading, access) => named(alloc, reading, access, token, place),
        State::Var(reading, access) => var(reading, access, token, place),
        State::Next(reading, access) => next(reading, access, token, place),
        State::SumOpen(reading, at) => sum_open(reading, at, token, place),
        State::SumVar(reading, at) => sum_var(reading, at, token, place),
        State::SumComma(reading, at, var) => sum_comma(alloc, reading, at, var, token, place),
        State::Operator(reading) => operator(alloc, reading, token, place),
    }
}

/// The statement, where nothing stands open.
fn whole(alloc: Global, reading: Reading, place: u32) -> Result<Statement, NoteFault>
    ensures { GivesNote result (ends reading reading.outer place) }
{
    if reading.outer.len() > 0 {
        return Err(NoteFault::Refused {
            kind: NoteKind::ExpectedOperator,
            place,
        });
    }
    Ok(reading.finish(alloc)?)
}

/// What is read where the text ends.
#[tactic(auto, unfolding(crate::specs::Positions::end_of))]
pub(crate) fn finish(alloc: Global, state: State, place: u32) -> Result<Statement, NoteFault>
    ensures { GivesNote result (end_of state place) }
{
    match state {
        State::Named(reading, access) => {
            let mut reading = reading;
            reading.add(ExprText::Access(access))?;
            whole(alloc, reading, place)
        }
        State::Operator(reading) => whole(alloc, reading, place),
        State::Start | State::LeftVar(_) | State::Var(_, _) | State::SumVar(_, _) => {
            Err(NoteFault::Refused {
                kind: NoteKind::ExpectedName,
                place,
            })
        }
        State::LeftNext(_) | State::Next(_, _) | State::SumComma(_, _, _) => {
            Err(NoteFault::Refused {
                kind: NoteKind::ExpectedComma,
                place,
            })
        }
        State::LeftName(_) | State::LeftDone(_) => Err(NoteFault::Refused {
            kind: NoteKind::ExpectedEquals,
            place,
        }),
        State::SumOpen(_, _) => Err(NoteFault::Refused {
            kind: NoteKind::ExpectedOpen,
            place,
        }),
        State::First(_) | State::Factor(_) => Err(NoteFault::Refused {
            kind: NoteKind::ExpectedFactor,
            place,
        }),
    }
}
