//! Where the reading of a statement stands, and what was read.

ghost use Rattle.std.specs.Prelude.{◌≡◌, IfOk};
ghost use Rattle.notation.specs.Trees.{text_tree};
ghost use Rattle.notation.specs.Positions.{named_access, with_var, opened_level, begun, with_factor, negated};
ghost use Rattle.notation.specs.Positions.{closed_term, next_term, deeper, closed_tree, whole_statement};

use crate::levels::Levels;
use crate::statement::{AccessText, ExprText, Statement, TopText};
use crate::trees::{Formed, product, sum};
use sam_base::{Items, Name};
use std::alloc::{AllocError, Global};

/// What opened an expression.
#[derive(Drop)]
pub(crate) enum Opened {
    /// the `=` of the statement
    Equals,
    /// a `(` that stands alone
    Parenthesis,
    /// the word `sum`, whose first byte stands at this place, with its variable
    Sum { var: Name, place: u32 },
}

/// An expression as far as the term that is read, and that term as far as its last factor.
#[derive(Drop)]
pub(crate) struct Level {
    pub opened: Opened,
    pub terms: Items<TopText>,
    pub minus: bool,
    pub factors: Items<Formed>,
}

/// What was read behind the `=`: the expression that is read, within those that stand open, the outermost last.
#[derive(Drop)]
pub(crate) struct Reading {
    pub left: AccessText,
    pub outer: Levels,
    pub level: Level,
}

/// Where the reading stands, and what was read.
#[derive(Drop)]
pub(crate) enum State {
    /// at the start
    Start,
    /// behind the name of the left access
    LeftName(AccessText),
    /// where a variable of the left access is expected
    LeftVar(AccessText),
    /// behind a variable of the left access
    LeftNext(AccessText),
    /// behind the `)` of the left access
    LeftDone(AccessText),
    /// where an expression begins
    First(Reading),
    /// where a factor is expected
    Factor(Reading),
    /// behind the name of an access
    Named(Reading, AccessText),
    /// where a variable of an access is expected
    Var(Reading, AccessText),
    /// behind a variable of an access
    Next(Reading, AccessText),
    /// behind the word `sum`, whose first byte stands at this place
    SumOpen(Reading, u32),
    /// where the variable of a sum is expected
    SumVar(Reading, u32),
    /// behind the variable of a sum
    SumComma(Reading, u32, Name),
    /// behind a factor
    Operator(Reading),
}

impl AccessText {
    /// A name with no variable yet.
    pub(crate) fn named(alloc: Global, name: Name, place: u32) -> AccessText
        ensures { result ≡ named_access name place }
    {
        AccessText {
            name,
            vars: Items::new(alloc),
            place,
        }
    }

    pub(crate) fn add(&mut self, var: Name) -> Result<(), AllocError>
        ensures { IfOk result (λ _. self.new ≡ with_var self.old var) }
    {
        self.vars.push(var)
    }
}

impl Level {
    /// An expression of which nothing was read.
    fn opened(alloc: Global, opened: Opened) -> Level
        ensures { result ≡ opened_level opened }
    {
        Level {
            opened,
            terms: Items::new(alloc),
            minus: false,
            factors: Items::new(alloc),
        }
    }

    /// The terms, with the one that was read.
    fn close_term(self, alloc: Global) -> Result<(Opened, Items<TopText>), AllocError>
        ensures opened { IfOk result (λ closed. closed.0 ≡ self.opened) }
        ensures terms { IfOk result (λ closed. closed.1 ≡ closed_term self) }
    {
        let mut terms = self.terms;
        terms.push(TopText {
            minus: self.minus,
            body: product(alloc, self.factors)?,
        })?;
        Ok((self.opened, terms))
    }

    /// The factor that the expression is, behind its `)`.
    pub(crate) fn close(self, alloc: Global) -> Result<ExprText, AllocError>
        ensures { IfOk result (λ e. text_tree e ≡ closed_tree self) }
    {
        let (opened, terms) = self.close_term(alloc)?;
        let body = sum(alloc, terms)?;
        match opened {
            Opened::Equals | Opened::Parenthesis => Ok(body),
            Opened::Sum { var, place } => Ok(ExprText::Sum {
                var,
                place,
                body: Box::new(alloc, body)?,
            }),
        }
    }
}

impl Reading {
    /// Right behind the `=`.
    pub(crate) fn begun(alloc: Global, left: AccessText) -> Reading
        ensures { result ≡ begun left }
    {
        Reading {
            left,
            outer: Levels::new(alloc),
            level: Level::opened(alloc, Opened::Equals),
        }
    }

    pub(crate) fn add(&mut self, expr: ExprText) -> Result<(), AllocError>
        ensures { IfOk result (λ _. self.new ≡ with_factor self.old (text_tree expr)) }
    {
        self.level.factors.push(Formed { expr })
    }

    /// Behind a `-` at the beginning.
    pub(crate) fn negate(&mut self)
        ensures { self.new ≡ negated self.old }
    {
        self.level.minus = true;
    }

    /// Behind a `+` or `-`.
    pub(crate) fn next(self, alloc: Global, minus: bool) -> Result<Reading, AllocError>
        ensures { IfOk result (λ r. r ≡ next_term self minus) }
    {
        let (opened, terms) = self.level.close_term(alloc)?;
        Ok(Reading {
            left: self.left,
            outer: self.outer,
            level: Level {
                opened,
                terms,
                minus,
                factors: Items::new(alloc),
            },
        })
    }

    /// The statement.
    pub(crate) fn finish(self, alloc: Global) -> Result<Statement, AllocError>
        ensures { IfOk result (λ x. x ≡ whole_statement self) }
    {
        let (_opened, tops) = self.level.close_term(alloc)?;
        Ok(Statement {
            left: self.left,
            tops,
        })
    }

    /// Within an expression that is opened.
    pub(crate) fn deeper(self, alloc: Global, opened: Opened) -> Result<Reading, AllocError>
        ensures { IfOk result (λ r. r ≡ deeper self opened) }
    {
        let mut outer = self.outer;
        outer.push(self.level)?;
        Ok(Reading {
            left: self.left,
            outer,
            level: Level::opened(alloc, opened),
        })
    }
}
