//! The expressions that stand open.

ghost use Rattle.std.specs.Prelude.{◌≡◌, [], ◌∷◌, length, OnOk, MatchOption};

use crate::state::Level;
use std::alloc::{AllocError, Global};
use std::marker::Model;

/// A stack of expressions, which contracts see as a list with the innermost first.
#[derive(Drop)]
pub(crate) struct Levels {
    levels: Vec<Level>,
}

impl Model for Levels {
    ghost use Rattle.std.specs.Prelude.{List, reverse};
    ghost use Rattle.std.specs.Coded.{coded_list};
    ghost use Rattle.notation.specs.declared.state.Level.{Level};
    ghost use Rattle.notation.specs.LevelCode.{level_code};

    ghost Value = { List Level };

    ghost coded = { coded_list level_code };

    ghost view = { λ l. reverse l.levels.items };
}

impl Levels {
    pub(crate) fn new(alloc: Global) -> Levels
        ensures { result ≡ [] }
    {
        Levels {
            levels: Vec::new(alloc),
        }
    }

    pub(crate) fn len(&self) -> usize
        ensures { result ≡ length self.now }
    {
        self.levels.len()
    }

    pub(crate) fn push(&mut self, level: Level) -> Result<(), AllocError>
        ensures { OnOk result (self.new ≡ level ∷ self.old) }
    {
        self.levels.push(level)?;
        Ok(())
    }

    /// Takes the innermost.
    pub(crate) fn pop(&mut self) -> Option<Level>
        ensures { MatchOption result ((self.old ≡ []) × (self.new ≡ [])) (λ level. self.old ≡ level ∷ self.new) }
    {
        self.levels.pop()
    }
}
