//! The words of a program's statements.

ghost use Rattle.std.specs.Prelude.{◌≡◌, true, map, IfOk};
ghost use Rattle.std.specs.List.{list_all};
ghost use Rattle.l6_asm.specs.inner.CardsLeft.{are_words};
ghost use Rattle.l6_image.specs.Image as spec;

use l6_image::statement_words;
use l6_prog::Program;
use std::alloc::{AllocError, Global};
use std::marker::Model;

/// The words of each statement of a program, in order.
#[derive(Drop)]
pub struct StatementWords {
    statements: Vec<Vec<u64>>,
}

impl Model for StatementWords {
    ghost use Rattle.std.specs.Prelude.{◌≡◌, ℕ, List, true, map};
    ghost use Rattle.std.specs.List.{list_all};
    ghost use Rattle.l6_asm.specs.inner.CardsLeft.{are_words};

    ghost Value = { List (List ℕ) };

    ghost view = { λ words. map (λ v. v.items) words.statements.items };

    ghost invariant = { λ words.
        list_all are_words (map (λ v. v.items) words.statements.items) ≡ true };
}

impl StatementWords {
    /// The words of the statements of a program.
    ///
    /// # Errors
    ///
    /// Memory ran out.
    pub fn of(alloc: Global, program: &Program) -> Result<Self, AllocError>
        ensures { IfOk result (λ words. words ≡ map spec.statement_words program.now) }
    {
        let mut statements = Vec::with_capacity(alloc, program.statements().len())?;
        for number in 0..program.statements().len() {
            statements.push(statement_words(alloc, program.statement(number as u16))?)?;
        }
        Ok(StatementWords { statements })
    }

    /// The words of each statement.
    pub(crate) fn as_slice(&self) -> &[Vec<u64>]
        ensures value { map (λ v. v.items) result.now ≡ self.now }
        ensures known { list_all are_words self.now ≡ true }
    {
        self.statements.as_slice()
    }
}
