//! Programs.

ghost use Rattle.std.specs.Prelude.{◌≡◌, ◌+◌, ◌-◌, ◌<◌, ◌≤◌, IfOk, IsTrue, is_ok, true, length, slice_get, slice_index_or};
ghost use Rattle.std.specs.List.{list_all};
ghost use Rattle.l6_prog.specs.Program.{program_of, IsProgram, fits, has_its_tests, is_plain_done};
ghost use Rattle.l6_prog.specs.Numerals.{most_statements};
ghost use Rattle.l6_prog.specs.Statement.{plain_done};
ghost use Rattle.l6_prog.specs.Target.{is_below, targets_of};
ghost use Rattle.l6_prog.specs.Values.{has_values};

use crate::condition::Cond;
use crate::exit::Exit;
use crate::statement::Statement;
use std::alloc::{AllocError, Global};
use std::marker::Model;
use thiserror::Error;

/// How many statements a program may have, the last one, the plain `DONE`, among them.
pub const MAX_STATEMENTS: usize = 65_535;
/// How many tests a statement may have.
pub const MAX_TESTS: usize = 63;
/// How many operations a statement may have.
pub const MAX_OPERATIONS: usize = 63;

/// Why statements are no program.
#[derive(Clone, Copy, Debug, Error, PartialEq, Eq)]
pub enum ProgFault {
    /// More than 65,535 statements, or a statement with more than 63 tests or 63 operations.
    #[error("past a limit")]
    Limit,
    /// A label or a call that names no statement.
    #[error("a target is no statement")]
    Target,
    /// No statement, a condition whose number of tests is wrong, or a last statement that is not
    /// the plain `DONE`.
    #[error("not in the form of a program")]
    Shape,
}

/// A program: 1 to 65,535 statements, numbered from 0, of which the last is the plain `DONE`. Each
/// target is the number of one of them.
#[derive(Drop)]
pub struct Program {
    statements: Vec<Statement>,
}

impl Model for Program {
    ghost use Rattle.std.specs.Prelude.{◌≡◌, List, is_ok, true};
    ghost use Rattle.std.specs.List.{list_all};
    ghost use Rattle.l6_prog.specs.Statement.{Parts};
    ghost use Rattle.l6_prog.specs.Program.{program_of};
    ghost use Rattle.l6_prog.specs.Values.{has_values};

    ghost Value = { List Parts };

    ghost view = { λ p. p.statements.items };

    ghost invariant = { λ p.
        (is_ok (program_of p.statements.items) ≡ true)
        × (list_all has_values p.statements.items ≡ true) };
}

impl Program {
    /// The program of these statements. If they are no program, the list is dropped.
    ///
    /// # Errors
    ///
    /// The first of `Limit`, `Target` and `Shape` that applies.
    #[tactic(auto, using(crate::proofs::Targets::all_of_pieces))]
    pub fn new(statements: Vec<Statement>) -> Result<Self, ProgFault>
        ensures { result ≡ program_of statements.items }
    {
        if statements.len() > MAX_STATEMENTS || !each_fits(&statements) {
            return Err(ProgFault::Limit);
        }
        if !each_target_is_a_statement(&statements) {
            return Err(ProgFault::Target);
        }
        if !each_has_its_tests(&statements) || !ends_in_plain_done(&statements) {
            return Err(ProgFault::Shape);
        }
        Ok(Self::from_known(statements))
    }

    /// The program of these statements. The caller owes that they are one.
    pub fn from_known(statements: Vec<Statement>) -> Self
        requires { is_ok (program_of statements.items) ≡ true }
        ensures { result ≡ statements.items }
    {
        reveal_statements(&statements);
        Program { statements }
    }

    /// The statements, in order.
    pub fn statements(&self) -> &[Statement]
        ensures value { result.now ≡ self.now }
        ensures program { IsProgram self.now }
    {
        self.statements.as_slice()
    }

    /// The statement of this number, which the caller owes to be one of the program. The clauses
    /// also say what every program has: how many statements there are at most, that each target is
    /// the number of one, that after any but the plain `DONE` there is another, and that each name is
    /// below the count of names and each number below 2^36.
    pub fn statement(&self, number: u16) -> &Statement
        requires { number < length self.now }
        ensures value { result.now ≡ slice_index_or self.now number plain_done }
        ensures count { length self.now ≤ most_statements }
        ensures fits { IsTrue (fits result.now) }
        ensures targets { IsTrue (list_all (is_below (length self.now)) (targets_of result.now)) }
        ensures tests { IsTrue (has_its_tests result.now) }
        ensures last { number + 1 ≡ length self.now → result.now ≡ plain_done }
        ensures values { IsTrue (has_values result.now) }
    {
        &self.statements[usize::from(number)]
    }

    /// A copy of the program.
    ///
    /// # Errors
    ///
    /// Memory ran out.
    pub fn duplicate(&self, alloc: Global) -> Result<Self, AllocError>
        ensures { IfOk result (λ copy. copy ≡ self.now) }
    {
        let mut statements = Vec::with_capacity(alloc, self.statements.len())?;
        for statement in &self.statements {
            statements.push(statement.duplicate(alloc)?)?;
        }
        Ok(Program { statements })
    }
}

/// Does nothing. Its clause gives the prover what is true of every statement.
#[inline(always)]
fn reveal_statements(statements: &[Statement])
    ensures { list_all has_values statements.now ≡ true }
{
    for statement in statements {
        statement.values_hold();
    }
}

/// Whether no statement has more than 63 tests or 63 operations.
fn each_fits(statements: &[Statement]) -> bool
    ensures { result ≡ list_all fits statements.now }
{
    statements.iter().all(|statement| {
        statement.tests().len() <= MAX_TESTS && statement.operations().len() <= MAX_OPERATIONS
    })
}

/// Whether each target is the number of one of the statements.
fn each_target_is_a_statement(statements: &[Statement]) -> bool
    ensures { result ≡ list_all (λ s. list_all (is_below (length statements.now)) (targets_of s))
        statements.now }
{
    statements
        .iter()
        .all(|statement| statement.leads_below(statements.len()))
}

/// Whether each condition has as many tests as it needs.
fn each_has_its_tests(statements: &[Statement]) -> bool
    ensures { result ≡ list_all has_its_tests statements.now }
{
    statements.iter().all(|statement| statement.condition().may_have(statement.tests().len()))
}

/// Whether the last statement is the plain `DONE`.
fn ends_in_plain_done(statements: &[Statement]) -> bool
    ensures { result ≡ is_plain_done (slice_get statements.now (length statements.now - 1)) }
{
    match statements.last() {
        None => false,
        Some(last) => match (
            last.condition(),
            last.tests(),
            last.operations(),
            last.exit(),
        ) {
            (Cond::Always, [], [], Exit::Done) => true,
            _ => false,
        },
    }
}
