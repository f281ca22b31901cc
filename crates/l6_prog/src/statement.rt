//! Statements.

ghost use Rattle.std.specs.Prelude.{◌≡◌, true, IfOk, IsTrue};
ghost use Rattle.std.specs.List.{list_all, flat_map};
ghost use Rattle.l6_prog.specs.Target.{targets_of, targets_of_operation, is_below};
ghost use Rattle.l6_prog.specs.Values.{is_test, is_operation, has_values};

use crate::condition::{Cond, Test};
use crate::exit::Exit;
use crate::operation::Op;
use std::alloc::{AllocError, Global};
use std::marker::Model;

/// A condition with its tests, operations, and an exit.
#[derive(Drop)]
pub struct Statement {
    condition: Cond,
    tests: Vec<Test>,
    operations: Vec<Op>,
    exit: Exit,
}

impl Model for Statement {
    ghost use Rattle.std.specs.Prelude.{◌≡◌, true};
    ghost use Rattle.std.specs.List.{list_all};
    ghost use Rattle.l6_prog.specs.Statement.{Parts};
    ghost use Rattle.l6_prog.specs.Values.{is_test, is_operation};

    ghost Value = { Parts };

    ghost view = { λ s. record {
      condition = s.condition;
      tests = s.tests.items;
      operations = s.operations.items;
      exit = s.exit;
    } };

    ghost invariant = { λ s.
        (list_all is_test s.tests.items ≡ true)
        × (list_all is_operation s.operations.items ≡ true) };
}

impl Statement {
    ghost use Rattle.l6_prog.specs.Statement.{plain_done};

    /// The statement of these parts.
    pub fn new(condition: Cond, tests: Vec<Test>, operations: Vec<Op>, exit: Exit) -> Self
        ensures { result ≡ record {
          condition = condition;
          tests = tests.items;
          operations = operations.items;
          exit = exit;
        } }
    {
        reveal_tests(&tests);
        reveal_operations(&operations);
        Statement {
            condition,
            tests,
            operations,
            exit,
        }
    }

    /// The plain `DONE`, with which every program ends: no condition, no operation, the exit DONE.
    pub fn plain_done(alloc: Global) -> Self
        ensures { result ≡ plain_done }
    {
        Statement::new(Cond::Always, Vec::new(alloc), Vec::new(alloc), Exit::Done)
    }

    /// The condition.
    pub fn condition(&self) -> Cond
        ensures { result ≡ self.now.condition }
    {
        self.condition
    }

    /// The tests of the condition, in order.
    pub fn tests(&self) -> &[Test]
        ensures { result.now ≡ self.now.tests }
    {
        self.tests.as_slice()
    }

    /// The operations, in order.
    pub fn operations(&self) -> &[Op]
        ensures { result.now ≡ self.now.operations }
    {
        self.operations.as_slice()
    }

    /// The exit.
    pub fn exit(&self) -> Exit
        ensures { result ≡ self.now.exit }
    {
        self.exit
    }

    /// Of each statement: in its tests and operations each name is below the count of names, and each
    /// number below 2^36.
    #[inline(always)]
    pub fn values_hold(&self)
        ensures { IsTrue (has_values self.now) }
    {
        // a look at a field, for which the invariant is opened
        let _ = &self.tests;
    }

    /// Whether each target of the operations and the exit is below a number.
    #[tactic(auto, using(crate::proofs::Targets::all_of_targets))]
    pub(crate) fn leads_below(&self, end: usize) -> bool
        ensures { result ≡ list_all (is_below end) (targets_of self.now) }
    {
        each_leads_below(&self.operations, end) && self.exit.leads_below(end)
    }

    /// A copy of the statement.
    ///
    /// # Errors
    ///
    /// Memory ran out.
    pub fn duplicate(&self, alloc: Global) -> Result<Self, AllocError>
        ensures { IfOk result (λ copy. copy ≡ self.now) }
    {
        let tests = self.tests.to_vec(alloc)?;
        let operations = self.operations.to_vec(alloc)?;
        Ok(Statement::new(self.condition, tests, operations, self.exit))
    }
}

/// Does nothing. Its clause gives the prover what is true of every test.
#[inline(always)]
fn reveal_tests(tests: &[Test])
    ensures { list_all is_test tests.now ≡ true }
{
    for test in tests {
        test.reveal();
    }
}

/// Does nothing. Its clause gives the prover what is true of every operation.
#[inline(always)]
fn reveal_operations(operations: &[Op])
    ensures { list_all is_operation operations.now ≡ true }
{
    for operation in operations {
        operation.reveal();
    }
}

/// Whether each target of the operations is below a number.
fn each_leads_below(operations: &[Op], end: usize) -> bool
    ensures { result ≡ list_all (λ o. list_all (is_below end) (targets_of_operation o)) operations.now }
{
    operations
        .iter()
        .all(|operation| operation.leads_below(end))
}
