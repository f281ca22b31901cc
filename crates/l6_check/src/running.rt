//! Statements that decide nothing, and those that run on into a subroutine.

ghost use Rattle.std.specs.Prelude.{◌≡◌, ◌+◌, ◌<◌, ◌^◌, [], length, option_to_list, slice_get};
ghost use Rattle.l6_check.specs.Running as spec;
ghost use Rattle.l6_check.specs.inner.Marks.{is_marked, marked};

use crate::marks::{Marker, is_marked, mark, mark_each};
use crate::ways::Ways;
use l6_prog::{Cond, Exit, Op, Statement};

/// Whether the statement of this number has a condition, and nothing that depends on it.
pub(crate) fn is_idle(statements: &[Statement], number: usize) -> bool
    ensures { result ≡ spec.idles_at statements.now number [] }
{
    match statements.get(number) {
        None => false,
        Some(statement) => {
            !is_always(statement.condition())
                && does_nothing(statement.operations(), statement.exit())
        }
    }
}

/// Whether the statement of this number always runs on into a subroutine.
pub(crate) fn runs_on(ways: Ways<'_>, number: usize) -> bool
    requires { number + 1 < 2 ^ 64 }
    ensures { result ≡ spec.runs_on_at (is_marked ways.entry.called.now) (is_marked ways.entry.left_to.now)
        ways.entry.statements.now number [] }
{
    goes_on(ways.statements, number)
        && number + 1 < ways.statements.len()
        && is_marked(ways.called, number + 1)
        && !is_marked(ways.left_to, number + 1)
}

/// Whether the next statement follows, and nothing is done before.
fn does_nothing(operations: &[Op], exit: Exit) -> bool
    ensures { result ≡ spec.does_nothing operations.now exit }
{
    operations.is_empty() && is_next(exit)
}

/// Whether after the statement of this number the next one follows, always.
fn goes_on(statements: &[Statement], number: usize) -> bool
    ensures { result ≡ spec.goes_on (slice_get statements.now number) }
{
    match statements.get(number) {
        None => false,
        Some(statement) => is_always(statement.condition()) && is_next(statement.exit()),
    }
}

/// Whether there is no condition.
fn is_always(condition: Cond) -> bool
    ensures { result ≡ spec.is_always condition }
{
    match condition {
        Cond::Always => true,
        _ => false,
    }
}

/// Whether there is no exit.
fn is_next(exit: Exit) -> bool
    ensures { result ≡ spec.is_next exit }
{
    match exit {
        Exit::Next => true,
        Exit::Label(_) | Exit::Done | Exit::Fail => false,
    }
}

/// The statements that are called.
pub(crate) struct Calls;

impl Marker<Op> for Calls {
    ghost numbers = { spec.calls_of_operation };

    fn mark_of(marks: &mut [bool], operation: &Op) {
        match operation {
            Op::Call(called, _) => mark(marks, usize::from(*called)),
            _ => {}
        }
    }
}

impl Marker<Statement> for Calls {
    ghost numbers = { spec.calls_of };

    fn mark_of(marks: &mut [bool], statement: &Statement) {
        mark_each::<Calls, Op>(marks, statement.operations());
    }
}

/// The statements to which some statement goes otherwise, by an exit or for a failure.
pub(crate) struct Exits;

impl Marker<Op> for Exits {
    ghost numbers = { spec.labels_of_operation };

    fn mark_of(marks: &mut [bool], operation: &Op) {
        match operation {
            Op::Call(_, label)
            | Op::Get(_, _, _, label)
            | Op::Duplicate(_, _, label)
            | Op::Input(_, _, label) => mark_if_given(marks, *label),
            _ => {}
        }
    }
}

impl Marker<Statement> for Exits {
    ghost numbers = { spec.exits_of };

    #[tactic(auto, using(crate::proofs::Marking::marked_append))]
    fn mark_of(marks: &mut [bool], statement: &Statement) {
        mark_each::<Exits, Op>(marks, statement.operations());
        if let Exit::Label(number) = statement.exit() {
            mark(marks, usize::from(number));
        }
    }
}

/// Marks a statement, if there is one.
fn mark_if_given(marks: &mut [bool], number: Option<u16>)
    ensures { marks.new ≡ marked marks.old (option_to_list number) }
{
    if let Some(number) = number {
        mark(marks, usize::from(number));
    }
}
