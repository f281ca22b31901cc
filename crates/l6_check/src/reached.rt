//! Which statements of a program some way leads to. A way begins at the first statement, and goes from a
//! statement to those that its exit and its operations name, and to the next one where a run may go on.
//! What tests answer is left aside, and so is whether a call returns.

ghost use Rattle.std.specs.Prelude.{◌≡◌, ◌+◌, ◌++◌, ◌<◌, ◌^◌, IfOk, OnOk};
ghost use Rattle.l6_check.specs.Ways as spec;
ghost use Rattle.l6_check.specs.inner.Marks.{is_marked};

use crate::targets::add_targets;
use l6_prog::{Cond, Exit, Program, Statement};
use std::alloc::{AllocError, Global};

/// Marks of the statements that some way leads to, by their numbers.
pub(crate) fn reached_statements(alloc: Global, program: &Program) -> Result<Vec<bool>, AllocError>
    ensures { IfOk result (λ reached. spec.AreReached program.now (is_marked reached.items)) }
{
    let statements = program.statements();
    let mut reached = vec![in alloc; false; statements.len()]?;
    // Those that a way leads to, and that perhaps were not looked at.
    let mut pending = Vec::new(alloc);
    pending.push(0)?;
    while let Some(number) = pending.pop() {
        if number < reached.len() && !reached[number] {
            reached[number] = true;
            add_ways(&mut pending, number, &statements[number])?;
        }
    }
    Ok(reached)
}

/// Adds the statements that may come right after this one, which has this number.
fn add_ways(
    pending: &mut Vec<usize>,
    number: usize,
    statement: &Statement,
) -> Result<(), AllocError>
    requires { number + 1 < 2 ^ 64 }
    ensures { let ways = spec.ways_from number statement.now in
        OnOk result (pending.new.items ≡ pending.old.items ++ ways) }
{
    add_targets(pending, statement)?;
    if may_go_on(statement.condition(), statement.exit()) {
        pending.push(number + 1)?;
    }
    Ok(())
}

/// Whether a run may go on to the next statement, with this condition and this exit.
fn may_go_on(condition: Cond, exit: Exit) -> bool
    ensures { result ≡ spec.may_go_on condition exit }
{
    match condition {
        Cond::Always => match exit {
            Exit::Next => true,
            Exit::Label(_) | Exit::Done | Exit::Fail => false,
        },
        _ => true,
    }
}
