//! Which statements of a program are named by its exits and operations.

ghost use Rattle.std.specs.Prelude.{◌≡◌, ◌++◌, IfOk, OnOk, option_to_list};
ghost use Rattle.std.specs.List.{flat_map};
ghost use Rattle.l6_prog.specs.Target.{targets_of, targets_of_operation};
ghost use Rattle.l6_check.specs.inner.Marks.{AreMarks, marked};

use crate::marks::mark;
use l6_prog::{Exit, Op, Program, Statement};
use std::alloc::{AllocError, Global};

/// Marks of the statements that are named, by their numbers.
pub(crate) fn named_statements(alloc: Global, program: &Program) -> Result<Vec<bool>, AllocError>
    ensures { IfOk result (λ named. AreMarks (flat_map targets_of program.now) named.items) }
{
    let statements = program.statements();
    let mut targets = Vec::new(alloc);
    for statement in statements {
        add_targets(&mut targets, statement)?;
    }
    let mut named = vec![in alloc; false; statements.len()]?;
    mark_all(&mut named, &targets);
    Ok(named)
}

/// Marks numbers.
fn mark_all(marks: &mut [bool], numbers: &[usize])
    ensures { marks.new ≡ marked marks.old numbers.now }
{
    for number in numbers {
        mark(marks, *number);
    }
}

/// Adds the targets of a statement.
#[tactic(auto, using(crate::proofs::TargetSteps::targets_next))]
pub(crate) fn add_targets(targets: &mut Vec<usize>, statement: &Statement) -> Result<(), AllocError>
    ensures { OnOk result (targets.new.items ≡ targets.old.items ++ targets_of statement.now) }
{
    for operation in statement.operations() {
        add_of_operation(targets, operation)?;
    }
    if let Exit::Label(number) = statement.exit() {
        targets.push(usize::from(number))?;
    }
    Ok(())
}

/// Adds the targets of an operation.
fn add_of_operation(targets: &mut Vec<usize>, operation: &Op) -> Result<(), AllocError>
    ensures { OnOk result (targets.new.items ≡ targets.old.items ++ targets_of_operation operation.now) }
{
    match operation {
        Op::Call(called, fail) => {
            targets.push(usize::from(*called))?;
            add_if_given(targets, *fail)
        }
        Op::Get(_, _, _, label) | Op::Duplicate(_, _, label) | Op::Input(_, _, label) => {
            add_if_given(targets, *label)
        }
        _ => Ok(()),
    }
}

/// Adds a target, if there is one.
fn add_if_given(targets: &mut Vec<usize>, target: Option<u16>) -> Result<(), AllocError>
    ensures { OnOk result (targets.new.items ≡ targets.old.items ++ option_to_list target) }
{
    if let Some(number) = target {
        targets.push(usize::from(number))?;
    }
    Ok(())
}
