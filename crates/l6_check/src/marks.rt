//! Marks: a place in a list for each number, true where a number was marked.

ghost use Rattle.std.specs.Prelude.{◌≡◌, ℕ, List, [], ◌∷◌, length, IfOk};
ghost use Rattle.std.specs.List.{flat_map};
ghost use Rattle.l6_check.specs.inner.Marks as spec;

use l6_prog::{Program, Statement};
use std::alloc::{AllocError, Global};

/// Marks a number, if it has a place.
pub(crate) fn mark(marks: &mut [bool], number: usize)
    ensures { marks.new ≡ spec.marked marks.old (number ∷ []) }
{
    if number < marks.len() {
        marks[number] = true;
    }
}

/// Whether a number is marked.
pub(crate) fn is_marked(marks: &[bool], number: usize) -> bool
    ensures { result ≡ spec.is_marked marks.now number }
{
    match marks.get(number) {
        None => false,
        Some(mark) => *mark,
    }
}

/// What is marked of things of a type: numbers that each of them has.
pub(crate) trait Marker<T> {
    // The numbers that are marked of one.
    ghost numbers: { T → List ℕ };

    /// Marks the numbers of one.
    fn mark_of(marks: &mut [bool], one: &T)
        ensures { marks.new ≡ spec.marked marks.old (numbers one.now) };
}

/// Marks the numbers of each of some things.
#[tactic(auto, using(crate::proofs::Marking::marks_next))]
pub(crate) fn mark_each<M: Marker<T>, T>(marks: &mut [bool], things: &[T])
    ensures { marks.new ≡ spec.marked marks.old (flat_map M.numbers things.now) }
{
    for thing in things {
        M::mark_of(marks, thing);
    }
}

/// Marks of the statements that the statements of a program have as their numbers.
pub(crate) fn statements_marked<M: Marker<Statement>>(
    alloc: Global,
    program: &Program,
) -> Result<Vec<bool>, AllocError>
    ensures { let numbers = flat_map M.numbers program.now in
        IfOk result (λ marks. spec.AreMarksBelow (length program.now) numbers marks.items) }
{
    let statements = program.statements();
    let mut marks = vec![in alloc; false; statements.len()]?;
    mark_each::<M, Statement>(&mut marks, statements);
    Ok(marks)
}
