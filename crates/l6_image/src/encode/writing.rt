//! From programs to words.

ghost use Rattle.std.specs.Prelude.{◌≡◌, ◌<◌, ◌≤◌, ◌++◌, length, true, IfOk, OnOk, IsTrue};
ghost use Rattle.std.specs.List.{flat_map, list_all};
ghost use Rattle.l6_prog.specs.Numerals.{most_statements};
ghost use Rattle.l6_prog.specs.Program.{fits};
ghost use Rattle.l6_prog.specs.Target.{is_below, targets_of};
ghost use Rattle.l6_prog.specs.Values.{has_values};
ghost use Rattle.l6_word.specs.Word.{is_word};
ghost use Rattle.l6_image.specs.Image as spec;
ghost use Rattle.l6_image.specs.Version.{most_in};
ghost use Rattle.l6_image.specs.declared.version.Version.TheVariants.{Two};

use crate::encode::table::{push_operation, push_test};
use crate::version::{Version, target_bits};
use l6_prog::{Cond, Exit, Op, Program, Statement, Test};
use std::alloc::{AllocError, Global};

/// The words of a program's image: the magic word, how many statements there are, how many words
/// follow, and the words of the statements, in order.
///
/// # Errors
///
/// Memory ran out.
#[tactic(auto, unfolding(crate::specs::Image::words_in))]
pub fn words_of(alloc: Global, program: &Program) -> Result<Vec<u64>, AllocError>
    ensures words { IfOk result (λ words. words.items ≡ spec.words_of program.now) }
    // Each is below 2^36.
    ensures fit { IfOk result (λ words. list_all is_word words.items ≡ true) }
    // Every program has an image.
    ensures known { spec.HasImage Two program.now }
{
    let statements = program.statements();
    let mut words = Vec::new(alloc);
    words.push(Version::Two.magic())?;
    words.push(statements.len() as u64)?;
    words.push(0)?;
    push_statements(Version::Two, &mut words, statements)?;
    words[2] = (words.len() - 3) as u64;
    Ok(words)
}

/// The words of a statement: the first word, those of its tests and those of its operations. The
/// caller owes that there are no more of these than a statement of a program may have.
///
/// # Errors
///
/// Memory ran out.
pub fn statement_words(alloc: Global, statement: &Statement) -> Result<Vec<u64>, AllocError>
    requires { IsTrue (fits statement.now) }
    ensures words { IfOk result (λ words. words.items ≡ spec.statement_words statement.now) }
    ensures known { IsTrue (has_values statement.now) }
    // If each target is one that a program may have, each word is below 2^36.
    ensures fit { IfOk result (λ words.
        list_all (is_below most_statements) (targets_of statement.now) ≡ true
        → list_all is_word words.items ≡ true) }
{
    statement.values_hold();
    // each test and each operation has one word at least
    let mut words = Vec::with_capacity(
        alloc,
        1 + statement.tests().len() + statement.operations().len(),
    )?;
    push_statement(Version::Two, &mut words, statement)?;
    Ok(words)
}

/// Writes the words of statements.
fn push_statements(
    version: Version,
    words: &mut Vec<u64>,
    statements: &[Statement],
) -> Result<(), AllocError>
    requires { list_all fits statements.now ≡ true }
    ensures { OnOk result (words.new.items ≡ words.old.items ++ spec.body version statements.now) }
{
    for statement in statements {
        push_statement(version, words, statement)?;
    }
    Ok(())
}

/// Writes the words of a statement.
pub(crate) fn push_statement(
    version: Version,
    words: &mut Vec<u64>,
    statement: &Statement,
) -> Result<(), AllocError>
    requires { IsTrue (fits statement.now) }
    ensures { OnOk result
        (words.new.items ≡ words.old.items ++ spec.words_in_statement version statement.now) }
{
    words.push(header(statement))?;
    push_tests(version, words, statement.tests())?;
    push_operations(version, words, statement.operations())
}

/// Writes the words of tests.
fn push_tests(version: Version, words: &mut Vec<u64>, tests: &[Test]) -> Result<(), AllocError>
    ensures { OnOk result
        (words.new.items ≡ words.old.items ++ flat_map (spec.test_words version) tests.now) }
{
    for test in tests {
        push_test(version, words, test)?;
    }
    Ok(())
}

/// Writes the words of operations.
fn push_operations(
    version: Version,
    words: &mut Vec<u64>,
    operations: &[Op],
) -> Result<(), AllocError>
    ensures { OnOk result
        (words.new.items ≡ words.old.items ++ flat_map (spec.operation_words version) operations.now) }
{
    for operation in operations {
        push_operation(version, words, operation)?;
    }
    Ok(())
}

/// The first word of a statement.
fn header(statement: &Statement) -> u64
    requires { IsTrue (fits statement.now) }
    ensures { result ≡ spec.header statement.now }
{
    u64::from(condition_code(statement.condition())) * (1 << 33)
        + statement.tests().len() as u64 * (1 << 27)
        + statement.operations().len() as u64 * (1 << 21)
        + u64::from(exit_code(statement.exit())) * (1 << 18)
        + target_bits(exit_target(statement.exit()))
}

/// The code of a condition.
fn condition_code(condition: Cond) -> u8
    ensures value { result ≡ spec.condition_code condition }
    ensures range { result < 8 }
{
    match condition {
        Cond::Always => 0,
        Cond::If => 1,
        Cond::Not => 2,
        Cond::IfAll => 3,
        Cond::IfAny => 4,
        Cond::IfNone => 5,
        Cond::IfNotAll => 6,
    }
}

/// The code of an exit.
fn exit_code(exit: Exit) -> u8
    ensures value { result ≡ spec.exit_code exit }
    ensures range { result < 4 }
{
    match exit {
        Exit::Next => 0,
        Exit::Label(_) => 1,
        Exit::Done => 2,
        Exit::Fail => 3,
    }
}

/// The target of an exit, if it has one.
fn exit_target(exit: Exit) -> Option<u16>
    ensures { result ≡ spec.exit_target exit }
{
    match exit {
        Exit::Label(target) => Some(target),
        _ => None,
    }
}
