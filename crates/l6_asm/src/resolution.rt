//! From labels to the numbers of statements.

ghost use Rattle.std.specs.Prelude.{◌≡◌, ◌≤◌, length, map, IfOk};
ghost use Rattle.l6_prog.specs.declared.condition.Test.{Test as AnyTest};
ghost use Rattle.l6_card.specs.Numerals.{most_deck_statements};
ghost use Rattle.l6_card.specs.declared.cards.Placed.{Placed as AnyPlaced};
ghost use Rattle.l6_asm.specs.Resolution as spec;
ghost use Rattle.l6_asm.specs.inner.MakesOrFails.{MakesOrFails};

use crate::assembly::Labels;
use crate::fault::AsmFault;
use crate::label::number_of;
use l6_card::{DeckStatement, Parts, Placed, PlacedLabel};
use l6_group::Label;
use l6_prog::{Exit, Op, Statement, Test};
use std::alloc::{AllocError, Global};

/// The statements of the program: the deck's, and the plain `DONE`.
pub(crate) fn statements_of(
    alloc: Global,
    labels: &Labels,
    written: Vec<DeckStatement>,
) -> Result<Vec<Statement>, AsmFault>
    requires { length written.items ≤ most_deck_statements }
    ensures { let made = spec.statements_of labels.now.entries written.items in
        MakesOrFails result (λ statements. statements.items) made }
{
    let mut statements = each_statement(alloc, labels, written)?;
    statements
        .push(Statement::plain_done(alloc))
        .map_err(|_| AsmFault::NoMemory)?;
    Ok(statements)
}

/// The statements of the program for those of the deck.
fn each_statement(
    alloc: Global,
    labels: &Labels,
    written: Vec<DeckStatement>,
) -> Result<Vec<Statement>, AsmFault>
    requires { length written.items ≤ most_deck_statements }
    ensures { let made = spec.each_made (spec.statement_of labels.now.entries) written.items in
        MakesOrFails result (λ statements. statements.items) made }
{
    // Room for one more than these: the plain `DONE` follows them.
    let mut statements = Vec::with_capacity(alloc, written.len() + 1)?;
    for one in written {
        let statement = statement_of(alloc, labels, one)?;
        statements.push(statement).map_err(|_| AsmFault::NoMemory)?;
    }
    Ok(statements)
}

/// The statement of the program for one of the deck.
fn statement_of(
    alloc: Global,
    labels: &Labels,
    written: DeckStatement,
) -> Result<Statement, AsmFault>
    ensures { let made = spec.statement_of labels.now.entries written in
        MakesOrFails result (λ statement. statement) made }
{
    let Parts {
        label: _,
        condition,
        tests,
        operations,
        exit,
    } = written.into_parts();
    let operations = operations_of(alloc, labels, operations)?;
    let exit = exit_of(labels, exit)?;
    let tests = tests_of(alloc, tests)?;
    Ok(Statement::new(condition, tests, operations, exit))
}

/// The operations of groups.
fn operations_of(
    alloc: Global,
    labels: &Labels,
    groups: Vec<Placed<Op<Label>>>,
) -> Result<Vec<Op>, AsmFault>
    ensures { let made = spec.each_made (spec.operation_of labels.now.entries) groups.items in
        MakesOrFails result (λ operations. operations.items) made }
{
    let mut operations = Vec::with_capacity(alloc, groups.len())?;
    for group in groups {
        let operation = operation_of(labels, group)?;
        operations.push(operation).map_err(|_| AsmFault::NoMemory)?;
    }
    Ok(operations)
}

/// The operation of a group.
fn operation_of(labels: &Labels, group: Placed<Op<Label>>) -> Result<Op, AsmFault>
    ensures { let made = spec.operation_of labels.now.entries group in
        MakesOrFails result (λ operation. operation) made }
{
    let Placed {
        reading,
        card,
        span: _,
    } = group;
    match resolved(labels, reading) {
        None => Err(AsmFault::NoLabel(card)),
        Some(operation) => Ok(operation),
    }
}

/// The tests of groups.
fn tests_of(alloc: Global, groups: Vec<Placed<Test>>) -> Result<Vec<Test>, AllocError>
    ensures { let tests = map (λ (group : AnyPlaced AnyTest). group.reading) groups.items in
        IfOk result (λ made. made.items ≡ tests) }
{
    let mut tests = Vec::with_capacity(alloc, groups.len())?;
    for group in groups {
        let Placed {
            reading,
            card: _,
            span: _,
        } = group;
        tests.push(reading)?;
    }
    Ok(tests)
}

/// The exit, with a number in place of its label.
fn exit_of(labels: &Labels, exit: Exit<PlacedLabel>) -> Result<Exit, AsmFault>
    ensures { let made = spec.exit_of labels.now.entries exit in
        MakesOrFails result (λ exit. exit) made }
{
    match exit {
        Exit::Next => Ok(Exit::Next),
        Exit::Label(named) => match number_of(labels, &named.label) {
            None => Err(AsmFault::NoLabel(named.card)),
            Some(number) => Ok(Exit::Label(number)),
        },
        Exit::Done => Ok(Exit::Done),
        Exit::Fail => Ok(Exit::Fail),
    }
}

/// The operation with numbers in place of its labels, if each of them exists.
fn resolved(labels: &Labels, operation: Op<Label>) -> Option<Op>
    ensures { result ≡ spec.resolved labels.now.entries operation }
{
    match operation {
        Op::Get(c, v, d, label) => Some(Op::Get(c, v, d, number_if_given(labels, label)?)),
        Op::Duplicate(c, v, label) => Some(Op::Duplicate(c, v, number_if_given(labels, label)?)),
        Op::Call(called, fail) => call_of(labels, called, fail),
        Op::Input(c, v, label) => Some(Op::Input(c, v, number_if_given(labels, label)?)),
        Op::Set(c, v) => Some(Op::Set(c, v)),
        Op::Add(c, v) => Some(Op::Add(c, v)),
        Op::Subtract(c, v) => Some(Op::Subtract(c, v)),
        Op::Multiply(c, v) => Some(Op::Multiply(c, v)),
        Op::Divide(c, v) => Some(Op::Divide(c, v)),
        Op::Remainder(c, v) => Some(Op::Remainder(c, v)),
        Op::And(c, v) => Some(Op::And(c, v)),
        Op::Or(c, v) => Some(Op::Or(c, v)),
        Op::ExclusiveOr(c, v) => Some(Op::ExclusiveOr(c, v)),
        Op::Complement(c, v) => Some(Op::Complement(c, v)),
        Op::ShiftLeft(c, v) => Some(Op::ShiftLeft(c, v)),
        Op::ShiftRight(c, v) => Some(Op::ShiftRight(c, v)),
        Op::Exchange(c, d) => Some(Op::Exchange(c, d)),
        Op::Define(f, word, first, last) => Some(Op::Define(f, word, first, last)),
        Op::SaveContent(c) => Some(Op::SaveContent(c)),
        Op::RestoreContent(c) => Some(Op::RestoreContent(c)),
        Op::SaveDefinition(f) => Some(Op::SaveDefinition(f)),
        Op::RestoreDefinition(f) => Some(Op::RestoreDefinition(f)),
        Op::Free(c, v) => Some(Op::Free(c, v)),
        Op::PrintCharacters(c, v) => Some(Op::PrintCharacters(c, v)),
        Op::PrintDecimal(c) => Some(Op::PrintDecimal(c)),
        Op::PrintOctal(c) => Some(Op::PrintOctal(c)),
        Op::PrintText(text) => Some(Op::PrintText(text)),
        Op::PrintLine => Some(Op::PrintLine),
    }
}

/// The call of a label, with its fail label if one is given.
fn call_of(labels: &Labels, called: Label, fail: Option<Label>) -> Option<Op>
    ensures { result ≡ spec.call_of labels.now.entries called fail }
{
    let number = number_of(labels, &called)?;
    let other = number_if_given(labels, fail)?;
    Some(Op::Call(number, other))
}

/// The number that a label names, if a label is given.
fn number_if_given(labels: &Labels, label: Option<Label>) -> Option<Option<u16>>
    ensures { result ≡ spec.number_if_given labels.now.entries label }
{
    match label {
        None => Some(None),
        Some(label) => Some(Some(number_of(labels, &label)?)),
    }
}
