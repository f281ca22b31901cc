//! The commands that lead a new session to where one is, as lines.

ghost use Rattle.std.specs.Prelude.{◌≡◌, ◌++◌, [], ◌∷◌, drop, map, IfOk, OnOk};
ghost use Rattle.std.specs.List.{flat_map};
ghost use Rattle.l6_marks.specs.Cards as cards;
ghost use Rattle.l6_session.specs.Names as places;
ghost use Rattle.l6_session.specs.Saved as spec;

use crate::command::{Command, Move, Setting};
use crate::names::Names;
use crate::session::{Session, copy_of};
use crate::text::{push_chain, push_counted, push_label, push_test, push_watched_name};
use l6_history::Watched;
use l6_prog::{Chain, Test};
use l6_store::Places;
use std::alloc::{AllocError, Global};

/// The commands that lead a new session to this one.
///
/// # Errors
///
/// Memory ran out.
pub(crate) fn saved_commands<S: Places>(
    alloc: Global,
    session: &Session<S>,
) -> Result<Vec<Command>, AllocError>
    ensures { IfOk result (λ commands. commands.items ≡ spec.saved_commands session.now.state) }
{
    let stop = session.stop();
    let mut commands = Vec::new(alloc);
    push_lasting(&mut commands, stop.breakpoints(), session.temporary())?;
    push_watched(&mut commands, stop.watched())?;
    push_displayed(&mut commands, session.displayed())?;
    commands.push(Command::Move(Move::Goto(session.history().number())))?;
    push_temporary(&mut commands, session.temporary())?;
    push_tests(&mut commands, stop.tests())?;
    Ok(commands)
}

/// Adds the breakpoints that are not temporary.
fn push_lasting(
    commands: &mut Vec<Command>,
    breakpoints: &[bool],
    temporary: &[bool],
) -> Result<(), AllocError>
    ensures { OnOk result (commands.new.items
        ≡ commands.old.items ++ spec.lasting_breaks 0 breakpoints.now temporary.now) }
{
    let mut statement: u64 = 0;
    let mut breakpoints = breakpoints;
    let mut temporary = temporary;
    while let (Some((is_set, others)), Some((is_temporary, further))) = (
        breakpoints.split_first(),
        temporary.split_first(),
    ) {
        if *is_set && !*is_temporary {
            commands.push(Command::Setting(Setting::Break(statement)))?;
        }
        statement += 1;
        breakpoints = others;
        temporary = further;
    }
    Ok(())
}

/// Adds the breakpoints that are temporary.
fn push_temporary(commands: &mut Vec<Command>, temporary: &[bool]) -> Result<(), AllocError>
    ensures { OnOk result (commands.new.items
        ≡ commands.old.items ++ spec.temporary_breaks 0 temporary.now) }
{
    let mut statement: u64 = 0;
    let mut rest = temporary;
    while let Some((is_temporary, others)) = rest.split_first() {
        if *is_temporary {
            commands.push(Command::Setting(Setting::TemporaryBreak(statement)))?;
        }
        statement += 1;
        rest = others;
    }
    Ok(())
}

/// Adds the tests of breakpoints.
fn push_tests(commands: &mut Vec<Command>, tests: &[Option<Test>]) -> Result<(), AllocError>
    ensures { OnOk result (commands.new.items
        ≡ commands.old.items ++ spec.given_tests 0 tests.now) }
{
    let mut statement: u64 = 0;
    let mut rest = tests;
    while let Some((test, others)) = rest.split_first() {
        if let Some(test) = test {
            commands.push(Command::Setting(Setting::Condition(statement, copy_of(test))))?;
        }
        statement += 1;
        rest = others;
    }
    Ok(())
}

/// Adds what is watched.
fn push_watched(commands: &mut Vec<Command>, watched: &[Watched]) -> Result<(), AllocError>
    ensures { OnOk result (commands.new.items ≡ commands.old.items ++ map spec.watched watched.now) }
{
    let mut rest = watched;
    while let Some((one, others)) = rest.split_first() {
        commands.push(Command::Setting(Setting::Watch(one.clone()?)))?;
        rest = others;
    }
    Ok(())
}

/// Adds that chains are displayed.
fn push_displayed(commands: &mut Vec<Command>, chains: &[Chain]) -> Result<(), AllocError>
    ensures { OnOk result (commands.new.items
        ≡ commands.old.items ++ map spec.displayed chains.now) }
{
    let mut rest = chains;
    while let Some((chain, others)) = rest.split_first() {
        commands.push(Command::Setting(Setting::Display(chain.clone()?)))?;
        rest = others;
    }
    Ok(())
}

/// Adds the lines of the commands that lead a new session to this one.
pub(crate) fn push_commands<S: Places>(
    alloc: Global,
    text: &mut Vec<u8>,
    session: &Session<S>,
    names: &Names,
) -> Result<(), AllocError>
    ensures { OnOk result (text.new.items
        ≡ text.old.items ++ spec.saved_lines names.now session.now.state) }
{
    let commands = saved_commands(alloc, session)?;
    push_lines(text, names, commands.as_slice())
}

/// Adds the lines of commands that are saved.
fn push_lines(text: &mut Vec<u8>, names: &Names, commands: &[Command]) -> Result<(), AllocError>
    ensures { OnOk result (text.new.items
        ≡ text.old.items ++ flat_map (spec.saved_line names.now) commands.now) }
{
    let mut rest = commands;
    while let Some((command, others)) = rest.split_first() {
        push_line(text, names, command)?;
        rest = others;
    }
    Ok(())
}

/// Adds the line of a command that is saved.
fn push_line(text: &mut Vec<u8>, names: &Names, command: &Command) -> Result<(), AllocError>
    ensures { OnOk result (text.new.items ≡ text.old.items ++ spec.saved_line names.now command.now) }
{
    match command {
        Command::Setting(Setting::Break(s)) => push_break(text, b"break", names, *s),
        Command::Setting(Setting::TemporaryBreak(s)) => push_break(text, b"tbreak", names, *s),
        Command::Setting(Setting::Condition(s, Some(test))) => push_tested(text, names, *s, test),
        Command::Setting(Setting::Watch(one)) => push_watch(text, one),
        Command::Setting(Setting::Display(chain)) => push_named(text, b"display ", chain),
        Command::Move(Move::Goto(number)) => push_numbered(text, b"goto ", *number),
        _ => Ok(()),
    }
}

/// Adds a line of a word and a number.
fn push_numbered(text: &mut Vec<u8>, word: &[u8], number: u64) -> Result<(), AllocError>
    ensures { OnOk result (text.new.items ≡ text.old.items ++ spec.numbered_line word.now number) }
{
    push_counted(text, word, number)?;
    text.extend_from_slice(b"\n")
}

/// Adds a line of a word and a chain.
fn push_named(text: &mut Vec<u8>, word: &[u8], chain: &Chain) -> Result<(), AllocError>
    ensures { OnOk result (text.new.items ≡ text.old.items ++ spec.named_line word.now chain.now) }
{
    text.extend_from_slice(word)?;
    push_chain(text, chain)?;
    text.extend_from_slice(b"\n")
}

/// Adds the line of what is watched.
fn push_watch(text: &mut Vec<u8>, watched: &Watched) -> Result<(), AllocError>
    ensures { OnOk result (text.new.items ≡ text.old.items ++ spec.watched_saved watched.now) }
{
    text.extend_from_slice(b"watch ")?;
    push_watched_name(text, watched)?;
    text.extend_from_slice(b"\n")
}

/// Adds the line of the test of a breakpoint.
fn push_tested(
    text: &mut Vec<u8>,
    names: &Names,
    statement: u64,
    test: &Test,
) -> Result<(), AllocError>
    ensures { OnOk result (text.new.items
        ≡ text.old.items ++ spec.tested_line names.now statement test.now) }
{
    text.extend_from_slice(b"condition")?;
    push_place(text, names, statement)?;
    text.extend_from_slice(b" ")?;
    push_test(text, test)?;
    text.extend_from_slice(b"\n")
}

/// Adds a line of a word and a statement.
fn push_break(
    text: &mut Vec<u8>,
    word: &[u8],
    names: &Names,
    statement: u64,
) -> Result<(), AllocError>
    ensures { OnOk result (text.new.items
        ≡ text.old.items ++ spec.placed_line word.now names.now statement) }
{
    text.extend_from_slice(word)?;
    push_place(text, names, statement)?;
    text.extend_from_slice(b"\n")
}

/// Adds a blank and a statement: by the label before it, if that names it, or by its number.
fn push_place(text: &mut Vec<u8>, names: &Names, statement: u64) -> Result<(), AllocError>
    ensures { OnOk result (text.new.items ≡ text.old.items ++ spec.placed names.now statement) }
{
    let begin = text.len();
    push_label(text, statement, names.labels())?;
    if is_named(names, &text.as_slice()[begin..], statement) {
        return Ok(());
    }
    text.truncate(begin);
    push_counted(text, b" ", statement)
}

/// Whether the word after a blank names a statement.
fn is_named(names: &Names, placed: &[u8], statement: u64) -> bool
    ensures { result ≡ cards.is_statement statement
        (places.statement_of names.now (drop 1 placed.now)) }
{
    let word = placed.get(1..).unwrap_or(&[]);
    match names.statement_of(word) {
        Some(number) => number == statement,
        None => false,
    }
}
