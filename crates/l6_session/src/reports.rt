//! What a session says of itself: where one stops, what is kept, how far the run has come. The last two are
//! tested, and not proved.

ghost use Rattle.std.specs.Prelude.{◌≡◌, ◌++◌, slice_index_or, None, OnOk};
ghost use Rattle.std.specs.List.{enumerate_from, flat_map};
ghost use Rattle.std.specs.Option.{option_map};
ghost use Rattle.l6_steps.specs.Configuration.{state_at};
ghost use Rattle.l6_session.specs.Reports as reports;
ghost use Rattle.l6_session.specs.Texts as spec;

use crate::names::Names;
use crate::session::Session;
use crate::text::{push_counted, push_if, push_label};
use crate::values::{push_chain_value, push_watched_value};
use l6_history::{History, MAX_KEPT, Stop, Watched};
use l6_machine::{Machine, push_decimal};
use l6_prog::{Chain, Test};
use l6_store::Places;
use l6_word::{UNIT_SIZE, Word};
use std::alloc::AllocError;

/// What is said where one stops nowhere and nothing is displayed.
const NOTHING: &[u8] = b"No breakpoint is set, and nothing is watched or displayed\n";

/// Adds where one stops, and what is displayed.
pub(crate) fn push_info<S: Places>(
    text: &mut Vec<u8>,
    session: &Session<S>,
    names: &Names,
) -> Result<(), AllocError>
    ensures { OnOk result (text.new.items ≡ text.old.items ++ reports.info_text names.now.labels
        (state_at S.rule session.now.context session.now.state.number).memory session.now.state) }
{
    let begin = text.len();
    push_stops(text, session, names)?;
    if text.len() == begin {
        return text.extend_from_slice(NOTHING);
    }
    Ok(())
}

/// Adds the lines of where one stops, and of what is displayed.
fn push_stops<S: Places>(
    text: &mut Vec<u8>,
    session: &Session<S>,
    names: &Names,
) -> Result<(), AllocError>
    ensures { OnOk result (text.new.items ≡ text.old.items ++ reports.stops_lines names.now.labels
        (state_at S.rule session.now.context session.now.state.number).memory session.now.state) }
{
    let machine = session.machine();
    let stop = session.stop();
    push_breakpoints(text, names, session.temporary(), stop)?;
    push_all_watched(text, machine, stop.watched())?;
    push_chains(text, b"display ", machine, session.displayed())
}

/// Adds the lines of the statements that have a breakpoint.
fn push_breakpoints(
    text: &mut Vec<u8>,
    names: &Names,
    temporary: &[bool],
    stop: &Stop,
) -> Result<(), AllocError>
    ensures { OnOk result (text.new.items ≡ text.old.items
        ++ reports.break_lines names.now.labels temporary.now stop.now.tests stop.now.breakpoints) }
{
    let mut statement: u64 = 0;
    let mut rest = stop.breakpoints();
    while let Some((is_set, following)) = rest.split_first() {
        push_breakpoint(text, names, temporary, stop.tests(), statement, *is_set)?;
        statement += 1;
        rest = following;
    }
    Ok(())
}

/// Adds the line of a statement, if it has a breakpoint.
fn push_breakpoint(
    text: &mut Vec<u8>,
    names: &Names,
    temporary: &[bool],
    tests: &[Option<Test>],
    statement: u64,
    is_set: bool,
) -> Result<(), AllocError>
    ensures { OnOk result (text.new.items ≡ text.old.items
        ++ reports.break_line names.now.labels temporary.now tests.now (statement, is_set)) }
{
    if !is_set {
        return Ok(());
    }
    let is_temporary = temporary.get(statement as usize).copied().unwrap_or(false);
    push_break(
        text,
        said_of(is_temporary),
        names,
        statement,
        test_at(tests, statement),
    )
}

/// The test of a statement's breakpoint, if it has one.
pub(crate) fn test_at(tests: &[Option<Test>], statement: u64) -> Option<&Test>
    ensures { option_map (λ test. test.now) result ≡ slice_index_or tests.now statement None }
{
    match tests.get(statement as usize) {
        Some(Some(test)) => Some(test),
        _ => None,
    }
}

/// Adds what is said of a statement's breakpoint.
pub(crate) fn push_break(
    text: &mut Vec<u8>,
    said: &[u8],
    names: &Names,
    statement: u64,
    test: Option<&Test>,
) -> Result<(), AllocError>
    ensures { OnOk result (text.new.items ≡ text.old.items
        ++ spec.breakpoint_line said.now names.now.labels statement
        (option_map (λ test. test.now) test.entry)) }
{
    push_counted(text, said, statement)?;
    push_label(text, statement, names.labels())?;
    push_if(text, test)?;
    text.extend_from_slice(b"\n")
}

/// What is said of a breakpoint, which may be a temporary one.
fn said_of(is_temporary: bool) -> &'static [u8]
    ensures { result.now ≡ reports.said_of is_temporary }
{
    match is_temporary {
        true => b"tbreak ",
        false => b"break ",
    }
}

/// Adds what is said of a statement.
pub(crate) fn push_statement(
    text: &mut Vec<u8>,
    said: &[u8],
    names: &Names,
    statement: u64,
) -> Result<(), AllocError>
    ensures { OnOk result (text.new.items ≡ text.old.items
        ++ spec.statement_line said.now names.now.labels statement) }
{
    push_counted(text, said, statement)?;
    push_label(text, statement, names.labels())?;
    text.extend_from_slice(b"\n")
}

/// Adds the lines of chains, each with its number, and what it reads as.
fn push_chains<S: Places>(
    text: &mut Vec<u8>,
    verb: &[u8],
    machine: &Machine<S>,
    chains: &[Chain],
) -> Result<(), AllocError>
    ensures { OnOk result (text.new.items ≡ text.old.items
        ++ reports.chain_lines machine.now.configuration.state.memory verb.now chains.now) }
{
    let mut number: usize = 1;
    let mut rest = chains;
    while let Some((chain, following)) = rest.split_first() {
        push_numbered(text, verb, number, machine, chain)?;
        number += 1;
        rest = following;
    }
    Ok(())
}

/// Adds the lines of what is watched, each with its number, and what it reads as.
fn push_all_watched<S: Places>(
    text: &mut Vec<u8>,
    machine: &Machine<S>,
    watched: &[Watched],
) -> Result<(), AllocError>
    ensures { OnOk result (text.new.items ≡ text.old.items
        ++ reports.watched_lines machine.now.configuration.state.memory watched.now) }
{
    let mut number: usize = 1;
    let mut rest = watched;
    while let Some((one, following)) = rest.split_first() {
        push_numbered_watch(text, number, machine, one)?;
        number += 1;
        rest = following;
    }
    Ok(())
}

/// Adds the line of what is watched under this number, and what it reads as.
pub(crate) fn push_numbered_watch<S: Places>(
    text: &mut Vec<u8>,
    number: usize,
    machine: &Machine<S>,
    watched: &Watched,
) -> Result<(), AllocError>
    ensures { OnOk result (text.new.items ≡ text.old.items
        ++ spec.numbered_watch machine.now.configuration.state.memory number watched.now) }
{
    push_counted(text, b"watch ", number)?;
    text.extend_from_slice(b": ")?;
    push_watched_value(text, machine, watched)
}

/// Adds the line of a chain of this number, and what it reads as.
pub(crate) fn push_numbered<S: Places>(
    text: &mut Vec<u8>,
    verb: &[u8],
    number: usize,
    machine: &Machine<S>,
    chain: &Chain,
) -> Result<(), AllocError>
    ensures { OnOk result (text.new.items ≡ text.old.items
        ++ spec.numbered_line machine.now.configuration.state.memory verb.now number chain.now) }
{
    push_counted(text, verb, number)?;
    text.extend_from_slice(b": ")?;
    push_chain_value(text, machine, chain)
}

/// Adds what is displayed.
pub(crate) fn push_displayed<S: Places>(
    text: &mut Vec<u8>,
    machine: &Machine<S>,
    chains: &[Chain],
) -> Result<(), AllocError>
    ensures { OnOk result (text.new.items ≡ text.old.items
        ++ reports.displayed_text machine.now.configuration.state.memory chains.now) }
{
    let mut rest = chains;
    while let Some((chain, following)) = rest.split_first() {
        text.extend_from_slice(b"      ")?;
        push_chain_value(text, machine, chain)?;
        rest = following;
    }
    Ok(())
}

/// Adds at which states copies of the machine are kept.
pub(crate) fn push_checkpoints<S: Places>(
    text: &mut Vec<u8>,
    history: &History<S>,
) -> Result<(), AllocError> {
    let mut count: usize = 0;
    for index in 0..MAX_KEPT {
        if let Some(number) = history.checkpoint(index) {
            push_decimal(text, number)?;
            text.extend_from_slice(b"\n")?;
            count = count.saturating_add(1);
        }
    }
    push_decimal(text, count)?;
    text.extend_from_slice(b" CHECKPOINTS\n")
}

/// Adds how far the run has come, and how much of the store is used.
pub(crate) fn push_stats<S: Places>(
    text: &mut Vec<u8>,
    session: &Session<S>,
) -> Result<(), AllocError> {
    let machine = session.machine();
    push_counted(text, b"STATE ", session.history().number())?;
    push_counted(text, b" STEPS ", machine.count())?;
    push_counted(text, b" OF ", machine.limits().steps)?;
    push_use(text, machine)?;
    push_counted(text, b"\nINPUT ", machine.taken())?;
    push_counted(text, b" OUTPUT ", machine.output().len())?;
    push_counted(text, b" OF ", machine.limits().output)?;
    text.extend_from_slice(b"\n")
}

/// Adds a line of how many blocks there are, and how many words of the store they have.
fn push_use<S: Places>(text: &mut Vec<u8>, machine: &Machine<S>) -> Result<(), AllocError> {
    let store = machine.store();
    let words = u64::from(store.units()) * u64::from(UNIT_SIZE);
    let mut blocks: u64 = 0;
    let mut used: u64 = 0;
    for place in 0..words {
        let at = Word::wrapping(place + u64::from(UNIT_SIZE));
        if let Some(level) = store.live(at) {
            blocks = blocks.saturating_add(1);
            used = used.saturating_add(1u64.wrapping_shl(u32::from(level)));
        }
    }
    push_counted(text, b"\nBLOCKS ", blocks)?;
    push_counted(text, b" WORDS ", used)?;
    push_counted(text, b" OF ", words)
}
