//! What is answered to a command that the session has obeyed.

ghost use Rattle.std.specs.Prelude.{◌≡◌, ◌++◌, IfOk, OnOk};
ghost use Rattle.std.specs.Option.{option_map};
ghost use Rattle.l6_steps.specs.Configuration.{state_at};
ghost use Rattle.l6_session.specs.Answers as spec;
ghost use Rattle.l6_session.specs.Listing as listing;
ghost use Rattle.l6_session.specs.Listing.{here_text, listed_text};
ghost use Rattle.l6_session.specs.Stops.{stop_text};

use crate::before::Before;
use crate::blocks::{push_block, push_drawing};
use crate::calls::{push_few, push_saved, push_waiting};
use crate::cards::push_near;
use crate::command::{Cards, Command, Move, Setting, View};
use crate::drawn::push_some_drawn;
use crate::free_lists::{FreeLists, push_lists};
use crate::help::push_help;
use crate::listing::{cards_back, cards_here, push_listed, push_own};
use crate::names::Names;
use crate::reports::{
    push_break, push_checkpoints, push_info, push_numbered, push_numbered_watch, push_statement,
    push_stats,
};
use crate::saved::push_commands;
use crate::seen::Seen;
use crate::session::Session;
use crate::stops::{push_stop, value_of};
use crate::values::push_value;
use crate::who::who_answer;
use l6_debug::{Command as Batch, push_answer};
use l6_history::{BlockWord, Watched};
use l6_machine::Machine;
use l6_prog::{Operand, Test};
use l6_store::Places;
use std::alloc::{AllocError, Global};

/// What is said of a statement whose breakpoint is set.
const BREAK: &[u8] = b"Breakpoint at ";

/// What is said of one at which one stops once.
const ONCE: &[u8] = b"Temporary breakpoint at ";

/// What is said of one at which one stops no longer.
const DELETED: &[u8] = b"No breakpoint is left at ";

/// What is answered where no call could return.
const NO_CALL: &[u8] = b"No call waits: there is nothing to finish\n";

/// What is answered where all breakpoints are removed.
const NONE_LEFT: &[u8] = b"No breakpoint is set, and nothing is watched\n";

/// What is answered where nothing further can be watched.
const MANY_WATCHED: &[u8] = b"Eight are watched already: unwatch one of them\n";

/// What is answered where no further chain can be displayed.
const MANY_DISPLAYED: &[u8] = b"Eight chains are displayed already: undisplay one of them\n";

/// What is answered where nothing that is watched has the number.
const NOT_WATCHED: &[u8] = b"Nothing that is watched has this number: see info\n";

/// What is answered where no chain that is displayed has the number.
const NOT_DISPLAYED: &[u8] = b"No chain that is displayed has this number: see info\n";

/// What is answered where a chain or a word is not watched.
const NO_WATCH: &[u8] = b"This is not watched: see info\n";

/// What is answered where a chain is not displayed.
const NO_DISPLAY: &[u8] = b"This chain is not displayed: see info\n";

/// What is said of the statement of a label.
const LABEL: &[u8] = b"A label, of statement ";

/// What is answered where a chain is watched or displayed no longer.
const TAKEN_OFF: &[u8] = b"It is taken off the list: see info\n";

/// What is answered to words of gdb that would change a run.
const UNCHANGED: &[u8] = b"A run is never changed: change the deck, and debug that one\n";

/// What is answered to the word by which gdb passes over stops.
const IGNORE: &[u8] = b"continue N goes on to the Nth stop, and passes over those before\n";

/// What is answered to the word by which gdb gives a breakpoint commands.
const COMMANDS: &[u8] =
    b"A breakpoint has no commands: display CHAIN prints a chain at each stop\n";

/// What is answered where a statement without a breakpoint is to have a test.
const NOT_THERE: &[u8] = b"No breakpoint is there: break PLACE if TEST sets one\n";

/// What is answered to a command that the session has obeyed. The session stays as it is.
///
/// # Errors
///
/// Memory ran out.
pub(crate) fn answer_of<S: FreeLists>(
    alloc: Global,
    session: &mut Session<S>,
    names: &Names,
    seen: &Seen,
    listed: Option<Cards>,
    before: Before,
    command: &Command,
) -> Result<Vec<u8>, AllocError>
where
    S: Drop,
    ensures same { session.new ≡ session.old }
    ensures text { IfOk result (λ text. spec.AnswersObeyed S.rule names.now listed
        session.old.context before seen.now session.old.state command.now text.items) }
{
    match command {
        Command::Move(to) => move_answer(alloc, session, names, seen, before, *to),
        Command::Setting(setting) => setting_answer(alloc, session, names, before, setting),
        Command::View(view) => view_answer(alloc, session, names, listed, view),
        Command::WatchWord(operand, word) => { word_answer(alloc, session, before, operand, *word) }
        Command::Who(operand) => who_answer(alloc, session, names, operand),
    }
}

/// What is answered where one went to another state.
fn move_answer<S: Places>(
    alloc: Global,
    session: &Session<S>,
    names: &Names,
    seen: &Seen,
    before: Before,
    to: Move,
) -> Result<Vec<u8>, AllocError>
    ensures { IfOk result (λ text. text.items ≡ spec.move_text S.rule names.now session.now.context
        before seen.now session.now.state to) }
{
    if before.depth == 0 && to.is_finish() {
        let mut text = Vec::new(alloc);
        text.extend_from_slice(NO_CALL)?;
        return Ok(text);
    }
    stop_answer(alloc, session, names, seen, before)
}

/// What is answered where one has stopped.
fn stop_answer<S: Places>(
    alloc: Global,
    session: &Session<S>,
    names: &Names,
    seen: &Seen,
    before: Before,
) -> Result<Vec<u8>, AllocError>
    ensures { IfOk result (λ text. text.items ≡ stop_text names.now session.now.context
        (state_at S.rule session.now.context session.now.state.number) session.now.state
        before.number seen.now) }
{
    let mut text = Vec::new(alloc);
    push_stop(alloc, &mut text, session, names, seen, before)?;
    Ok(text)
}

/// What is answered where it was changed where one stops, or what is displayed.
fn setting_answer<S: Places>(
    alloc: Global,
    session: &Session<S>,
    names: &Names,
    before: Before,
    setting: &Setting,
) -> Result<Vec<u8>, AllocError>
    ensures { IfOk result (λ text. text.items ≡ spec.setting_text S.rule names.now
        session.now.context before session.now.state setting.now) }
{
    let mut text = Vec::new(alloc);
    push_setting(&mut text, session, names, before, setting)?;
    Ok(text)
}

/// Adds what is answered where it was changed where one stops, or what is displayed.
fn push_setting<S: Places>(
    text: &mut Vec<u8>,
    session: &Session<S>,
    names: &Names,
    before: Before,
    setting: &Setting,
) -> Result<(), AllocError>
    ensures { OnOk result (text.new.items ≡ text.old.items
        ++ spec.setting_text S.rule names.now session.now.context before session.now.state setting.now) }
{
    let watched = session.stop().watched().len();
    let displayed = session.displayed().len();
    let machine = session.machine();
    match setting {
        Setting::Break(s) => push_with_cards(text, BREAK, names, *s),
        Setting::TemporaryBreak(s) => push_with_cards(text, ONCE, names, *s),
        Setting::BreakIf(s, test) => push_tested(text, names, *s, Some(test)),
        Setting::Condition(s, test) => push_condition(text, session, names, *s, test),
        Setting::Delete(s) => push_statement(text, DELETED, names, *s),
        Setting::DeleteAll => text.extend_from_slice(NONE_LEFT),
        Setting::Watch(one) => push_watched(text, session, before, one),
        Setting::Unwatch(_) => push_removed(text, before.watched, watched, NOT_WATCHED),
        Setting::UnwatchThis(_) => push_removed(text, before.watched, watched, NO_WATCH),
        Setting::Display(chain) => {
            if before.displayed < displayed {
                push_numbered(text, b"display ", displayed, machine, chain)
            } else {
                text.extend_from_slice(MANY_DISPLAYED)
            }
        }
        Setting::Undisplay(_) => push_removed(text, before.displayed, displayed, NOT_DISPLAYED),
        Setting::UndisplayChain(_) => push_removed(text, before.displayed, displayed, NO_DISPLAY),
    }
}

/// What is answered where a word is to be watched of the block to which an operand leads.
fn word_answer<S: Places>(
    alloc: Global,
    session: &Session<S>,
    before: Before,
    operand: &Operand,
    word: u16,
) -> Result<Vec<u8>, AllocError>
    ensures { IfOk result (λ text. text.items ≡ spec.word_text
        (state_at S.rule session.now.context session.now.state.number).memory before
        session.now.state word operand.now) }
{
    let mut text = Vec::new(alloc);
    match value_of(session.machine(), operand) {
        Ok(place) => {
            let one = Watched::Word(BlockWord { place, word });
            push_watched(&mut text, session, before, &one)?;
        }
        Err(_) => push_value(&mut text, session.machine(), operand)?,
    }
    Ok(text)
}

/// Adds that something is watched, if more is than before, or else that there was no room.
fn push_watched<S: Places>(
    text: &mut Vec<u8>,
    session: &Session<S>,
    before: Before,
    one: &Watched,
) -> Result<(), AllocError>
    ensures { OnOk result (text.new.items ≡ text.old.items ++ spec.watched_text
        (state_at S.rule session.now.context session.now.state.number).memory before
        session.now.state one.now) }
{
    let watched = session.stop().watched().len();
    if before.watched < watched {
        push_numbered_watch(text, watched, session.machine(), one)
    } else {
        text.extend_from_slice(MANY_WATCHED)
    }
}

/// Adds what is said of a statement, and its cards.
fn push_with_cards(
    text: &mut Vec<u8>,
    said: &[u8],
    names: &Names,
    statement: u64,
) -> Result<(), AllocError>
    ensures { OnOk result (text.new.items ≡ text.old.items
        ++ spec.with_cards said.now names.now statement) }
{
    push_statement(text, said, names, statement)?;
    push_own(text, names, statement)
}

/// Adds what is said of a breakpoint that was to be given a test, or none: that it has it, or that there is
/// no breakpoint.
fn push_condition<S: Places>(
    text: &mut Vec<u8>,
    session: &Session<S>,
    names: &Names,
    statement: u64,
    test: &Option<Test>,
) -> Result<(), AllocError>
    ensures { OnOk result (text.new.items ≡ text.old.items
        ++ spec.condition_text session.now.state names.now statement test.now) }
{
    if session.has_breakpoint(statement) {
        push_tested(text, names, statement, test.as_ref())
    } else {
        text.extend_from_slice(NOT_THERE)
    }
}

/// Adds what is said of a breakpoint that is given a test, or none, and the cards of its statement.
fn push_tested(
    text: &mut Vec<u8>,
    names: &Names,
    statement: u64,
    test: Option<&Test>,
) -> Result<(), AllocError>
    ensures { OnOk result (text.new.items ≡ text.old.items
        ++ spec.tested_text names.now statement (option_map (λ test. test.now) test.entry)) }
{
    push_break(text, BREAK, names, statement, test)?;
    push_own(text, names, statement)
}

/// Adds that a chain is taken off its list, if the list has become shorter, or else that it has none of
/// that number.
fn push_removed(
    text: &mut Vec<u8>,
    before: usize,
    now: usize,
    refused: &[u8],
) -> Result<(), AllocError>
    ensures { OnOk result (text.new.items ≡ text.old.items
        ++ spec.removed_text before now refused.now) }
{
    if now < before {
        text.extend_from_slice(TAKEN_OFF)
    } else {
        text.extend_from_slice(refused)
    }
}

/// What is shown.
fn view_answer<S: FreeLists>(
    alloc: Global,
    session: &Session<S>,
    names: &Names,
    listed: Option<Cards>,
    view: &View,
) -> Result<Vec<u8>, AllocError>
    ensures { IfOk result (λ text. spec.ShowsView S.rule names.now listed session.now.context
        session.now.state view.now text.items) }
{
    let mut text = Vec::new(alloc);
    let machine = session.machine();
    let here = u64::from(machine.at().statement);
    match view {
        View::Print(operand) => push_value(&mut text, machine, operand)?,
        View::Label(statement) => push_with_cards(&mut text, LABEL, names, *statement)?,
        View::PrintLabel(operand, statement) => {
            push_both(&mut text, machine, names, operand, *statement)?
        }
        View::Block(operand) => push_block(alloc, &mut text, machine, operand)?,
        View::Where => push_waiting(&mut text, machine, names.labels())?,
        View::WhereFew(lines) => push_few(&mut text, machine, names.labels(), *lines)?,
        View::Stack => push_saved(&mut text, machine)?,
        View::Show => push_answer(alloc, &mut text, machine, Batch::Show)?,
        View::Fields => push_answer(alloc, &mut text, machine, Batch::Fields)?,
        View::Draw => push_some_drawn(alloc, &mut text, machine)?,
        View::DrawAll => push_drawing(alloc, &mut text, machine)?,
        View::Store => push_answer(alloc, &mut text, machine, Batch::Store)?,
        View::Lists => push_lists(&mut text, machine.store())?,
        View::Stats => push_stats(&mut text, session)?,
        View::Out => push_answer(alloc, &mut text, machine, Batch::Out)?,
        View::Checkpoints => push_checkpoints(&mut text, session.history())?,
        View::Info => push_info(&mut text, session, names)?,
        View::Save => push_commands(alloc, &mut text, session, names)?,
        View::ListHere => push_here(&mut text, names.deck(), here, listed)?,
        View::ListBefore => push_before(&mut text, names.deck(), here, listed)?,
        View::ListNear(statement) => push_near(&mut text, names.deck(), *statement)?,
        View::ListCards(cards) => push_listed(&mut text, names.deck(), Some(*cards))?,
        View::Help => push_help(&mut text)?,
        View::Set => text.extend_from_slice(UNCHANGED)?,
        View::Ignore => text.extend_from_slice(IGNORE)?,
        View::Commands => text.extend_from_slice(COMMANDS)?,
    }
    Ok(text)
}

/// Adds what a chain or a number reads as that is spelled as a label is, and the statement of that label.
fn push_both<S: Places>(
    text: &mut Vec<u8>,
    machine: &Machine<S>,
    names: &Names,
    operand: &Operand,
    statement: u64,
) -> Result<(), AllocError>
    ensures { OnOk result (text.new.items ≡ text.old.items
        ++ spec.both_text machine.now.configuration.state.memory names.now operand.now statement) }
{
    push_value(text, machine, operand)?;
    push_with_cards(text, LABEL, names, statement)
}

/// Adds the cards before those that were listed last, or before those near a statement.
fn push_before(
    text: &mut Vec<u8>,
    deck: &[u8],
    statement: u64,
    listed: Option<Cards>,
) -> Result<(), AllocError>
    ensures { OnOk result (text.new.items ≡ text.old.items
        ++ listed_text deck.now (listing.cards_back deck.now statement listed)) }
{
    push_listed(text, deck, cards_back(deck, statement, listed))
}

/// Adds the cards near a statement, or those that follow the ones that were listed last.
fn push_here(
    text: &mut Vec<u8>,
    deck: &[u8],
    statement: u64,
    listed: Option<Cards>,
) -> Result<(), AllocError>
    ensures { OnOk result (text.new.items ≡ text.old.items
        ++ here_text deck.now statement listed) }
{
    match listed {
        None => push_near(text, deck, statement),
        Some(_) => push_listed(text, deck, cards_here(deck, statement, listed)),
    }
}
