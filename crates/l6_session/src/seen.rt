//! What was seen where a session was before, and what has changed since.

ghost use Rattle.std.specs.Prelude.{◌≡◌, ◌≤◌, ◌++◌, [], length, OnOk};
ghost use Rattle.l6_history.specs.Numerals.{most_watched};
ghost use Rattle.l6_history.specs.Stop.{differs, values_of};
ghost use Rattle.l6_prog.specs.Numerals.{letter_count, name_count};
ghost use Rattle.l6_session.specs.Changes as spec;

use crate::calls::push_definition;
use crate::printed::push_printed;
use crate::text::{push_counted, push_name, push_watched_name};
use arrayvec::ArrayVec;
use l6_history::{MAX_WATCHED, Watched};
use l6_machine::{Machine, push_decimal};
use l6_prog::{DIGITS, NAMES};
use l6_store::Places;
use l6_word::{Window, Word};
use std::alloc::AllocError;
use std::marker::Model;

/// How many changes of bugs and fields are shown.
const MOST_CHANGES: usize = 8;

/// How many bugs there are.
const BUGS: usize = (NAMES - DIGITS) as usize;

/// How many characters had been printed, what bugs held, what fields were defined as, and what was
/// watched read as.
#[derive(Drop)]
pub(crate) struct Seen {
    printed: usize,
    bugs: [Word; BUGS],
    definitions: [Option<Window>; NAMES as usize],
    watched: ArrayVec<Option<Word>, MAX_WATCHED>,
}

impl Model for Seen {
    ghost use Rattle.std.specs.Prelude.{◌≡◌, length};
    ghost use Rattle.l6_prog.specs.Numerals.{letter_count, name_count};
    ghost use Rattle.l6_session.specs.Changes as changes;

    ghost Value = { changes.Seen };

    ghost view = { λ s. record {
      printed = s.printed;
      bugs = s.bugs;
      definitions = s.definitions;
      watched = s.watched.items;
    } };

    ghost invariant = { λ s. (length s.bugs ≡ letter_count) × (length s.definitions ≡ name_count) };
}

impl Seen {
    /// What is seen of a machine of which nothing is watched.
    pub(crate) fn of<S: Places>(machine: &Machine<S>) -> Self
        ensures { result ≡ spec.seen_of machine.now.configuration.state.memory [] }
    {
        let mut seen = Seen {
            printed: 0,
            bugs: [Word::default(); BUGS],
            definitions: [None; NAMES as usize],
            watched: ArrayVec::new(),
        };
        seen.look(machine, &[]);
        seen
    }

    /// Becomes what is seen of a machine. The caller owes no more than may be watched.
    pub(crate) fn look<S: Places>(&mut self, machine: &Machine<S>, watched: &[Watched])
        requires { length watched.now ≤ most_watched }
        ensures { self.new ≡ spec.seen_of machine.now.configuration.state.memory watched.now }
    {
        self.printed = machine.output().len();
        self.bugs.copy_from_slice(machine.bugs());
        self.definitions.copy_from_slice(machine.definitions());
        look_at(&mut self.watched, machine, watched);
    }

    /// Adds what has changed.
    pub(crate) fn push_changes<S: Places>(
        &self,
        text: &mut Vec<u8>,
        machine: &Machine<S>,
        watched: &[Watched],
    ) -> Result<(), AllocError>
        ensures { OnOk result (text.new.items ≡ text.old.items
            ++ spec.changes_text self.now machine.now.configuration.state.memory watched.now) }
    {
        if let Some(characters) = machine.output().get(self.printed..) {
            push_printed(text, characters)?;
        }
        push_watches(text, machine, self.watched.as_slice(), watched)?;
        push_lines(
            text,
            &self.bugs,
            machine.bugs(),
            &self.definitions,
            machine.definitions(),
        )
    }
}

/// Becomes what is watched reads as. The caller owes no more than may be watched.
fn look_at<S: Places>(
    values: &mut ArrayVec<Option<Word>, MAX_WATCHED>,
    machine: &Machine<S>,
    watched: &[Watched],
)
    requires { length watched.now ≤ most_watched }
    ensures { values.new.items ≡ values_of watched.now machine.now.configuration.state.memory }
{
    values.clear();
    let mut rest = watched;
    while let Some((one, following)) = rest.split_first() {
        values.push(one.value(machine));
        rest = following;
    }
}

/// Adds the first changes of bugs and fields, and how many more there are.
fn push_lines(
    text: &mut Vec<u8>,
    bugs: &[Word],
    bugs_now: &[Word],
    definitions: &[Option<Window>],
    definitions_now: &[Option<Window>],
) -> Result<(), AllocError>
    requires bugs { length bugs.now ≡ letter_count }
    requires definitions { length definitions.now ≡ name_count }
    ensures { OnOk result (text.new.items ≡ text.old.items
        ++ spec.lines_text bugs.now bugs_now.now definitions.now definitions_now.now) }
{
    let mut count: usize = 0;
    let mut name: u8 = DIGITS;
    let mut befores = bugs;
    let mut nows = bugs_now;
    while let (Some((was, further)), Some((is, others))) = (
        befores.split_first(),
        nows.split_first(),
    ) {
        if was.get() != is.get() {
            push_bug(text, count, name, *was, *is)?;
            count += 1;
        }
        name += 1;
        befores = further;
        nows = others;
    }
    let mut field: u8 = 0;
    let mut befores = definitions;
    let mut nows = definitions_now;
    while let (Some((had, further)), Some((has, others))) = (
        befores.split_first(),
        nows.split_first(),
    ) {
        if !is_same(*had, *has) {
            push_field(text, count, field, *has)?;
            count += 1;
        }
        field += 1;
        befores = further;
        nows = others;
    }
    push_further(text, count.saturating_sub(MOST_CHANGES))
}

/// Adds the changes of what is watched.
fn push_watches<S: Places>(
    text: &mut Vec<u8>,
    machine: &Machine<S>,
    befores: &[Option<Word>],
    watched: &[Watched],
) -> Result<(), AllocError>
    ensures { OnOk result (text.new.items ≡ text.old.items
        ++ spec.watch_lines machine.now.configuration.state.memory befores.now watched.now) }
{
    let mut befores = befores;
    let mut watched = watched;
    while let (Some((was, further)), Some((one, others))) = (
        befores.split_first(),
        watched.split_first(),
    ) {
        push_watch(text, one, *was, one.value(machine))?;
        befores = further;
        watched = others;
    }
    Ok(())
}

/// Adds the change of a chain or a word that is watched, if it reads as another value.
fn push_watch(
    text: &mut Vec<u8>,
    watched: &Watched,
    was: Option<Word>,
    is: Option<Word>,
) -> Result<(), AllocError>
    ensures { OnOk result (text.new.items ≡ text.old.items ++ spec.watch_line watched.now was is) }
{
    if differ(&was, &is) {
        push_change(text, watched, was, is)
    } else {
        Ok(())
    }
}

/// Adds what a chain or a word that is watched read as, and what it reads as now.
fn push_change(
    text: &mut Vec<u8>,
    watched: &Watched,
    was: Option<Word>,
    is: Option<Word>,
) -> Result<(), AllocError>
    ensures { OnOk result (text.new.items ≡ text.old.items ++ spec.change_line watched.now was is) }
{
    text.extend_from_slice(b"      watch ")?;
    push_watched_name(text, watched)?;
    text.extend_from_slice(b": ")?;
    push_values(text, watched, was, is)?;
    text.extend_from_slice(b"\n")
}

/// Adds a value, and the one that follows it.
fn push_values(
    text: &mut Vec<u8>,
    watched: &Watched,
    was: Option<Word>,
    is: Option<Word>,
) -> Result<(), AllocError>
    ensures { OnOk result (text.new.items ≡ text.old.items ++ spec.values_text watched.now was is) }
{
    push_if_known(text, watched, was)?;
    text.extend_from_slice(b" -> ")?;
    push_if_known(text, watched, is)
}

/// Whether two values differ.
fn differ(one: &Option<Word>, other: &Option<Word>) -> bool
    ensures { result ≡ differs one.now other.now }
{
    match (one, other) {
        (None, None) => false,
        (Some(one), Some(other)) => one.get() != other.get(),
        _ => true,
    }
}

/// Adds a value, or that there is none.
fn push_if_known(
    text: &mut Vec<u8>,
    watched: &Watched,
    value: Option<Word>,
) -> Result<(), AllocError>
    ensures { OnOk result (text.new.items ≡ text.old.items ++ spec.value_text watched.now value) }
{
    match value {
        Some(word) => push_decimal(text, word.get()),
        None => text.extend_from_slice(no_value(watched)),
    }
}

/// What is said where there is no value: a chain can't be followed, or a block has no such word.
fn no_value(watched: &Watched) -> &'static [u8]
    ensures { result.now ≡ spec.no_value watched.now }
{
    match watched {
        Watched::Chain(_) => b"can't be followed",
        Watched::Word(_) => b"no such word",
    }
}

/// Whether two definitions are the same.
fn is_same(one: Option<Window>, other: Option<Window>) -> bool
    ensures { result ≡ spec.is_same one other }
{
    match (one, other) {
        (None, None) => true,
        (Some(one), Some(other)) => {
            one.word() == other.word() && one.first() == other.first() && one.last() == other.last()
        }
        _ => false,
    }
}

/// Adds the change of a bug, if no more than may be shown came before it.
fn push_bug(
    text: &mut Vec<u8>,
    count: usize,
    name: u8,
    was: Word,
    is: Word,
) -> Result<(), AllocError>
    ensures { OnOk result (text.new.items ≡ text.old.items
        ++ spec.if_few count (spec.bug_line name was is)) }
{
    if MOST_CHANGES <= count {
        return Ok(());
    }
    text.extend_from_slice(b"      ")?;
    push_name(text, name)?;
    push_counted(text, b" ", was.get())?;
    push_counted(text, b" -> ", is.get())?;
    text.extend_from_slice(b"\n")
}

/// Adds what a field is now defined as, if no more than may be shown came before it.
fn push_field(
    text: &mut Vec<u8>,
    count: usize,
    name: u8,
    definition: Option<Window>,
) -> Result<(), AllocError>
    ensures { OnOk result (text.new.items ≡ text.old.items
        ++ spec.if_few count (spec.field_line name definition)) }
{
    if MOST_CHANGES <= count {
        return Ok(());
    }
    text.extend_from_slice(b"      field ")?;
    push_name(text, name)?;
    text.extend_from_slice(b": ")?;
    push_definition(text, definition)?;
    text.extend_from_slice(b"\n")
}

/// Adds how many more changes there are, if any.
fn push_further(text: &mut Vec<u8>, further: usize) -> Result<(), AllocError>
    ensures { OnOk result (text.new.items ≡ text.old.items ++ spec.further_text further) }
{
    if further == 0 {
        return Ok(());
    }
    push_counted(text, b"      and ", further)?;
    text.extend_from_slice(b" more\n")
}
