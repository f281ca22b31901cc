//! A session with the run of a deck, which answers lines.

ghost use Rattle.std.specs.Prelude.{◌≡◌, ◌==◌, IfOk, None, false, length};
ghost use Rattle.l6_steps.specs.Configuration.{first_configuration};
ghost use Rattle.l6_session.specs.DeckSession.{AnswersCommand, AnswersReading, after_reading, refuses, refuses_setting, shown_place};
ghost use Rattle.l6_session.specs.SessionState.{after, first_session_state};

use crate::answers::answer_of;
use crate::before::Before;
use crate::command::{Cards, Command, Reading, Setting};
use crate::conversation::Answerer;
use crate::free_lists::FreeLists;
use crate::help::sentence_after;
use crate::listing::listed_after;
use crate::names::Names;
use crate::reading::reading_of;
use crate::seen::Seen;
use crate::session::Session;
use crate::stops::push_place;
use l6_machine::Machine;
use l6_store::Places;
use std::alloc::{AllocError, Global};
use std::marker::Model;

/// What is answered to what is no command.
const WRONG: &[u8] = b"Not a command: help lists them\n";

/// What is answered where no statement is named.
const NO_STATEMENT: &[u8] =
    b"No such statement: a label, a number of a statement, or : and that of a card\n";

/// What is answered where no chain is named.
const NO_CHAIN: &[u8] =
    b"No such chain: a bug, A to Z, and up to five fields after it, as in QNC\n";

/// What is answered where there is no test that is to be one.
const NO_TEST: &[u8] =
    b"No such test: a group as on a card, with E, N, G, L, O or Z, as in (A,G,5)\n";

/// What is answered where a file is named that the console has not opened.
const NO_FILE: &[u8] = b"No such file, or it can't be opened\n";

/// What is answered to a word that is nearly a command's, before what that command does.
const NEARLY: &[u8] = b"Not a command. Did you mean this one? ";

/// What is answered to a command without what must follow it, before what it does.
const MISSING: &[u8] = b"Something is missing. ";

/// What is answered to a command with words that it does not take, before what it does.
const UNFIT: &[u8] = b"This can't follow it. ";

/// A session with the run of a deck.
#[derive(Drop)]
pub struct DeckSession<S: Places> {
    session: Session<S>,
    names: Names,
    seen: Seen,
    /// The cards that were listed last, if any were where the session is.
    listed: Option<Cards>,
    is_refused: bool,
}

impl<S: Places> Model for DeckSession<S> {
    ghost use Rattle.std.specs.Coded.{codes};
    ghost use Rattle.std.specs.Prelude.{◌≡◌};
    ghost use Rattle.l6_steps.specs.Configuration.{state_at};
    ghost use Rattle.l6_session.specs.Changes.{seen_of};
    ghost use Rattle.l6_session.specs.DeckSession as sessions;

    ghost Value = { sessions.DeckSession };

    ghost coded = { Prim.hlevel (codes) };

    ghost view = { λ s. record {
      names = s.names;
      context = s.session.context;
      state = s.session.state;
      listed = s.listed;
      refused = s.is_refused;
    } };

    ghost invariant = { λ s. s.seen ≡ seen_of
        (state_at S.Places.rule s.session.context s.session.state.number).memory
        s.session.state.stop.watched };
}

impl<S: FreeLists> DeckSession<S> {
    /// A session at the start of a run, with what the statements of its deck are named by. The caller
    /// owes a machine that is there.
    ///
    /// # Errors
    ///
    /// Memory ran out.
    pub fn new(alloc: Global, machine: Machine<S>, names: Names) -> Result<Self, AllocError>
    where
        S: Drop,
        requires { machine.configuration ≡ first_configuration S.rule machine.context }
        ensures { IfOk result (λ session. session ≡ record {
          names = names;
          context = machine.context;
          state = first_session_state machine.context;
          listed = None;
          refused = false;
        }) }
    {
        let seen = Seen::of(&machine);
        Ok(DeckSession {
            session: Session::new(alloc, machine)?,
            names,
            seen,
            listed: None,
            is_refused: false,
        })
    }

    /// Whether a line was refused: it was no command, named nothing that is there, or could not be obeyed.
    pub fn is_refused(&self) -> bool
        ensures { result ≡ self.now.refused }
    {
        self.is_refused
    }

    /// Where the session is, as at a stop.
    ///
    /// # Errors
    ///
    /// Memory ran out.
    pub fn place(&self, alloc: Global) -> Result<Vec<u8>, AllocError>
        ensures { IfOk result (λ text. text.items ≡ shown_place S.rule self.now) }
    {
        let mut text = Vec::new(alloc);
        let machine = self.session.machine();
        push_place(alloc, &mut text, machine, &self.names)?;
        Ok(text)
    }

    /// Goes where a line leads that is read so, and answers it.
    fn answer_reading(&mut self, alloc: Global, reading: &Reading) -> Result<Vec<u8>, AllocError>
    where
        S: Drop,
        ensures after { self.new ≡ after_reading S.rule self.old reading.now }
        ensures text { IfOk result (λ text. AnswersReading S.rule self.old.names self.old.listed
            self.old.context self.old.state reading.now text.items) }
    {
        self.is_refused |= reading.is_wrong();
        match reading {
            Reading::Skipped | Reading::Quit => Ok(Vec::new(alloc)),
            Reading::Wrong => text_of(alloc, WRONG),
            Reading::Nearly(verb) => sentence_after(alloc, NEARLY, *verb),
            Reading::Missing(verb) => sentence_after(alloc, MISSING, *verb),
            Reading::Unfit(verb) => sentence_after(alloc, UNFIT, *verb),
            Reading::NoStatement => text_of(alloc, NO_STATEMENT),
            Reading::NoChain => text_of(alloc, NO_CHAIN),
            Reading::NoFile => text_of(alloc, NO_FILE),
            Reading::NoTest => text_of(alloc, NO_TEST),
            Reading::HelpOn(verb) => sentence_after(alloc, b"", *verb),
            Reading::Asked(command) => self.obey(alloc, command),
        }
    }

    /// Goes where a command leads, and answers it.
    fn obey(&mut self, alloc: Global, command: &Command) -> Result<Vec<u8>, AllocError>
    where
        S: Drop,
        ensures after { self.new ≡ after_reading S.rule self.old (Reading.Asked command.now) }
        ensures text { IfOk result (λ text. AnswersCommand S.rule self.old.names self.old.listed
            self.old.context self.old.state self.new.state command.now text.items) }
    {
        let before = Before::of(&self.session);
        let listed = self.listed;
        let statement = u64::from(self.session.machine().at().statement);
        self.listed = listed_after(self.names.deck(), statement, listed, command);
        self.session.obey(alloc, command);
        self.is_refused |= is_refused(before, &self.session, command);
        let text = answer_of(
            alloc,
            &mut self.session,
            &self.names,
            &self.seen,
            listed,
            before,
            command,
        );
        let watched = self.session.stop().watched();
        self.seen.look(self.session.machine(), watched);
        text
    }
}

/// Whether a command was refused that the session has obeyed, by what it was like before.
fn is_refused<S: Places>(before: Before, session: &Session<S>, command: &Command) -> bool
    ensures { result ≡ refuses before session.now.state command.now }
{
    match command {
        Command::Move(to) => before.depth == 0 && to.is_finish(),
        Command::Setting(setting) => is_refused_setting(before, session, setting),
        Command::WatchWord(_, _) => watches_as_many(before, session),
        Command::View(_) | Command::Who(_) => false,
    }
}

/// Whether as much is watched as before.
fn watches_as_many<S: Places>(before: Before, session: &Session<S>) -> bool
    ensures { result ≡ (before.watched == length session.now.state.stop.watched) }
{
    before.watched == session.stop().watched().len()
}

/// Whether a list had no room for a chain, or did not have the one that was to be taken off it; or no
/// breakpoint was there that could be given a test.
fn is_refused_setting<S: Places>(before: Before, session: &Session<S>, setting: &Setting) -> bool
    ensures { result ≡ refuses_setting before session.now.state setting.now }
{
    match setting {
        Setting::Watch(_) | Setting::Unwatch(_) | Setting::UnwatchThis(_) => {
            watches_as_many(before, session)
        }
        Setting::Display(_) | Setting::Undisplay(_) | Setting::UndisplayChain(_) => {
            before.displayed == session.displayed().len()
        }
        Setting::Condition(statement, _) => !session.has_breakpoint(*statement),
        _ => false,
    }
}

/// A text of these bytes.
fn text_of(alloc: Global, bytes: &[u8]) -> Result<Vec<u8>, AllocError>
    ensures { IfOk result (λ text. text.items ≡ bytes.now) }
{
    let mut text = Vec::new(alloc);
    text.extend_from_slice(bytes)?;
    Ok(text)
}

impl<S: FreeLists + Drop> Answerer for DeckSession<S> {
    ghost use Rattle.l6_session.specs.Reading.{reading_of};
    ghost use Rattle.l6_session.specs.DeckSession.{AnswersReading, after_line, is_quit};

    ghost Answers = { λ old line text.
        AnswersReading S.rule old.names old.listed old.context old.state
        (reading_of old.names line) text };

    ghost after = { after_line S.rule };

    ghost ends_by = { λ old line. is_quit (reading_of old.names line) };

    fn ends(&self, line: &[u8]) -> bool {
        match reading_of(&self.names, line) {
            Reading::Quit => true,
            _ => false,
        }
    }

    fn answer(&mut self, alloc: Global, line: &[u8]) -> Result<Vec<u8>, AllocError> {
        let reading = reading_of(&self.names, line);
        self.answer_reading(alloc, &reading)
    }
}
