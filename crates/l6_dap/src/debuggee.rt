//! A debuggee: a session with the run of a deck, and what its editor asked for and was told.

ghost use Rattle.std.specs.Prelude.{◌≡◌, ◌≤◌, length, slice_get, IfOk};
ghost use Rattle.l6_history.specs.Numerals.{most_watched};
ghost use Rattle.l6_place.specs.Cards.{first_cards};
ghost use Rattle.l6_dap.specs.Breakpoints.{StopsAsAsked};
ghost use Rattle.l6_dap.specs.Launching as spec;
ghost use Rattle.l6_dap.specs.Watches.{watching};
ghost use Rattle.l6_dap.specs.inner.Launched.{IsSameLaunch, with_stops_wanted};
ghost use Rattle.l6_dap.specs.inner.Watching.{with_all};

use crate::breakpoints::{Kind, ask};
use l6_history::Watched;
use l6_machine::Options;
use l6_prog::Test;
use l6_rpc::OutOfMemory;
use l6_session::{Command, Move, Names, Session, Setting};
use l6_store::Buddy;
use std::alloc::{AllocError, Global};
use std::marker::Model;

/// What an editor asks for when it launches a run.
#[derive(Drop)]
pub(crate) struct Launch {
    /// The path of the deck, or of the whole job.
    pub(crate) path: String,
    /// The path of the input, if it is not in the job.
    pub(crate) input: Option<String>,
    /// The store and the limits.
    pub(crate) options: Options,
    /// Whether one stops at the start.
    pub(crate) stops_on_entry: bool,
    /// Whether the run is to go to its end, and no breakpoint counts.
    pub(crate) is_run_only: bool,
}

/// A breakpoint that is asked for.
#[derive(Clone, Drop)]
pub(crate) struct Breakpoint {
    /// The number of its statement.
    pub(crate) statement: u64,
    /// The test that must hold, if one is given.
    pub(crate) test: Option<Test>,
}

/// A session with the run of a deck, and what its editor asked for and was told.
#[derive(Drop)]
pub(crate) struct Debuggee {
    pub(crate) session: Session<Buddy>,
    pub(crate) names: Names,
    /// The first card of each statement, from 1 on.
    pub(crate) first_cards: Vec<usize>,
    pub(crate) launch: Launch,
    /// The breakpoints by cards, as they were asked for last.
    pub(crate) on_cards: Vec<Breakpoint>,
    /// Those by labels.
    pub(crate) on_labels: Vec<Breakpoint>,
    /// How many bytes of the printout were sent: those of the furthest state that was shown.
    pub(crate) printed: usize,
}

impl Model for Debuggee {
    ghost use Rattle.std.specs.Prelude.{◌≡◌, string_bytes};
    ghost use Rattle.l6_place.specs.Cards as cards;
    ghost use Rattle.l6_dap.specs.Debugged.{Debugged};

    ghost Value = { Debugged };

    ghost view = { λ it. record {
      run = it.session;
      names = it.names;
      path = string_bytes it.launch.path;
      options = it.launch.options;
      stops_on_entry = it.launch.stops_on_entry;
      is_run_only = it.launch.is_run_only;
      on_cards = it.on_cards.items;
      on_labels = it.on_labels.items;
      printed = it.printed;
    } };

    ghost invariant = { λ it. it.first_cards.items ≡ cards.first_cards it.names.deck };
}

impl Launch {
    /// A copy of it.
    pub(crate) fn copied(&self) -> Result<Self, AllocError>
        ensures { IfOk result (IsSameLaunch self.now) }
    {
        let input = match &self.input {
            None => None,
            Some(path) => Some(path.clone()?),
        };
        Ok(Launch {
            path: self.path.clone()?,
            input,
            options: self.options,
            stops_on_entry: self.stops_on_entry,
            is_run_only: self.is_run_only,
        })
    }
}

impl Debuggee {
    /// The same run at its start, of which all is printed again.
    pub(crate) fn at_start(self, alloc: Global) -> Self
        ensures { result ≡ spec.at_start self }
    {
        let mut again = self;
        again.session.obey(alloc, &Command::Move(Move::Goto(0)));
        again.printed = 0;
        again
    }

    /// Takes over the breakpoints and the watches of another run.
    pub(crate) fn take_stops(&mut self, alloc: Global, other: &Debuggee) -> Result<(), OutOfMemory>
        ensures stops { IfOk result (λ it.
            StopsAsAsked (with_stops_wanted self.old other.now) self.new) }
        ensures few { length other.now.run.state.stop.watched ≤ most_watched }
    {
        self.watch(alloc, other.session.stop().watched())?;
        ask(
            self,
            Kind::OnCards,
            copied(alloc, other.on_cards.as_slice())?,
        );
        ask(
            self,
            Kind::OnLabels,
            copied(alloc, other.on_labels.as_slice())?,
        );
        self.stop_as_asked(alloc)?;
        Ok(())
    }

    /// Watches these, too.
    fn watch(&mut self, alloc: Global, watched: &[Watched]) -> Result<(), AllocError>
        ensures { IfOk result (λ it. self.new ≡ record self.old {
          run = watching (with_all watched.now self.old.run.state.stop.watched) self.old.run;
        }) }
    {
        watch_all(alloc, &mut self.session, watched)
    }

    /// Whether a statement begins at the state of the session that has a breakpoint, whose test is met if it has one.
    pub(crate) fn stops_here(&self) -> bool
        ensures { result ≡ spec.stops_here self.now.run }
    {
        let machine = self.session.machine();
        let at = machine.at();
        let stop = self.session.stop();
        let index = usize::from(at.statement);
        let has_breakpoint = stop.breakpoints().get(index).copied().unwrap_or(false);
        at.action == 0 && has_breakpoint && stop.meets(machine)
    }

    /// The move by which the run begins, once all is configured: to its end, past all stops, if that was asked for; none
    /// if one stops at the start, or where it stands; and else on from the start to where one stops.
    pub(crate) fn first_move(&self) -> Option<Move>
        ensures { result ≡ spec.first_move self.now }
    {
        if self.launch.is_run_only {
            return Some(Move::End);
        }
        if self.launch.stops_on_entry || self.stops_here() {
            return None;
        }
        Some(Move::Run)
    }

    /// The first card of a statement. The one that is added to each deck has none.
    pub(crate) fn card_of(&self, statement: u64) -> Option<usize>
        ensures { result ≡ slice_get (first_cards self.now.names.deck) statement }
    {
        let index = usize::try_from(statement).ok()?;
        self.first_cards.as_slice().get(index).copied()
    }
}

/// Watches these, too.
fn watch_all(
    alloc: Global,
    session: &mut Session<Buddy>,
    watched: &[Watched],
) -> Result<(), AllocError>
    ensures { IfOk result (λ it. session.new
        ≡ watching (with_all watched.now session.old.state.stop.watched) session.old) }
{
    for one in watched {
        let setting = Setting::Watch(one.clone()?);
        session.obey(alloc, &Command::Setting(setting));
    }
    Ok(())
}

/// A copy of breakpoints.
fn copied(alloc: Global, list: &[Breakpoint]) -> Result<Vec<Breakpoint>, AllocError>
    ensures { IfOk result (λ it. it.items ≡ list.now) }
{
    let mut copy = Vec::new(alloc);
    for one in list {
        copy.push(one.clone()?)?;
    }
    Ok(copy)
}
