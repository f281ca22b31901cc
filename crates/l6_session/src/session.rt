//! A session: a run's history, where one stops, and what is displayed.

ghost use Rattle.std.specs.Prelude.{◌≡◌, ◌≤◌, false, slice_index_or, IfOk, IfSome, Some, None};
ghost use Rattle.l6_steps.specs.Configuration.{first_configuration, state_at};
ghost use Rattle.l6_steps.specs.Locus.{read};
ghost use Rattle.l6_steps.specs.Numbering.{last_number};
ghost use Rattle.l6_steps.specs.Numerals.{most_steps};
ghost use Rattle.l6_history.specs.History.{number_to, run_state_at};
ghost use Rattle.l6_history.specs.Life.{life_of};
ghost use Rattle.l6_history.specs.Seeking.{next_stop, previous_stop};
ghost use Rattle.l6_session.specs.SessionState.{after, back, back_over_statement, back_statement, back_to, changed, come_to, depth_at, first_session_state, moved, on, on_statement, on_to, on_until, over_statement, with_breakpoint, word_watched};

use crate::chains::{number_in, number_of_watched};
use crate::command::{Command, Move, Setting};
use crate::stops::value_of;
use l6_history::{BlockWord, History, Life, MAX_WATCHED, Stop, Watched};
use l6_machine::Machine;
use l6_prog::{Chain, Operand, Test};
use l6_store::Places;
use l6_word::Word;
use std::alloc::{AllocError, Global};
use std::marker::Model;

/// How many chains may be displayed at once.
pub const MAX_DISPLAYED: usize = 8;

/// How often a command is repeated at most.
pub const MAX_REPEATS: u64 = 65_535;

/// A session with a run: at which state one is, where one stops, where for once, and what is displayed.
#[derive(Drop)]
pub struct Session<S: Places> {
    history: History<S>,
    stop: Stop,
    temporary: Vec<bool>,
    displayed: Vec<Chain>,
}

impl<S: Places> Model for Session<S> {
    ghost use Rattle.std.specs.Coded.{codes};
    ghost use Rattle.std.specs.Prelude.{◌≡◌, ◌≤◌, length, vec_capacity, false, None};
    ghost use Rattle.l6_session.specs.Numerals.{most_displayed};
    ghost use Rattle.l6_session.specs.inner.SessionRun.{SessionRun};

    ghost Value = { SessionRun };

    ghost coded = { Prim.hlevel (codes) };

    ghost view = { λ s. record {
      context = s.history.context;
      state = record {
        number = s.history.number;
        stop = s.stop;
        temporary = s.temporary.items;
        displayed = s.displayed.items;
      };
    } };

    ghost invariant = { λ s. (s.stop.depth ≡ None)
        × (s.stop.each ≡ false)
        × (length s.displayed.items ≤ most_displayed)
        × (most_displayed ≤ vec_capacity s.displayed) };
}

impl<S: Places> Session<S> {
    /// A session at the start, which stops nowhere and displays nothing. The caller owes a machine there.
    ///
    /// # Errors
    ///
    /// Memory ran out.
    pub fn new(alloc: Global, machine: Machine<S>) -> Result<Self, AllocError>
    where
        S: Drop,
        requires { machine.configuration ≡ first_configuration S.rule machine.context }
        ensures context { IfOk result (λ session. session.context ≡ machine.context) }
        ensures state { IfOk result (λ session. session.state ≡ first_session_state machine.context) }
    {
        let statements = machine.program().statements().len();
        let stop = Stop::new(alloc, statements)?;
        let temporary = vec![in alloc; false; statements]?;
        let displayed = Vec::with_capacity(alloc, MAX_DISPLAYED)?;
        Ok(Session {
            history: History::new(alloc, machine),
            stop,
            temporary,
            displayed,
        })
    }

    /// The machine, at the state of the session.
    pub fn machine(&self) -> &Machine<S>
        ensures { result.now ≡ run_state_at S.rule self.now.context self.now.state.number }
    {
        self.history.machine()
    }

    /// The history of the run.
    pub fn history(&self) -> &History<S>
        ensures context { result.now.context ≡ self.now.context }
        ensures number { result.now.number ≡ self.now.state.number }
    {
        &self.history
    }

    /// Where one stops.
    pub fn stop(&self) -> &Stop
        ensures { result.now ≡ self.now.state.stop }
    {
        &self.stop
    }

    /// For each statement, whether its breakpoint is removed where it is reached.
    pub fn temporary(&self) -> &[bool]
        ensures { result.now ≡ self.now.state.temporary }
    {
        self.temporary.as_slice()
    }

    /// The chains that are displayed, in the order in which they were added.
    pub fn displayed(&self) -> &[Chain]
        ensures { result.now ≡ self.now.state.displayed }
    {
        self.displayed.as_slice()
    }

    /// Goes where a command leads, and changes where one stops and what is displayed as it says.
    pub fn obey(&mut self, alloc: Global, command: &Command)
    where
        S: Drop,
        ensures context { self.new.context ≡ self.old.context }
        ensures state { self.new.state ≡ after S.rule self.old.context self.old.state command.now }
    {
        match command {
            Command::Move(to) => self.go(alloc, *to),
            Command::Setting(setting) => self.set(setting),
            Command::WatchWord(operand, word) => self.watch_word(operand, *word),
            Command::View(_) | Command::Who(_) => {}
        }
    }

    /// Goes to another state.
    fn go(&mut self, alloc: Global, to: Move)
    where
        S: Drop,
        ensures context { self.new.context ≡ self.old.context }
        ensures state { self.new.state ≡ moved S.rule self.old.context self.old.state to }
    {
        let number = self.history.number();
        match to {
            Move::StepStatement(count) => self.step_on(alloc, count),
            Move::BackStatement(count) => self.step_back(alloc, count),
            Move::NextStatement(count) => self.step_over(alloc, count),
            Move::ReverseNextStatement(count) => self.step_back_over(alloc, count),
            Move::Step(count) => self.go_to(alloc, number.saturating_add(count)),
            Move::Back(count) => self.go_to(alloc, number.saturating_sub(count)),
            Move::Goto(goal) => self.go_to(alloc, goal),
            Move::End => self.go_to(alloc, u64::MAX),
            Move::Next(count) => self.go_over(alloc, count),
            Move::ReverseNext(count) => self.go_back_over(alloc, count),
            Move::Finish => self.finish(alloc),
            Move::ReverseFinish => self.reverse_finish(alloc),
            Move::Continue(count) => self.go_on(alloc, count),
            Move::ReverseContinue(count) => self.go_back(alloc, count),
            Move::Run => self.run(alloc),
            Move::Until(statement) => self.until(alloc, statement),
            Move::UntilNext => self.until_next(alloc),
        }
    }

    /// Changes where one stops, or what is displayed.
    fn set(&mut self, setting: &Setting)
        ensures context { self.new.context ≡ self.old.context }
        ensures state { self.new.state ≡ changed self.old.state setting.now }
    {
        match setting {
            Setting::Break(statement) => self.breakpoint(*statement, true, false, None),
            Setting::BreakIf(statement, test) => self.break_if(*statement, test),
            Setting::TemporaryBreak(statement) => self.breakpoint(*statement, true, true, None),
            Setting::Condition(statement, test) => self.condition(*statement, test),
            Setting::Delete(statement) => self.breakpoint(*statement, false, false, None),
            Setting::DeleteAll => self.delete_all(),
            Setting::Watch(watched) => self.watch(watched),
            Setting::Unwatch(place) => self.unwatch(*place),
            Setting::UnwatchThis(watched) => self.unwatch_this(watched),
            Setting::Display(chain) => self.display(chain),
            Setting::Undisplay(place) => self.undisplay(*place),
            Setting::UndisplayChain(chain) => self.undisplay_chain(chain),
        }
    }

    /// The life of the block at a place, up to the present state. The session stays as it is.
    pub(crate) fn life_of(&mut self, alloc: Global, place: Word) -> Life
    where
        S: Drop,
        ensures same { self.new ≡ self.old }
        ensures life { result ≡ life_of S.rule self.old.context place self.old.state.number }
        ensures got { IfSome result.got (λ n. n ≤ last_number S.rule self.old.context) }
        ensures written { IfSome result.written (λ n. n ≤ last_number S.rule self.old.context) }
        ensures freed { IfSome result.freed (λ n. n ≤ last_number S.rule self.old.context) }
    {
        self.history.life_of(alloc, place)
    }

    /// Goes to a state to look at it, and keeps all else. The caller owes the number of a state.
    pub(crate) fn look_at(&mut self, alloc: Global, number: u64)
    where
        S: Drop,
        requires { number ≤ last_number S.rule self.old.context }
        ensures context { self.new.context ≡ self.old.context }
        ensures state { self.new.state ≡ record self.old.state { number = number } }
    {
        self.history.to(alloc, number);
    }

    /// For how many returns calls wait.
    pub(crate) fn depth(&self) -> usize
        ensures { result ≡ depth_at S.rule self.now.context self.now.state.number }
    {
        self.machine().depths().returns
    }

    /// Goes to the state of a number, or to the last one where that comes first.
    fn go_to(&mut self, alloc: Global, number: u64)
    where
        S: Drop,
        ensures context { self.new.context ≡ self.old.context }
        ensures state { self.new.state ≡ come_to S.rule self.old.context self.old.state
            (number_to S.rule self.old.context number) }
        ensures bound { last_number S.rule self.old.context ≤ most_steps }
    {
        self.history.to(alloc, number);
        self.arrive();
    }

    /// Goes on to where one stops.
    pub(crate) fn on(&mut self, alloc: Global)
    where
        S: Drop,
        ensures context { self.new.context ≡ self.old.context }
        ensures state { self.new.state ≡ on S.rule self.old.context self.old.state }
    {
        self.history.to_next(alloc, &self.stop);
        self.arrive();
    }

    /// Goes back to where one stops.
    pub(crate) fn back(&mut self, alloc: Global)
    where
        S: Drop,
        ensures context { self.new.context ≡ self.old.context }
        ensures state { self.new.state ≡ back S.rule self.old.context self.old.state }
    {
        self.history.to_previous(alloc, &self.stop);
        self.arrive();
    }

    /// Goes on to where a statement begins, or where one stops.
    pub(crate) fn on_statement(&mut self, alloc: Global)
    where
        S: Drop,
        ensures context { self.new.context ≡ self.old.context }
        ensures state { self.new.state ≡ on_statement S.rule self.old.context self.old.state }
    {
        self.stop.set_each(true);
        self.history.to_next(alloc, &self.stop);
        self.stop.set_each(false);
        self.arrive();
    }

    /// Goes back to where a statement begins, or where one stops.
    pub(crate) fn back_statement(&mut self, alloc: Global)
    where
        S: Drop,
        ensures context { self.new.context ≡ self.old.context }
        ensures state { self.new.state ≡ back_statement S.rule self.old.context self.old.state }
    {
        self.stop.set_each(true);
        self.history.to_previous(alloc, &self.stop);
        self.stop.set_each(false);
        self.arrive();
    }

    /// Goes on to where a statement begins and no more calls wait than here, or where one stops.
    pub(crate) fn over_statement(&mut self, alloc: Global)
    where
        S: Drop,
        ensures context { self.new.context ≡ self.old.context }
        ensures state { self.new.state ≡ over_statement S.rule self.old.context self.old.state }
    {
        let depth = self.depth();
        self.stop.set_depth(Some(depth));
        self.stop.set_each(true);
        self.history.to_next(alloc, &self.stop);
        self.stop.set_depth(None);
        self.stop.set_each(false);
        self.arrive();
    }

    /// Goes back to where a statement begins and no more calls wait than here, or where one stops.
    pub(crate) fn back_over_statement(&mut self, alloc: Global)
    where
        S: Drop,
        ensures context { self.new.context ≡ self.old.context }
        ensures state { self.new.state
            ≡ back_over_statement S.rule self.old.context self.old.state }
    {
        let depth = self.depth();
        self.stop.set_depth(Some(depth));
        self.stop.set_each(true);
        self.history.to_previous(alloc, &self.stop);
        self.stop.set_depth(None);
        self.stop.set_each(false);
        self.arrive();
    }

    /// From the start, goes on to where one stops.
    fn run(&mut self, alloc: Global)
    where
        S: Drop,
        ensures context { self.new.context ≡ self.old.context }
        ensures state { self.new.state
            ≡ moved S.rule self.old.context self.old.state Move.Run }
    {
        self.go_to(alloc, 0);
        self.on(alloc);
    }

    /// Goes on to a statement, or to where one stops before.
    fn until(&mut self, alloc: Global, statement: u64)
    where
        S: Drop,
        ensures context { self.new.context ≡ self.old.context }
        ensures state { self.new.state
            ≡ on_until S.rule self.old.context self.old.state statement }
    {
        let had_breakpoint = self.has_breakpoint(statement);
        let had_test = self.stop.set_test(statement, None);
        self.stop.set_breakpoint(statement, true);
        self.history.to_next(alloc, &self.stop);
        self.stop.set_breakpoint(statement, had_breakpoint);
        self.stop.set_test(statement, had_test);
        self.arrive();
    }

    /// Goes on to the statement after the present one, or to where one stops before.
    fn until_next(&mut self, alloc: Global)
    where
        S: Drop,
        ensures context { self.new.context ≡ self.old.context }
        ensures state { self.new.state
            ≡ moved S.rule self.old.context self.old.state Move.UntilNext }
    {
        let statement = self.machine().at().statement;
        self.until(alloc, u64::from(statement) + 1);
    }

    /// Whether a statement has a breakpoint.
    pub(crate) fn has_breakpoint(&self, statement: u64) -> bool
        ensures { result ≡ slice_index_or self.now.state.stop.breakpoints statement false }
    {
        self.stop
            .breakpoints()
            .get(statement as usize)
            .copied()
            .unwrap_or(false)
    }

    /// Goes on to where one stops, or where no more calls wait than this.
    pub(crate) fn on_to(&mut self, alloc: Global, depth: usize)
    where
        S: Drop,
        ensures context { self.new.context ≡ self.old.context }
        ensures state { self.new.state ≡ on_to S.rule self.old.context self.old.state depth }
    {
        self.stop.set_depth(Some(depth));
        self.history.to_next(alloc, &self.stop);
        self.stop.set_depth(None);
        self.arrive();
    }

    /// Goes back to where one stops, or where no more calls wait than this.
    pub(crate) fn back_to(&mut self, alloc: Global, depth: usize)
    where
        S: Drop,
        ensures context { self.new.context ≡ self.old.context }
        ensures state { self.new.state ≡ back_to S.rule self.old.context self.old.state depth }
    {
        self.stop.set_depth(Some(depth));
        self.history.to_previous(alloc, &self.stop);
        self.stop.set_depth(None);
        self.arrive();
    }

    /// Goes on to where the latest call has returned, if one waits.
    fn finish(&mut self, alloc: Global)
    where
        S: Drop,
        ensures context { self.new.context ≡ self.old.context }
        ensures state { self.new.state ≡ moved S.rule self.old.context self.old.state Move.Finish }
    {
        if let Some(depth) = self.depth().checked_sub(1) {
            self.on_to(alloc, depth);
        }
    }

    /// Goes back to where the latest call was made, if one waits.
    fn reverse_finish(&mut self, alloc: Global)
    where
        S: Drop,
        ensures context { self.new.context ≡ self.old.context }
        ensures state { self.new.state
            ≡ moved S.rule self.old.context self.old.state Move.ReverseFinish }
    {
        if let Some(depth) = self.depth().checked_sub(1) {
            self.back_to(alloc, depth);
        }
    }

    /// Removes the breakpoint of the state to which the session has come, if that is a temporary one.
    fn arrive(&mut self)
        ensures context { self.new.context ≡ self.old.context }
        ensures state { self.new.state
            ≡ come_to S.rule self.old.context self.old.state self.old.state.number }
    {
        let at = self.machine().at();
        if at.action == 0 && self.is_temporary(at.statement) && self.stop.meets(self.machine()) {
            self.breakpoint(u64::from(at.statement), false, false, None);
        }
    }

    /// Whether a statement has a temporary breakpoint.
    fn is_temporary(&self, statement: u16) -> bool
        ensures { result ≡ slice_index_or self.now.state.temporary statement false }
    {
        self.temporary
            .get(usize::from(statement))
            .copied()
            .unwrap_or(false)
    }

    /// Sets the breakpoint of a statement, at which one stops where a test is met.
    fn break_if(&mut self, statement: u64, test: &Test)
        ensures context { self.new.context ≡ self.old.context }
        ensures state { self.new.state
            ≡ changed self.old.state (Setting.BreakIf statement test.now) }
    {
        self.breakpoint(statement, true, false, copy_of(test));
    }

    /// Gives the breakpoint of a statement a test, or none, if it has a breakpoint.
    fn condition(&mut self, statement: u64, test: &Option<Test>)
        ensures context { self.new.context ≡ self.old.context }
        ensures state { self.new.state
            ≡ changed self.old.state (Setting.Condition statement test.now) }
    {
        if self.has_breakpoint(statement) {
            let test = match test {
                Some(test) => copy_of(test),
                None => None,
            };
            self.stop.set_test(statement, test);
        }
    }

    /// Sets the breakpoint of a statement, or removes it, makes it temporary or not, and gives it a test or
    /// none.
    fn breakpoint(
        &mut self,
        statement: u64,
        has_breakpoint: bool,
        is_temporary: bool,
        test: Option<Test>,
    )
        ensures context { self.new.context ≡ self.old.context }
        ensures state { self.new.state
            ≡ with_breakpoint statement has_breakpoint is_temporary test self.old.state }
    {
        self.stop.set_breakpoint(statement, has_breakpoint);
        self.stop.set_test(statement, test);
        if let Some(temporary) = self.temporary.get_mut(statement as usize) {
            *temporary = is_temporary;
        }
    }

    /// Removes all breakpoints, and watches nothing.
    fn delete_all(&mut self)
        ensures context { self.new.context ≡ self.old.context }
        ensures state { self.new.state
            ≡ changed self.old.state Setting.DeleteAll }
    {
        self.stop.clear();
        self.temporary.fill(false);
    }

    /// Watches a further chain or word, if there is room.
    fn watch(&mut self, watched: &Watched)
        ensures context { self.new.context ≡ self.old.context }
        ensures state { self.new.state
            ≡ changed self.old.state (Setting.Watch watched.now) }
    {
        if self.stop.watched().len() < MAX_WATCHED {
            if let Some(watched) = watched_like(watched) {
                self.stop.watch(watched);
            }
        }
    }

    /// Watches a word of the block to which an operand leads, if it can be followed and there is room.
    fn watch_word(&mut self, operand: &Operand, word: u16)
        ensures context { self.new.context ≡ self.old.context }
        ensures state { self.new.state ≡ word_watched self.old.state word
            (read (state_at S.rule self.old.context self.old.state.number).memory operand.now) }
    {
        if let Ok(place) = value_of(self.machine(), operand) {
            self.watch(&Watched::Word(BlockWord { place, word }));
        }
    }

    /// Watches what has this number no longer, from 1 on, if there is something.
    fn unwatch(&mut self, number: u64)
        ensures context { self.new.context ≡ self.old.context }
        ensures state { self.new.state
            ≡ changed self.old.state (Setting.Unwatch number) }
    {
        let index = number.saturating_sub(1);
        if index < self.stop.watched().len() as u64 {
            self.stop.unwatch(index as usize);
        }
    }

    /// Watches a chain or a word no longer, if it is watched.
    fn unwatch_this(&mut self, watched: &Watched)
        ensures context { self.new.context ≡ self.old.context }
        ensures state { self.new.state
            ≡ changed self.old.state (Setting.UnwatchThis watched.now) }
    {
        let number = number_of_watched(self.stop.watched(), watched);
        self.unwatch(number);
    }

    /// Displays a further chain, if there is room.
    fn display(&mut self, chain: &Chain)
        ensures context { self.new.context ≡ self.old.context }
        ensures state { self.new.state
            ≡ changed self.old.state (Setting.Display chain.now) }
    {
        if self.displayed.len() < MAX_DISPLAYED {
            if let Ok(chain) = chain.clone() {
                let _ = self.displayed.push(chain);
            }
        }
    }

    /// Displays the chain of this number no longer, from 1 on, if there is one.
    fn undisplay(&mut self, number: u64)
        ensures context { self.new.context ≡ self.old.context }
        ensures state { self.new.state
            ≡ changed self.old.state (Setting.Undisplay number) }
    {
        let index = number.saturating_sub(1);
        if index < self.displayed.len() as u64 {
            self.displayed.remove(index as usize);
        }
    }

    /// Displays a chain no longer, if it is displayed.
    fn undisplay_chain(&mut self, chain: &Chain)
        ensures context { self.new.context ≡ self.old.context }
        ensures state { self.new.state
            ≡ changed self.old.state (Setting.UndisplayChain chain.now) }
    {
        let number = number_in(self.displayed.as_slice(), chain);
        self.undisplay(number);
    }
}

/// A copy of what is watched, which takes no memory.
pub(crate) fn watched_like(watched: &Watched) -> Option<Watched>
    ensures { result ≡ Some watched.now }
{
    match watched {
        Watched::Chain(chain) => Some(Watched::Chain(chain.clone().ok()?)),
        Watched::Word(word) => Some(Watched::Word(*word)),
    }
}

/// A copy of a test, which takes no memory.
pub(crate) fn copy_of(test: &Test) -> Option<Test>
    ensures { result ≡ Some test.now }
{
    let operand = match &test.operand {
        Operand::Chain(chain) => Operand::Chain(chain.clone().ok()?),
        Operand::Number(word) => Operand::Number(*word),
    };
    Some(Test {
        comparison: test.comparison,
        chain: test.chain.clone().ok()?,
        operand,
    })
}
