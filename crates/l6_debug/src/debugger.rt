//! The debugger: a session at the states of a run.

ghost use Rattle.std.specs.Prelude.{◌≡◌, slice_set, IfOk};
ghost use Rattle.l6_steps.specs.Configuration.{first_configuration};
ghost use Rattle.l6_history.specs.History.{number_to, run_state_at};
ghost use Rattle.l6_debug.specs.DebuggerState.{after, first_debugger_state, next_breakpoint};

use crate::command::Command;
use l6_history::{History, Stop};
use l6_machine::Machine;
use l6_store::Places;
use std::alloc::{AllocError, Global};
use std::marker::Model;

/// A session: a state of a run, and for each statement of the program whether it has a breakpoint,
/// by which alone it stops.
#[derive(Drop)]
pub(crate) struct Debugger<S: Places> {
    history: History<S>,
    stop: Stop,
}

impl<S: Places> Model for Debugger<S> {
    ghost use Rattle.std.specs.Coded.{codes};
    ghost use Rattle.std.specs.Prelude.{◌≡◌};
    ghost use Rattle.l6_debug.specs.inner.DebuggerRun.{DebuggerRun, stop_at};

    ghost Value = { DebuggerRun };

    ghost coded = { Prim.hlevel (codes) };

    ghost view = { λ debugger. record {
      context = debugger.history.context;
      debugger_state = record { number = debugger.history.number; breakpoints = debugger.stop.breakpoints };
    } };

    ghost invariant = { λ debugger. debugger.stop ≡ stop_at debugger.stop.breakpoints };
}

impl<S: Places> Debugger<S> {
    /// A session at the start, in which no statement has a breakpoint. The caller owes a machine
    /// that is there.
    pub(crate) fn new(alloc: Global, machine: Machine<S>) -> Result<Self, AllocError>
    where
        S: Drop,
        requires { machine.configuration ≡ first_configuration S.rule machine.context }
        ensures context { IfOk result (λ debugger. debugger.context ≡ machine.context) }
        ensures debugger_state { IfOk result (λ debugger.
            debugger.debugger_state ≡ first_debugger_state machine.context) }
    {
        let stop = Stop::new(alloc, machine.program().statements().len())?;
        Ok(Debugger {
            history: History::new(alloc, machine),
            stop,
        })
    }

    /// The machine, at the state of the session.
    pub(crate) fn machine(&self) -> &Machine<S>
        ensures { result.now ≡ run_state_at S.rule self.now.context self.now.debugger_state.number }
    {
        self.history.machine()
    }

    /// Goes where a command leads.
    pub(crate) fn obey(&mut self, alloc: Global, command: Command)
    where
        S: Drop,
        ensures context { self.new.context ≡ self.old.context }
        ensures debugger_state { self.new.debugger_state
            ≡ after S.rule self.old.context self.old.debugger_state command }
    {
        let number = self.history.number();
        match command {
            Command::Step(count) => self.go_to(alloc, number.saturating_add(count)),
            Command::Go => self.go(alloc),
            Command::Back(count) => self.go_to(alloc, number.saturating_sub(count)),
            Command::Break(statement) => self.breakpoint(statement, true),
            Command::Clear(statement) => self.breakpoint(statement, false),
            _ => {}
        }
    }

    /// Goes to the state of a number, or to the last one where that comes first.
    fn go_to(&mut self, alloc: Global, number: u64)
    where
        S: Drop,
        ensures context { self.new.context ≡ self.old.context }
        ensures debugger_state { self.new.debugger_state ≡ record self.old.debugger_state {
          number = number_to S.rule self.old.context number;
        } }
    {
        self.history.to(alloc, number);
    }

    /// Goes to the first later state that is at a statement with a breakpoint, or to the last one.
    fn go(&mut self, alloc: Global)
    where
        S: Drop,
        ensures context { self.new.context ≡ self.old.context }
        ensures debugger_state { self.new.debugger_state ≡ record self.old.debugger_state {
          number = next_breakpoint S.rule self.old.context self.old.debugger_state;
        } }
    {
        self.history.to_next(alloc, &self.stop);
    }

    /// Sets the breakpoint of a statement, or removes it, if there is such a statement.
    fn breakpoint(&mut self, statement: u64, has_breakpoint: bool)
        ensures context { self.new.context ≡ self.old.context }
        ensures debugger_state { self.new.debugger_state ≡ record self.old.debugger_state {
          breakpoints = slice_set self.old.debugger_state.breakpoints statement has_breakpoint;
        } }
    {
        self.stop.set_breakpoint(statement, has_breakpoint);
    }
}
