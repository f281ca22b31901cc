//! The way into a call of the statement at which the run stands.

ghost use Rattle.std.specs.Prelude.{◌≡◌, ◌++◌, length, IfOk};
ghost use Rattle.l6_dap.specs.Entering as spec;
ghost use Rattle.l6_dap.specs.Printed.{printed_by, sent, unsent};
ghost use Rattle.l6_dap.specs.Runs.{debugged_into};
ghost use Rattle.l6_session.specs.declared.command.Move.TheVariants.{Next as OverOne};

use crate::debuggee::Debuggee;
use crate::events::Events;
use crate::standing::{Why, print, stopped};
use l6_history::{differ, values_of};
use l6_machine::Machine;
use l6_rpc::OutOfMemory;
use l6_session::{Command, Move, Session};
use l6_steps::Position;
use l6_store::Buddy;
use l6_word::Word;
use std::alloc::Global;

/// Goes into the call by the action of a number, and says where that is.
pub(crate) fn go_into(
    alloc: Global,
    events: &mut Events,
    debuggee: &mut Debuggee,
    action: u64,
) -> Result<(), OutOfMemory>
    ensures moves { IfOk result (λ it. debuggee.new ≡ sent (debugged_into debuggee.old action)) }
    ensures prints { IfOk result (λ it. printed_by events.new
        ≡ printed_by events.old ++ unsent (debugged_into debuggee.old action)) }
{
    let here = debuggee.session.machine().at().action;
    enter(
        alloc,
        &mut debuggee.session,
        action.saturating_sub(u64::from(here)),
    );
    print(alloc, events, debuggee)?;
    stopped(alloc, events, debuggee, Why::Step)
}

/// Goes on over so many actions of the statement, and then into the call. The run stands where an action leads elsewhere,
/// or where it stops before.
fn enter(alloc: Global, session: &mut Session<Buddy>, actions: u64)
    ensures { session.new ≡ spec.into_call actions session.old }
{
    for _ in 0..actions {
        if !is_on_its_way(alloc, session) {
            return;
        }
    }
    session.obey(alloc, &Command::Move(Move::Step(1)));
}

/// Goes on over an action. Answers whether the run then is at the next one, in the same call, and no watch stops it there.
fn is_on_its_way(alloc: Global, session: &mut Session<Buddy>) -> bool
    ensures moved { session.new ≡ spec.after_move session.old (OverOne 1) }
    ensures answer { result ≡ spec.is_on_its_way session.old session.new }
{
    let machine = session.machine();
    let (at, returns) = (machine.at(), machine.depths().returns);
    let values = values_of(session.stop(), machine);
    session.obey(alloc, &Command::Move(Move::Next(1)));
    is_there(session, at, returns, values.as_slice())
}

/// Whether a session is at the action after a position, with so many calls waiting, and what is watched reads as these
/// values still.
fn is_there(session: &Session<Buddy>, at: Position, returns: usize, values: &[Option<Word>]) -> bool
    ensures { result ≡ spec.is_there session.now at returns values.now }
{
    let machine = session.machine();
    is_after(machine, at, returns) && !differ(values, session.stop().watched(), machine)
}

/// Whether a machine is at the action after a position, with so many calls waiting.
fn is_after(machine: &Machine<Buddy>, at: Position, returns: usize) -> bool
    ensures { result ≡ spec.is_after machine.now.configuration.state at returns }
{
    let now = machine.at();
    now.statement == at.statement
        && usize::from(now.action) == usize::from(at.action) + 1
        && machine.depths().returns == returns
}
