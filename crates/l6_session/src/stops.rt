//! What is answered where a session stops.

ghost use Rattle.std.specs.Prelude.{◌≡◌, ◌++◌, OnOk};
ghost use Rattle.l6_steps.specs.Condition.{holds};
ghost use Rattle.l6_steps.specs.Configuration.{state_at};
ghost use Rattle.l6_steps.specs.Locus.{read};
ghost use Rattle.l6_session.specs.Stops as spec;

use crate::before::Before;
use crate::names::Names;
use crate::reports::{push_displayed, test_at};
use crate::seen::Seen;
use crate::session::Session;
use crate::text::{push_label, push_test};
use l6_machine::{Halt, Machine, Position, Trap, ending_line, push_decimal};
use l6_marks::push_details;
use l6_prog::{Operand, Test};
use l6_store::Places;
use l6_word::Word;
use std::alloc::{AllocError, Global};

/// What is said where a command stays at the start.
const START: &[u8] = b"      This is the start: nothing comes before\n";

/// What is said where it stays at another state.
const STAYS: &[u8] = b"      The session stays here\n";

/// Adds the line of a state, and its details, unless the run has come to its end there.
pub(crate) fn push_place<S: Places>(
    alloc: Global,
    text: &mut Vec<u8>,
    machine: &Machine<S>,
    names: &Names,
) -> Result<(), AllocError>
    ensures { OnOk result (text.new.items ≡ text.old.items ++ spec.place_text
        names.now machine.now.context machine.now.configuration.state) }
{
    push_state(alloc, text, machine)?;
    match machine.ending() {
        Some(Halt::Done) | Some(Halt::Fail) => text.extend_from_slice(b"\n"),
        ending => push_rest(text, machine, names, ending),
    }
}

/// Adds the label of a state that has not come to its end, or has by this trap, and its details.
fn push_rest<S: Places>(
    text: &mut Vec<u8>,
    machine: &Machine<S>,
    names: &Names,
    ending: Option<Halt>,
) -> Result<(), AllocError>
    ensures { OnOk result (text.new.items ≡ text.old.items ++ spec.with_details
        names.now machine.now.context machine.now.configuration.state ending) }
{
    push_label(text, u64::from(machine.at().statement), names.labels())?;
    text.extend_from_slice(b"\n")?;
    push_details(text, names.deck(), machine.program(), machine.at(), ending)
}

/// Adds where a state is, or how the run has ended.
fn push_state<S: Places>(
    alloc: Global,
    text: &mut Vec<u8>,
    machine: &Machine<S>,
) -> Result<(), AllocError>
    ensures { OnOk result (text.new.items ≡ text.old.items
        ++ spec.state_text machine.now.context machine.now.configuration.state) }
{
    if machine.is_last() {
        return text.extend_from_slice(ending_line(alloc, machine)?.as_slice());
    }
    push_at(text, machine.at())?;
    push_after(text, machine.count())
}

/// Adds where a state is.
fn push_at(text: &mut Vec<u8>, at: Position) -> Result<(), AllocError>
    ensures { OnOk result (text.new.items ≡ text.old.items ++ spec.at_text at) }
{
    text.extend_from_slice(b"AT ")?;
    push_decimal(text, at.statement)?;
    text.extend_from_slice(b".")?;
    push_decimal(text, at.action)
}

/// Adds after how many steps a state is.
fn push_after(text: &mut Vec<u8>, count: u64) -> Result<(), AllocError>
    ensures { OnOk result (text.new.items ≡ text.old.items ++ spec.steps_text count) }
{
    text.extend_from_slice(b" AFTER ")?;
    push_decimal(text, count)?;
    text.extend_from_slice(b" STEPS")
}

/// Adds where a session has stopped, what has changed since it stopped before, and what is displayed.
pub(crate) fn push_stop<S: Places>(
    alloc: Global,
    text: &mut Vec<u8>,
    session: &Session<S>,
    names: &Names,
    seen: &Seen,
    before: Before,
) -> Result<(), AllocError>
    ensures { OnOk result (text.new.items ≡ text.old.items ++ spec.stop_text names.now
        session.now.context (state_at S.rule session.now.context session.now.state.number)
        session.now.state before.number seen.now) }
{
    let machine = session.machine();
    push_place(alloc, text, machine, names)?;
    push_test_at(text, machine, session.stop().tests())?;
    push_stay(text, before.number, session.history().number())?;
    seen.push_changes(text, machine, session.stop().watched())?;
    push_displayed(text, machine, session.displayed())
}

/// Adds that the test of the breakpoint there meets a trap, if it does.
fn push_test_at<S: Places>(
    text: &mut Vec<u8>,
    machine: &Machine<S>,
    tests: &[Option<Test>],
) -> Result<(), AllocError>
    ensures { OnOk result (text.new.items ≡ text.old.items
        ++ spec.test_at_text tests.now machine.now.configuration.state) }
{
    let at = machine.at();
    if at.action != 0 {
        return Ok(());
    }
    match test_at(tests, u64::from(at.statement)) {
        Some(test) => push_tested(text, machine, test),
        None => Ok(()),
    }
}

/// Adds that a test meets a trap, if it does.
fn push_tested<S: Places>(
    text: &mut Vec<u8>,
    machine: &Machine<S>,
    test: &Test,
) -> Result<(), AllocError>
    ensures { OnOk result (text.new.items ≡ text.old.items ++ spec.trapped_text test.now
        (holds test.now machine.now.configuration.state.memory)) }
{
    match (machine.value(&test.chain), value_of(machine, &test.operand)) {
        (Ok(_), Ok(_)) => Ok(()),
        _ => push_trapped(text, test),
    }
}

/// What an operand reads as.
pub(crate) fn value_of<S: Places>(machine: &Machine<S>, operand: &Operand) -> Result<Word, Trap>
    ensures { result ≡ read machine.now.configuration.state.memory operand.now }
{
    match operand {
        Operand::Chain(chain) => machine.value(chain),
        Operand::Number(word) => Ok(*word),
    }
}

/// Adds that a test meets a trap.
fn push_trapped(text: &mut Vec<u8>, test: &Test) -> Result<(), AllocError>
    ensures { OnOk result (text.new.items ≡ text.old.items ++ spec.met_text test.now) }
{
    text.extend_from_slice(b"      the test ")?;
    push_test(text, test)?;
    text.extend_from_slice(b" meets a trap\n")
}

/// Adds that the session stays at the state of this number, if it does.
fn push_stay(text: &mut Vec<u8>, before: u64, now: u64) -> Result<(), AllocError>
    ensures { OnOk result (text.new.items ≡ text.old.items ++ spec.stay_text before now) }
{
    if now != before {
        return Ok(());
    }
    if now == 0 {
        text.extend_from_slice(START)
    } else {
        text.extend_from_slice(STAYS)
    }
}
