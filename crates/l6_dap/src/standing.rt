//! What an editor is told once the run stands: what was printed, why it stands there, or that it is over.

ghost use Rattle.std.specs.Prelude.{◌≡◌, ◌≤◌, ◌++◌, [], length, drop, string_bytes, IfOk, Some};
ghost use Rattle.std.specs.Str.Lossy.{utf8_lossy};
ghost use Rattle.serde_json.specs.View.{view};
ghost use Rattle.l6_dap.specs.Printed as spec;

use crate::debuggee::Debuggee;
use crate::events::Events;
use l6_machine::{Ending, Halt, Trap, ending_line, ending_of};
use l6_rpc::OutOfMemory;
use l6_session::Move;
use serde_json::{Value, json};
use std::alloc::{AllocError, Global};

/// Why one asked for the run to stand.
#[derive(Clone, Copy, Debug, PartialEq, Eq)]
pub(crate) enum Why {
    /// It begins.
    Entry,
    /// It went on or back to where one stops.
    Stop,
    /// It made a step.
    Step,
    /// It came to a state that was asked for.
    Goto,
    /// It was asked to pause.
    Pause,
}

/// Why the run stands after a move.
pub(crate) fn why_of(to: Move) -> Why {
    match to {
        Move::Continue(_) | Move::ReverseContinue(_) => Why::Stop,
        Move::Goto(_) => Why::Goto,
        _ => Why::Step,
    }
}

/// Sends what of the printout was not sent yet.
pub(crate) fn print(
    alloc: Global,
    events: &mut Events,
    debuggee: &mut Debuggee,
) -> Result<(), OutOfMemory>
    ensures sent { IfOk result (λ it. debuggee.new ≡ spec.sent debuggee.old) }
    ensures printed { IfOk result (λ it. spec.printed_by events.new
        ≡ spec.printed_by events.old ++ spec.unsent debuggee.old) }
{
    let output = debuggee.session.machine().output();
    if output.len() <= debuggee.printed {
        return Ok(());
    }
    let text = text_since(alloc, output, debuggee.printed)?;
    debuggee.printed = output.len();
    events.tell(alloc, "output", printed_body(alloc, text.as_str())?)
}

/// The text of a printout after so many of its bytes.
fn text_since(alloc: Global, output: &[u8], printed: usize) -> Result<String, AllocError>
    requires { printed ≤ length output.now }
    ensures { IfOk result (λ text. string_bytes text ≡ utf8_lossy (drop printed output.now)) }
{
    String::from_utf8_lossy(alloc, &output[printed..])
}

/// The body of an event of what the run has printed.
fn printed_body(alloc: Global, text: &str) -> Result<Value, AllocError>
    ensures { IfOk result (λ it. spec.printed_by_body (Some (view it)) ≡ text.now) }
{
    json!(in alloc; {"category": "stdout", "output": text})
}

/// The body of an event of what is said of the run.
fn console_body(alloc: Global, text: Value) -> Result<Value, AllocError>
    ensures { IfOk result (λ it. spec.printed_by_body (Some (view it)) ≡ []) }
{
    json!(in alloc; {"category": "console", "output": text})
}

/// Says that the run stands, and why.
pub(crate) fn stopped(
    alloc: Global,
    events: &mut Events,
    debuggee: &Debuggee,
    why: Why,
) -> Result<(), OutOfMemory>
    ensures { IfOk result (λ it. spec.printed_by events.new ≡ spec.printed_by events.old) }
{
    let machine = debuggee.session.machine();
    let body = match machine.ending() {
        Some(Halt::Trap(trap)) => {
            let name = trap.name();
            json!(in alloc; {"reason": "exception", "description": "trap", "text": name,
                "threadId": 1, "allThreadsStopped": true})?
        }
        _ if machine.is_last() => {
            let text = ending_text(alloc, debuggee)?;
            json!(in alloc; {"reason": "end", "description": text,
                "threadId": 1, "allThreadsStopped": true})?
        }
        _ => {
            let reason = reason_of(debuggee, why);
            json!(in alloc; {"reason": reason, "threadId": 1, "allThreadsStopped": true})?
        }
    };
    events.tell(alloc, "stopped", body)
}

/// The protocol's word for why the run stands at a state that is not the last one.
fn reason_of(debuggee: &Debuggee, why: Why) -> &'static str {
    match why {
        Why::Entry => "entry",
        Why::Step => "step",
        Why::Goto => "goto",
        Why::Pause => "pause",
        Why::Stop if debuggee.stops_here() => "breakpoint",
        Why::Stop if debuggee.session.history().number() == 0 => "entry",
        Why::Stop => "data breakpoint",
    }
}

/// Says how the run has ended, and that it is over.
pub(crate) fn ended(
    alloc: Global,
    events: &mut Events,
    debuggee: &Debuggee,
) -> Result<(), OutOfMemory>
    ensures { IfOk result (λ it. spec.printed_by events.new ≡ spec.printed_by events.old) }
{
    let machine = debuggee.session.machine();
    if machine.is_last() {
        let line = ending_line(alloc, machine)?;
        let line = String::from_utf8_lossy(alloc, line.as_slice())?;
        let line = line.as_str();
        let text = Value::String(format!(in alloc; "{line}\n")?);
        events.tell(alloc, "output", console_body(alloc, text)?)?;
        let status = status_of(ending_of(machine));
        events.tell(alloc, "exited", json!(in alloc; {"exitCode": status})?)?;
    }
    events.tell_plainly(alloc, "terminated")
}

/// The exit status that `l6 run` has for an ending.
fn status_of(ending: Ending) -> u8 {
    match ending {
        Ending::Done => 0,
        Ending::Fail => 1,
        Ending::Trap(_) => 2,
        Ending::Limit => 3,
    }
}

/// The line that says how the run has ended, or nothing where it has not.
fn ending_text(alloc: Global, debuggee: &Debuggee) -> Result<Value, AllocError> {
    let machine = debuggee.session.machine();
    if !machine.is_last() {
        return Ok(Value::Null);
    }
    let line = ending_line(alloc, machine)?;
    Ok(Value::String(String::from_utf8_lossy(alloc, line.as_slice())?))
}

/// What is said of the trap by which the run has ended, if it has ended by one.
pub(crate) fn exception_info(
    alloc: Global,
    debuggee: &Debuggee,
) -> Result<Option<Value>, OutOfMemory> {
    let Some(trap) = trap_of(debuggee) else {
        return Ok(None);
    };
    let name = trap.name();
    let text = ending_text(alloc, debuggee)?;
    Ok(Some(json!(in alloc; {"exceptionId": name, "description": text, "breakMode": "always"})?))
}

/// The trap by which the run has ended.
fn trap_of(debuggee: &Debuggee) -> Option<Trap> {
    match debuggee.session.machine().ending()? {
        Halt::Trap(trap) => Some(trap),
        _ => None,
    }
}
