//! The printout of a run: its output, and a line that says how it has ended.

ghost use Rattle.std.specs.Prelude.{◌≡◌, ◌++◌, true, OnOk, IfOk, ◌-◌, length, slice_get};
ghost use Rattle.l6_steps.specs.State.{is_last};
ghost use Rattle.l6_machine.specs.Printout.{ending_of, ending_text, ending_line, printout, lacks_line_feed, missing_line_feed};

use crate::decimal::push_decimal;
use crate::ending::Ending;
use crate::machine::Machine;
use l6_steps::{Halt, Position, Trap};
use l6_store::Places;
use std::alloc::{AllocError, Global};

/// How the machine's run has ended. The caller owes a last state.
pub fn ending_of<S: Places>(machine: &Machine<S>) -> Ending
    requires { is_last machine.now.context machine.now.configuration.state ≡ true }
    ensures { result ≡ ending_of machine.now.configuration.state.ending }
{
    match machine.ending() {
        None => Ending::Limit,
        Some(Halt::Done) => Ending::Done,
        Some(Halt::Fail) => Ending::Fail,
        Some(Halt::Trap(trap)) => Ending::Trap(trap),
    }
}

/// The line that says how the machine's run has ended, without a line feed. The caller owes a last
/// state.
///
/// # Errors
///
/// Memory ran out.
pub fn ending_line<S: Places>(alloc: Global, machine: &Machine<S>) -> Result<Vec<u8>, AllocError>
    requires { is_last machine.now.context machine.now.configuration.state ≡ true }
    ensures { IfOk result (λ line. line.items ≡ ending_line machine.now.configuration.state) }
{
    let mut line = Vec::from_slice(alloc, b"== ")?;
    push_ending(&mut line, ending_of(machine), machine.at())?;
    line.extend_from_slice(b" AFTER ")?;
    push_decimal(&mut line, machine.count())?;
    line.extend_from_slice(b" STEPS")?;
    Ok(line)
}

/// All that the machine's run prints. The caller owes a last state.
///
/// # Errors
///
/// Memory ran out.
pub fn printout<S: Places>(alloc: Global, machine: &Machine<S>) -> Result<Vec<u8>, AllocError>
    requires { is_last machine.now.context machine.now.configuration.state ≡ true }
    ensures { IfOk result (λ text. text.items ≡ printout machine.now.configuration.state) }
{
    let output = machine.output();
    let line = ending_line(alloc, machine)?;
    let mut text = Vec::with_capacity(alloc, output.len() + line.len() + 2)?;
    push_whole_lines(&mut text, output)?;
    text.extend_from_slice(line.as_slice())?;
    text.push(b'\n')?;
    Ok(text)
}

/// All that a machine's run prints, for which the machine is given up: so the output is not copied. The
/// caller owes a last state.
///
/// # Errors
///
/// Memory ran out.
pub fn into_printout<S: Places>(alloc: Global, machine: Machine<S>) -> Result<Vec<u8>, AllocError>
where
    S: Drop,
    requires { is_last machine.context machine.configuration.state ≡ true }
    ensures { IfOk result (λ text. text.items ≡ printout machine.configuration.state) }
{
    let line = ending_line(alloc, &machine)?;
    let mut text = machine.into_output();
    if lacks_line_feed(text.as_slice()) {
        text.push(b'\n')?;
    }
    text.extend_from_slice(line.as_slice())?;
    text.push(b'\n')?;
    Ok(text)
}

/// Adds an output, and the line feed that it lacks.
///
/// # Errors
///
/// Memory ran out.
pub fn push_whole_lines(text: &mut Vec<u8>, output: &[u8]) -> Result<(), AllocError>
    ensures { OnOk result
        (text.new.items ≡ text.old.items ++ (output.now ++ missing_line_feed output.now)) }
{
    text.extend_from_slice(output)?;
    if lacks_line_feed(output) {
        text.push(b'\n')?;
    }
    Ok(())
}

/// Whether a text has a last byte that is no line feed.
fn lacks_line_feed(text: &[u8]) -> bool
    ensures { result ≡ lacks_line_feed (slice_get text.now (length text.now - 1)) }
{
    match text.last() {
        Some(byte) => *byte != b'\n',
        None => false,
    }
}

/// Adds the text of an ending.
fn push_ending(line: &mut Vec<u8>, ending: Ending, at: Position) -> Result<(), AllocError>
    ensures { OnOk result (line.new.items ≡ line.old.items ++ ending_text ending at) }
{
    match ending {
        Ending::Done => line.extend_from_slice(b"DONE"),
        Ending::Fail => line.extend_from_slice(b"FAIL"),
        Ending::Trap(trap) => push_trap(line, trap, at),
        Ending::Limit => line.extend_from_slice(b"LIMIT"),
    }
}

/// Adds a trap, and where the run is.
fn push_trap(line: &mut Vec<u8>, trap: Trap, at: Position) -> Result<(), AllocError>
    ensures { OnOk result (line.new.items ≡ line.old.items ++ ending_text (Ending.Trap trap) at) }
{
    line.extend_from_slice(b"TRAP ")?;
    push_decimal(line, trap.number())?;
    line.push(b' ')?;
    line.extend_from_slice(trap.name().as_bytes())?;
    line.extend_from_slice(b" AT ")?;
    push_decimal(line, at.statement)?;
    line.push(b'.')?;
    push_decimal(line, at.action)
}
