//! The calls of the statement at which the run stands into which an editor may step.

ghost use Rattle.std.specs.Prelude.{◌≡◌, ◌<◌, ◌^◌, map, IfOk};
ghost use Rattle.serde_json.specs.View.{view};
ghost use Rattle.l6_dap.specs.Showing.{state_of};
ghost use Rattle.l6_dap.specs.Targets as spec;
ghost use Rattle.l6_dap.specs.inner.Asked.{arguments_of};

use crate::debuggee::Debuggee;
use crate::frames::place_text;
use crate::request::Request;
use crate::values::said;
use l6_asm::Labels;
use l6_machine::{Machine, Position, push_decimal};
use l6_prog::Op;
use l6_rpc::OutOfMemory;
use l6_store::Buddy;
use serde_json::{Value, json};
use std::alloc::{AllocError, Global};

/// A call of a statement.
#[derive(Clone, Copy, Debug, PartialEq, Eq)]
pub(crate) struct Target {
    /// The number of its action.
    pub(crate) action: usize,
    /// The statement that is called.
    pub(crate) called: u16,
}

/// The calls ahead in the frame that is asked for, as an editor shows them.
pub(crate) fn targets_shown(
    alloc: Global,
    debuggee: &Debuggee,
    request: Request<'_>,
) -> Result<Value, OutOfMemory>
    ensures { IfOk result (λ it. view it ≡ spec.targets_shown debuggee.now.names.labels
        (spec.calls_in_frame (spec.frame_in (arguments_of request.entry))
        debuggee.now.run.context (state_of debuggee.now.run))) }
{
    let frame = request.number("frameId").unwrap_or(0);
    let calls = calls_in_frame(alloc, debuggee.session.machine(), frame)?;
    let list = target_values(alloc, debuggee.names.labels(), calls.as_slice())?;
    Ok(targets_body(alloc, list)?)
}

/// The calls ahead in the frame of a number: the first one alone has some, since the others wait.
fn calls_in_frame(
    alloc: Global,
    machine: &Machine<Buddy>,
    frame: u64,
) -> Result<Vec<Target>, AllocError>
    ensures { IfOk result (λ it. it.items ≡ spec.calls_in_frame frame machine.now.context
        machine.now.configuration.state) }
{
    match frame {
        0 => calls_ahead(alloc, machine),
        _ => Ok(Vec::new(alloc)),
    }
}

/// Calls as they are shown.
fn target_values(
    alloc: Global,
    labels: &Labels,
    calls: &[Target],
) -> Result<Vec<Value>, OutOfMemory>
    ensures { IfOk result (λ it. map (λ target. view target) it.items
        ≡ map (spec.target_value labels.now.entries) calls.now) }
{
    let mut list = Vec::new(alloc);
    for call in calls {
        list.push(target_value(alloc, labels, *call)?)?;
    }
    Ok(list)
}

/// Whether there is a call ahead by the action of a number.
pub(crate) fn has_ahead(alloc: Global, debuggee: &Debuggee, action: u64) -> Result<bool, AllocError>
    ensures { IfOk result (λ it. it ≡ spec.is_ahead action debuggee.now.run.context (state_of debuggee.now.run)) }
{
    let calls = calls_ahead(alloc, debuggee.session.machine())?;
    Ok(calls.iter().any(|call| call.action as u64 == action))
}

/// The calls that are ahead in the statement at which a machine stands.
fn calls_ahead(alloc: Global, machine: &Machine<Buddy>) -> Result<Vec<Target>, AllocError>
    ensures { IfOk result (λ it. it.items
        ≡ spec.calls_ahead machine.now.context machine.now.configuration.state) }
{
    let at = machine.at();
    match machine
        .program()
        .statements()
        .get(usize::from(at.statement))
    {
        Some(statement) if !machine.is_last() => {
            calls_from(alloc, at.action, statement.operations())
        }
        _ => Ok(Vec::new(alloc)),
    }
}

/// The calls of operations, from the action of a number on.
fn calls_from(alloc: Global, action: u8, operations: &[Op]) -> Result<Vec<Target>, AllocError>
    ensures { IfOk result (λ it. it.items ≡ spec.calls_from action operations.now) }
{
    let action = usize::from(action);
    let rest = operations.get(action.saturating_sub(1)..).unwrap_or(&[]);
    calls_of(alloc, action.max(1), rest)
}

/// The calls of operations, of which the first is the action of this number.
fn calls_of(alloc: Global, action: usize, operations: &[Op]) -> Result<Vec<Target>, AllocError>
    requires { action < 2 ^ 8 }
    ensures { IfOk result (λ it. it.items ≡ spec.calls_of action operations.now) }
{
    let mut list = Vec::new(alloc);
    let mut rest = operations;
    let mut action = action;
    while let Some((operation, following)) = rest.split_first() {
        if let Op::Call(called, _) = operation {
            list.push(Target {
                action,
                called: *called,
            })?;
        }
        rest = following;
        action += 1;
    }
    Ok(list)
}

/// A call as it is shown.
fn target_value(alloc: Global, labels: &Labels, call: Target) -> Result<Value, OutOfMemory>
    ensures { IfOk result (λ it. view it ≡ spec.target_value labels.now.entries call) }
{
    let mut text = place_text(alloc, labels, Position::start_of(call.called))?;
    text.extend_from_slice(b", action ")?;
    push_decimal(&mut text, call.action as u64)?;
    let label = said(alloc, text.as_slice())?;
    Ok(labelled(alloc, call.action, label)?)
}

/// A call with this label.
fn labelled(alloc: Global, action: usize, label: Value) -> Result<Value, AllocError>
    ensures { IfOk result (λ it. view it ≡ spec.labelled action (view label)) }
{
    json!(in alloc; {"id": action, "label": label})
}

/// What is answered, where these are the calls.
fn targets_body(alloc: Global, list: Vec<Value>) -> Result<Value, AllocError>
    ensures { IfOk result (λ it. view it
        ≡ spec.targets_body (map (λ target. view target) list.items)) }
{
    let targets = Value::Array(list);
    json!(in alloc; {"targets": targets})
}
