//! What is asked of a run that is launched.

ghost use Rattle.std.specs.Prelude.{◌≡◌, ◌++◌, false, codes, IfOk};
ghost use Rattle.std.specs.Option.{option_map};
ghost use Rattle.serde_json.specs.View.{view};
ghost use Rattle.l6_dap.specs.Launching.{begun};
ghost use Rattle.l6_dap.specs.Printed.{printed_by, sent, unsent};
ghost use Rattle.l6_dap.specs.Runs as spec;
ghost use Rattle.l6_dap.specs.Showing.{Shows};
ghost use Rattle.l6_dap.specs.Values as values;
ghost use Rattle.l6_dap.specs.Variables.{variables_of};
ghost use Rattle.l6_dap.specs.inner.Asked.{arguments_of, nodes_of, outcome_of, outcome_or};

use crate::answer::{Answer, refused};
use crate::breakpoints::{Kind, set_breakpoints};
use crate::debuggee::Debuggee;
use crate::evaluating::evaluated;
use crate::events::Events;
use crate::frames::stack_trace;
use crate::moves::goes_on;
use crate::nodes::Nodes;
use crate::request::Request;
use crate::scopes::scopes;
use crate::standing::{Why, ended, exception_info, print, stopped, why_of};
use crate::targets::targets_shown;
use crate::values::values_of;
use crate::variables::variables_of;
use crate::watches::{set_watches, watch_info};
use l6_machine::Machine;
use l6_rpc::OutOfMemory;
use l6_session::{Command, Move};
use l6_store::Buddy;
use serde_json::{Value, json};
use std::alloc::{AllocError, Global};

/// What is said of a request that is not known.
const NO_REQUEST: &str = "there is no such request";

/// What is said of an expression that reads as nothing.
const NOT_READ: &str = "this is no chain and no number, or the chain can't be followed";

/// Does what a request asks of a run that is no move.
pub(crate) fn debug(
    alloc: Global,
    events: &mut Events,
    debuggee: &mut Debuggee,
    nodes: &mut Nodes,
    request: Request<'_>,
) -> Result<Answer, OutOfMemory>
    ensures serves { IfOk result (λ it. spec.Serves request.entry.command.now (arguments_of request.entry)
        debuggee.old debuggee.new nodes.old nodes.new (outcome_of it)) }
    ensures keeps { IfOk result (λ it. spec.may_change request.entry.command.now ≡ false →
        debuggee.new ≡ debuggee.old) }
    ensures begins { IfOk result (λ it. request.entry.command.now ≡ codes "configurationDone" →
        (debuggee.new ≡ sent (begun debuggee.old))
        × (printed_by events.new ≡ printed_by events.old ++ unsent (begun debuggee.old))) }
    ensures prints { IfOk result (λ it. spec.begins_a_run request.entry.command.now ≡ false →
        printed_by events.new ≡ printed_by events.old) }
{
    match request.command {
        "configurationDone" => {
            begin(alloc, events, debuggee)?;
            Ok(Answer::Done)
        }
        "pause" => {
            // each request is answered before the next one is read, so the run stands already
            stopped(alloc, events, debuggee, Why::Pause)?;
            Ok(Answer::Done)
        }
        "terminate" => {
            ended(alloc, events, debuggee)?;
            Ok(Answer::Done)
        }
        _ => set(alloc, debuggee, nodes, request),
    }
}

/// Sets what a request asks for, or shows what it asks for.
fn set(
    alloc: Global,
    debuggee: &mut Debuggee,
    nodes: &mut Nodes,
    request: Request<'_>,
) -> Result<Answer, OutOfMemory>
    ensures serves { IfOk result (λ it. spec.Serves request.entry.command.now (arguments_of request.entry)
        debuggee.old debuggee.new nodes.old nodes.new (outcome_of it)) }
    ensures keeps { IfOk result (λ it. spec.may_change request.entry.command.now ≡ false →
        debuggee.new ≡ debuggee.old) }
{
    match request.command {
        "setBreakpoints" => {
            let said = set_breakpoints(alloc, debuggee, Kind::OnCards, request)?;
            Ok(Answer::Body(said))
        }
        "setFunctionBreakpoints" => {
            let said = set_breakpoints(alloc, debuggee, Kind::OnLabels, request)?;
            Ok(Answer::Body(said))
        }
        "setDataBreakpoints" => Ok(Answer::Body(set_watches(alloc, debuggee, request)?)),
        _ => show(alloc, debuggee, nodes, request),
    }
}

/// Shows what a request asks for.
fn show(
    alloc: Global,
    debuggee: &Debuggee,
    nodes: &mut Nodes,
    request: Request<'_>,
) -> Result<Answer, OutOfMemory>
    ensures { IfOk result (λ it. Shows debuggee.now.names debuggee.now.run nodes.old nodes.new
        request.entry.command.now (arguments_of request.entry) (outcome_of it)) }
{
    let machine = debuggee.session.machine();
    match request.command {
        "dataBreakpointInfo" => Ok(Answer::Body(watch_info(alloc, nodes, request)?)),
        "stackTrace" => Ok(Answer::Body(stack_trace(alloc, debuggee, request)?)),
        "stepInTargets" => Ok(Answer::Body(targets_shown(alloc, debuggee, request)?)),
        "scopes" => Ok(Answer::Body(scopes(alloc, nodes, machine)?)),
        "evaluate" => {
            let text = request.text("expression").unwrap_or("");
            let read = evaluated(alloc, machine, nodes, text.as_bytes())?;
            answer_or(alloc, read, NOT_READ)
        }
        "variables" => {
            let number = request.number("variablesReference").unwrap_or(0);
            let shown = variables(alloc, machine, nodes, number)?;
            answer_or(alloc, shown, "there are no such variables")
        }
        "exceptionInfo" => {
            let shown = exception_info(alloc, debuggee)?;
            answer_or(alloc, shown, "the run has not trapped")
        }
        _ => refused(alloc, NO_REQUEST),
    }
}

/// The variables of the node of a number, if there is one.
fn variables(
    alloc: Global,
    machine: &Machine<Buddy>,
    nodes: &mut Nodes,
    number: u64,
) -> Result<Option<Value>, OutOfMemory>
    ensures value { IfOk result (λ it. option_map view it
        ≡ option_map (λ node. values.answered machine.now.context.parameters.units
        machine.now.configuration.state.memory nodes.old
        (variables_of machine.now.configuration.state.memory node))
        (values.node_of nodes.old number)) }
    ensures nodes { IfOk result (λ it. nodes.new ≡ nodes_of
        machine.now.configuration.state.memory (values.node_of nodes.old number) nodes.old) }
{
    let Some(node) = nodes.get(number) else {
        return Ok(None);
    };
    let list = variables_of(alloc, machine, node)?;
    let shown = values_of(alloc, machine, nodes, list.as_slice())?;
    Ok(Some(variables_body(alloc, shown)?))
}

/// What is answered, where these are the variables.
fn variables_body(alloc: Global, shown: Value) -> Result<Value, AllocError>
    ensures { IfOk result (λ it. view it ≡ values.body_of (view shown)) }
{
    json!(in alloc; {"variables": shown})
}

/// The answer with a body, or, where there is none, a refusal for this reason.
fn answer_or(alloc: Global, body: Option<Value>, why: &str) -> Result<Answer, OutOfMemory>
    ensures { IfOk result (λ it. outcome_of it ≡ outcome_or why.now (option_map view body)) }
{
    match body {
        None => refused(alloc, why),
        Some(body) => Ok(Answer::Body(body)),
    }
}

/// Goes where a move leads, and says where that is. A move on from the end ends the session.
pub(crate) fn go(
    alloc: Global,
    events: &mut Events,
    debuggee: &mut Debuggee,
    to: Move,
) -> Result<(), OutOfMemory>
    ensures moves { IfOk result (λ it. debuggee.new ≡ sent (spec.debugged_after debuggee.old to)) }
    ensures prints { IfOk result (λ it. printed_by events.new
        ≡ printed_by events.old ++ unsent (spec.debugged_after debuggee.old to)) }
{
    let is_over = goes_on(to) && debuggee.session.machine().is_last();
    debuggee.session.obey(alloc, &Command::Move(to));
    print(alloc, events, debuggee)?;
    if is_over {
        ended(alloc, events, debuggee)
    } else {
        stopped(alloc, events, debuggee, why_of(to))
    }
}

/// What is answered to a request of a move, once it is made.
pub(crate) fn moved_body(
    alloc: Global,
    debuggee: &Debuggee,
    command: &str,
) -> Result<Value, OutOfMemory> {
    if command != "evaluate" {
        return Ok(json!(in alloc; {"allThreadsContinued": true})?);
    }
    let number = debuggee.session.history().number();
    let said = Value::String(format!(in alloc; "state {number}")?);
    Ok(json!(in alloc; {"result": said, "variablesReference": 0})?)
}

/// Begins the run, once all is configured: it goes to its end, or on to where one stops first, or stays where it stands.
pub(crate) fn begin(
    alloc: Global,
    events: &mut Events,
    debuggee: &mut Debuggee,
) -> Result<(), OutOfMemory>
    ensures moves { IfOk result (λ it. debuggee.new ≡ sent (begun debuggee.old)) }
    ensures prints { IfOk result (λ it. printed_by events.new
        ≡ printed_by events.old ++ unsent (begun debuggee.old)) }
{
    move_first(alloc, debuggee);
    print(alloc, events, debuggee)?;
    if debuggee.launch.is_run_only {
        return ended(alloc, events, debuggee);
    }
    let why = match debuggee.launch.stops_on_entry {
        true => Why::Entry,
        false => Why::Stop,
    };
    stopped(alloc, events, debuggee, why)
}

/// Makes the move by which the run begins, if it begins by one.
fn move_first(alloc: Global, debuggee: &mut Debuggee)
    ensures { debuggee.new ≡ begun debuggee.old }
{
    if let Some(to) = debuggee.first_move() {
        debuggee.session.obey(alloc, &Command::Move(to));
    }
}
