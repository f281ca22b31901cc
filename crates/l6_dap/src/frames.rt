//! The calls that wait, as an editor's stack.

ghost use Rattle.std.specs.Prelude.{◌≡◌, ◌+◌, ◌<◌, ◌^◌, map, drop, length, IfOk};
ghost use Rattle.serde_json.specs.View.{view};
ghost use Rattle.l6_dap.specs.Frames as spec;
ghost use Rattle.l6_dap.specs.Showing.{state_of};
ghost use Rattle.l6_dap.specs.inner.Asked.{arguments_of};

use crate::debuggee::Debuggee;
use crate::marks::{Marks, marks_in};
use crate::paths::file_name;
use crate::request::Request;
use crate::values::said;
use l6_asm::Labels;
use l6_machine::{Machine, Position, push_decimal};
use l6_marks::push_details;
use l6_rpc::OutOfMemory;
use l6_session::nearest_label;
use l6_store::Buddy;
use serde_json::{Value, json};
use std::alloc::{AllocError, Global};

/// Where the run is, and where the calls go on that wait, the latest first: as many as are asked for.
pub(crate) fn stack_trace(
    alloc: Global,
    debuggee: &Debuggee,
    request: Request<'_>,
) -> Result<Value, OutOfMemory>
    ensures { IfOk result (λ it. spec.IsStack debuggee.now.names.labels (state_of debuggee.now.run)
        (arguments_of request.entry) (view it)) }
{
    let positions = positions_of(alloc, debuggee.session.machine())?;
    let first = request.number("startFrame").unwrap_or(0);
    let levels = request.number("levels");
    let part = part_of(alloc, debuggee, positions.as_slice(), first, levels)?;
    Ok(part)
}

/// The frames of positions from one of a number on, as many as are wanted.
fn part_of(
    alloc: Global,
    debuggee: &Debuggee,
    positions: &[Position],
    first: u64,
    levels: Option<u64>,
) -> Result<Value, OutOfMemory>
    ensures { IfOk result (λ it. spec.IsPart debuggee.now.names.labels positions.now first levels
        (view it)) }
{
    let part = wanted(wanted_from(positions, first), levels);
    let frames = frames(alloc, debuggee, first, part)?;
    Ok(stack_body(alloc, frames, positions.len())?)
}

/// Positions after so many.
fn wanted_from(positions: &[Position], first: u64) -> &[Position]
    ensures { result.now ≡ drop first positions.now }
{
    let first = usize::try_from(first).unwrap_or(usize::MAX);
    positions.get(first..).unwrap_or(&[])
}

/// As many of the positions as are wanted: all, where nothing is said or 0 are.
fn wanted(positions: &[Position], levels: Option<u64>) -> &[Position]
    ensures { result.now ≡ spec.wanted levels positions.now }
{
    match levels {
        None | Some(0) => positions,
        Some(levels) => {
            let levels = usize::try_from(levels).unwrap_or(usize::MAX);
            positions.get(..levels).unwrap_or(positions)
        }
    }
}

/// Where the run is, and where the calls go on that wait, the latest first.
fn positions_of(alloc: Global, machine: &Machine<Buddy>) -> Result<Vec<Position>, AllocError>
    ensures { IfOk result (λ it. it.items
        ≡ spec.positions_of machine.now.configuration.state) }
{
    let mut list = vec![in alloc; machine.at()]?;
    let mut rest = machine.returns();
    while let Some((waiting, before)) = rest.split_last() {
        list.push(waiting.at)?;
        rest = before;
    }
    Ok(list)
}

/// The frames of positions, from this number on.
fn frames(
    alloc: Global,
    debuggee: &Debuggee,
    first: u64,
    positions: &[Position],
) -> Result<Vec<Value>, OutOfMemory>
    requires { first + length positions.now < 2 ^ 64 }
    ensures { IfOk result (λ it. spec.AreFrames debuggee.now.names.labels first positions.now
        (map (λ frame. view frame) it.items)) }
{
    let mut list = Vec::new(alloc);
    let mut number = first;
    for at in positions {
        list.push(frame_of(alloc, debuggee, number, *at)?)?;
        number += 1;
    }
    Ok(list)
}

/// The frame of a number, at a position: of the first one, with the columns of its action.
fn frame_of(
    alloc: Global,
    debuggee: &Debuggee,
    number: u64,
    at: Position,
) -> Result<Value, OutOfMemory>
    ensures { IfOk result (λ it. spec.IsFrame debuggee.now.names.labels number at (view it)) }
{
    let place = place_text(alloc, debuggee.names.labels(), at)?;
    let name = said(alloc, place.as_slice())?;
    if number == 0 {
        if let Some(marks) = marks_at(alloc, debuggee, at)? {
            return marked_frame(alloc, debuggee, number, name, marks);
        }
    }
    frame(alloc, debuggee, number, name, at)
}

/// Where an action stands on its card.
fn marks_at(alloc: Global, debuggee: &Debuggee, at: Position) -> Result<Option<Marks>, AllocError> {
    let machine = debuggee.session.machine();
    let mut text = Vec::new(alloc);
    push_details(
        &mut text,
        debuggee.names.deck(),
        machine.program(),
        at,
        None,
    )?;
    Ok(marks_in(text.as_slice()))
}

/// The frame of this number and name, with the columns of its action.
fn marked_frame(
    alloc: Global,
    debuggee: &Debuggee,
    number: u64,
    name: Value,
    marks: Marks,
) -> Result<Value, OutOfMemory>
    ensures { IfOk result (λ it. spec.IsNamed number (view name) (view it)) }
{
    let path = debuggee.launch.path.as_str();
    let file = said(alloc, file_name(path.as_bytes()))?;
    Ok(marked_value(alloc, number, name, file, path, marks)?)
}

/// The value of a frame with the columns of its action.
fn marked_value(
    alloc: Global,
    number: u64,
    name: Value,
    file: Value,
    path: &str,
    marks: Marks,
) -> Result<Value, AllocError>
    ensures { IfOk result (λ it. view it
        ≡ spec.marked_value number (view name) (view file) path.now marks.card marks.first marks.end) }
{
    let (card, first, end) = (marks.card, marks.first, marks.end);
    json!(in alloc; {"id": number, "name": name, "source": {"name": file, "path": path},
        "line": card, "column": first, "endLine": card, "endColumn": end})
}

/// The frame of this number and name, on the first card of its statement.
fn frame(
    alloc: Global,
    debuggee: &Debuggee,
    number: u64,
    name: Value,
    at: Position,
) -> Result<Value, OutOfMemory>
    ensures { IfOk result (λ it. spec.IsNamed number (view name) (view it)) }
{
    match debuggee.card_of(u64::from(at.statement)) {
        None => Ok(added_value(alloc, number, name)?),
        Some(card) => {
            let path = debuggee.launch.path.as_str();
            let file = said(alloc, file_name(path.as_bytes()))?;
            Ok(carded_value(alloc, number, name, file, path, card)?)
        }
    }
}

/// The value of a frame at the statement that is added to each deck, which has no card.
fn added_value(alloc: Global, number: u64, name: Value) -> Result<Value, AllocError>
    ensures { IfOk result (λ it. view it ≡ spec.added_value number (view name)) }
{
    json!(in alloc; {"id": number, "name": name, "line": 0, "column": 0, "presentationHint": "subtle"})
}

/// The value of a frame on a card.
fn carded_value(
    alloc: Global,
    number: u64,
    name: Value,
    file: Value,
    path: &str,
    card: usize,
) -> Result<Value, AllocError>
    ensures { IfOk result (λ it. view it
        ≡ spec.carded_value number (view name) (view file) path.now card) }
{
    json!(in alloc; {"id": number, "name": name, "source": {"name": file, "path": path},
        "line": card, "column": 1})
}

/// A position, after the last label at or before its statement.
pub(crate) fn place_text(
    alloc: Global,
    labels: &Labels,
    at: Position,
) -> Result<Vec<u8>, AllocError>
    ensures { IfOk result (λ it. it.items ≡ spec.place_text labels.now.entries at) }
{
    let mut text = Vec::new(alloc);
    if let Some((label, _)) = nearest_label(u64::from(at.statement), labels) {
        text.extend_from_slice(label.characters())?;
        text.extend_from_slice(b" ")?;
    }
    push_decimal(&mut text, at.statement)?;
    text.extend_from_slice(b".")?;
    push_decimal(&mut text, at.action)?;
    Ok(text)
}

/// What is answered, where these are the frames, of so many.
fn stack_body(alloc: Global, frames: Vec<Value>, total: usize) -> Result<Value, AllocError>
    ensures { IfOk result (λ it. view it ≡ spec.body_of (map (λ frame. view frame) frames.items) total) }
{
    let frames = Value::Array(frames);
    json!(in alloc; {"stackFrames": frames, "totalFrames": total})
}
