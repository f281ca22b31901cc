//! What expressions read as, and the moves that they ask for.

ghost use Rattle.std.specs.Prelude.{◌≡◌, IfOk};
ghost use Rattle.std.specs.Option.{option_map};
ghost use Rattle.serde_json.specs.View.{view};
ghost use Rattle.l6_dap.specs.Expressions as spec;
ghost use Rattle.l6_dap.specs.Trimmed.{trimmed as trimmed_text};
ghost use Rattle.l6_dap.specs.Values as values;
ghost use Rattle.l6_dap.specs.inner.Asked.{call_by, move_by};

use crate::moves::{Granularity, move_of};
use crate::nodes::Nodes;
use crate::request::Request;
use crate::trimmed::trimmed;
use crate::values::{reference_of, said, word_text};
use l6_debug::number_of;
use l6_group::{chain_of, decimal_of};
use l6_machine::Machine;
use l6_rpc::OutOfMemory;
use l6_session::Move;
use l6_store::Buddy;
use l6_word::Word;
use serde_json::{Value, json};
use std::alloc::{AllocError, Global};

/// The action of the call into which a request asks to step, if it names one.
pub(crate) fn asked_call(request: Request<'_>) -> Option<u64>
    ensures { result ≡ call_by request.entry }
{
    match request.command {
        "stepIn" => request.number("targetId"),
        _ => None,
    }
}

/// The move that a request asks for, by its name, or by an expression that is to be evaluated.
pub(crate) fn asked_move(request: Request<'_>) -> Option<Move>
    ensures { result ≡ move_by request.entry }
{
    let granularity = Granularity::of(request.text("granularity").unwrap_or(""));
    if let Some(to) = move_of(request.command, granularity) {
        return Some(to);
    }
    if request.command != "evaluate" {
        return None;
    }
    move_of_text(request.text("expression").unwrap_or("").as_bytes())
}

/// The move that an expression asks for: to a state by its number, as `:goto 57`; or on or back past so many stops, as
/// `:continue 3` and `:reverse-continue 3`.
fn move_of_text(text: &[u8]) -> Option<Move>
    ensures { result ≡ spec.move_of_text text.now }
{
    move_of_trimmed(trimmed(text))
}

/// The same of a text without blanks around it.
fn move_of_trimmed(text: &[u8]) -> Option<Move>
    ensures { result ≡ spec.move_of_trimmed text.now }
{
    if let Some(number) = number_after(b":goto", text) {
        return Some(Move::Goto(number));
    }
    if let Some(count) = number_after(b":continue", text) {
        return Some(Move::Continue(count));
    }
    Some(Move::ReverseContinue(number_after(b":reverse-continue", text)?))
}

/// The number after a word, with which a text begins.
fn number_after(word: &[u8], text: &[u8]) -> Option<u64>
    ensures { result ≡ spec.number_after word.now text.now }
{
    number_of(trimmed(text.strip_prefix(word)?))
}

/// What a chain or a number reads as: nothing where it is none, or the chain can't be followed.
pub(crate) fn evaluated(
    alloc: Global,
    machine: &Machine<Buddy>,
    nodes: &mut Nodes,
    text: &[u8],
) -> Result<Option<Value>, OutOfMemory>
    ensures value { IfOk result (λ it. option_map view it
        ≡ option_map (values.evaluated machine.now.context.parameters.units
        machine.now.configuration.state.memory nodes.new)
        (spec.word_of machine.now.configuration.state.memory (trimmed_text text.now))) }
    ensures nodes { IfOk result (λ it. nodes.new
        ≡ spec.nodes_evaluated machine.now.configuration.state.memory (trimmed_text text.now) nodes.old) }
{
    let text = trimmed(text);
    let Some(word) = word_of(machine, text) else {
        return Ok(None);
    };
    let reference = reference_of(machine, nodes, word, text)?;
    let said = word_text(alloc, machine, word)?;
    Ok(Some(evaluated_body(alloc, said.as_slice(), reference)?))
}

/// What is answered where this is evaluated.
pub(crate) fn evaluated_body(
    alloc: Global,
    text: &[u8],
    reference: u64,
) -> Result<Value, AllocError>
    ensures { IfOk result (λ it. view it ≡ values.evaluated_body text.now reference) }
{
    let text = said(alloc, text)?;
    json!(in alloc; {"result": text, "variablesReference": reference})
}

/// The word that a chain or a number reads as.
fn word_of(machine: &Machine<Buddy>, text: &[u8]) -> Option<Word>
    ensures { result ≡ spec.word_of machine.now.configuration.state.memory text.now }
{
    match decimal_of(text) {
        Some(word) => Some(word),
        None => machine.readable_value(&chain_of(text)?),
    }
}
