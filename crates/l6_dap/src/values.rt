//! What variables hold, as an editor is told.

ghost use Rattle.std.specs.Prelude.{◌≡◌, ◌++◌, length, IfOk, OnOk};
ghost use Rattle.std.specs.FinMap as places;
ghost use Rattle.std.specs.Option.{option_map};
ghost use Rattle.serde_json.specs.View.{view};
ghost use Rattle.l6_dap.specs.Values as spec;

use crate::nodes::{Node, Nodes};
use crate::variable::{Shown, Variable};
use l6_group::chain_of;
use l6_machine::{Machine, push_decimal};
use l6_rpc::OutOfMemory;
use l6_store::{Buddy, Places};
use l6_word::{UNIT_SIZE, Word, octal12};
use serde_json::{Value, json};
use std::alloc::{AllocError, Global};

/// The values of variables. Those at which a block begins are added to the nodes.
pub(crate) fn values_of(
    alloc: Global,
    machine: &Machine<Buddy>,
    nodes: &mut Nodes,
    variables: &[Variable],
) -> Result<Value, OutOfMemory>
    ensures value { IfOk result (λ it. view it ≡ spec.array_of
        (spec.values_of machine.now.context.parameters.units
        machine.now.configuration.state.memory nodes.old variables.now)) }
    ensures nodes { IfOk result (λ it. nodes.new ≡ spec.nodes_after_all
        machine.now.configuration.state.memory variables.now nodes.old) }
{
    let mut list = Vec::new(alloc);
    for variable in variables {
        list.push(value_of(alloc, machine, nodes, variable)?)?;
    }
    Ok(Value::Array(list))
}

/// The value of a variable.
fn value_of(
    alloc: Global,
    machine: &Machine<Buddy>,
    nodes: &mut Nodes,
    variable: &Variable,
) -> Result<Value, OutOfMemory>
    ensures value { IfOk result (λ it. view it ≡ spec.value_of machine.now.context.parameters.units
        machine.now.configuration.state.memory nodes.new variable.now.name variable.now.shown) }
    ensures nodes { IfOk result (λ it. nodes.new ≡ spec.nodes_after
        machine.now.configuration.state.memory variable.now.shown nodes.old) }
{
    let name = variable.name.as_slice();
    match &variable.shown {
        Shown::Text(text) => Ok(plain_value(alloc, name, text.as_slice(), 0)?),
        Shown::Word(word, chain) => {
            let chain = chain.as_slice();
            let reference = reference_of(machine, nodes, *word, chain)?;
            let text = word_text(alloc, machine, *word)?;
            Ok(word_value(alloc, name, text.as_slice(), reference, chain)?)
        }
    }
}

/// The reference of a word, which a chain reads: the number of its node, or 0 where no block begins.
pub(crate) fn reference_of(
    machine: &Machine<Buddy>,
    nodes: &mut Nodes,
    word: Word,
    chain: &[u8],
) -> Result<u64, AllocError>
    ensures reference { IfOk result (λ it. it
        ≡ spec.reference_of machine.now.configuration.state.memory word nodes.new) }
    ensures nodes { IfOk result (λ it. nodes.new
        ≡ spec.nodes_with machine.now.configuration.state.memory word chain.now nodes.old) }
{
    if machine.store().live(word).is_none() {
        return Ok(0);
    }
    nodes.add(Node::Block(word, chain_of(chain)))
}

/// A word in decimal and in octal, and the block to which it leads.
pub(crate) fn word_text(
    alloc: Global,
    machine: &Machine<Buddy>,
    word: Word,
) -> Result<Vec<u8>, AllocError>
    ensures { IfOk result (λ it. it.items ≡ spec.word_text machine.now.context.parameters.units
        machine.now.configuration.state.memory word) }
{
    let mut text = Vec::new(alloc);
    push_decimal(&mut text, word.get())?;
    text.push(b' ')?;
    text.extend_from_slice(&octal12(word))?;
    push_block(&mut text, machine, word)?;
    Ok(text)
}

/// Adds the size of the block at a place; or that there is none, at a place of the store.
fn push_block(text: &mut Vec<u8>, machine: &Machine<Buddy>, word: Word) -> Result<(), AllocError>
    ensures { OnOk result (text.new.items ≡ text.old.items
        ++ spec.block_text machine.now.context.parameters.units word
        (option_map length (places.get machine.now.configuration.state.memory.blocks word))) }
{
    match machine.store().live(word) {
        None => {
            if is_place(machine, word) {
                text.extend_from_slice(b" no block")?;
            }
            Ok(())
        }
        Some(level) => {
            text.extend_from_slice(b" block of ")?;
            push_decimal(text, 1u64 << level)
        }
    }
}

/// Whether a number is a place of the store.
fn is_place(machine: &Machine<Buddy>, word: Word) -> bool
    ensures { result ≡ spec.is_place machine.now.context.parameters.units word }
{
    let end = (u64::from(machine.store().units()) + 1) * u64::from(UNIT_SIZE);
    u64::from(UNIT_SIZE) <= word.get() && word.get() < end
}

/// The value of a word, with its chain, if one is known.
fn word_value(
    alloc: Global,
    name: &[u8],
    text: &[u8],
    reference: u64,
    chain: &[u8],
) -> Result<Value, AllocError>
    ensures { IfOk result (λ it. view it
        ≡ spec.word_value name.now text.now reference chain.now) }
{
    if chain.is_empty() {
        plain_value(alloc, name, text, reference)
    } else {
        chain_value(alloc, name, text, reference, chain)
    }
}

/// The value of a variable that no chain reads.
fn plain_value(alloc: Global, name: &[u8], text: &[u8], reference: u64) -> Result<Value, AllocError>
    ensures { IfOk result (λ it. view it ≡ spec.plain_value name.now text.now reference) }
{
    let (name, text) = (said(alloc, name)?, said(alloc, text)?);
    json!(in alloc; {"name": name, "value": text, "variablesReference": reference})
}

/// The value of a variable that a chain reads, by which an editor may evaluate and watch it.
fn chain_value(
    alloc: Global,
    name: &[u8],
    text: &[u8],
    reference: u64,
    chain: &[u8],
) -> Result<Value, AllocError>
    ensures { IfOk result (λ it. view it
        ≡ spec.chain_value name.now text.now reference chain.now) }
{
    let (name, text) = (said(alloc, name)?, said(alloc, text)?);
    let chain = said(alloc, chain)?;
    json!(in alloc; {"name": name, "value": text, "variablesReference": reference,
        "evaluateName": chain})
}

/// A text, in which bytes that are no UTF-8 are replaced.
pub(crate) fn said(alloc: Global, text: &[u8]) -> Result<Value, AllocError>
    ensures { IfOk result (λ it. view it ≡ spec.said text.now) }
{
    Ok(Value::String(String::from_utf8_lossy(alloc, text)?))
}
