//! What a state holds, as variables.

ghost use Rattle.std.specs.Prelude.{◌≡◌, ◌∷◌, ◌++◌, ◌<◌, ◌≤◌, [], length, reverse, take, IfOk, OnOk};
ghost use Rattle.l6_draw.specs.Reach.{reached_places};
ghost use Rattle.l6_prog.specs.Numerals.{first_letter, letter_count, name_count};
ghost use Rattle.l6_store.specs.Blocks.{block_at};
ghost use Rattle.l6_dap.specs.Numerals.{most_listed};
ghost use Rattle.l6_dap.specs.Variables as spec;

use crate::nodes::Node;
use crate::variable::{Shown, Variable};
use l6_draw::{character_of, reachable};
use l6_machine::{Machine, push_decimal};
use l6_prog::{Chain, DIGITS};
use l6_store::{Buddy, Place, Places};
use l6_word::{Window, Word, octal12};
use std::alloc::{AllocError, Global};

/// How many blocks are listed at most.
const MOST_BLOCKS: usize = 1_000;

/// The variables of a node.
pub(crate) fn variables_of(
    alloc: Global,
    machine: &Machine<Buddy>,
    node: &Node,
) -> Result<Vec<Variable>, AllocError>
    ensures { IfOk result (λ it. it.items
        ≡ spec.variables_of machine.now.configuration.state.memory node.now) }
{
    match node {
        Node::Bugs => bugs(alloc, machine.bugs()),
        Node::Fields => fields(alloc, machine.definitions()),
        Node::Blocks => {
            let places = reachable(alloc, machine)?;
            blocks(alloc, places.as_slice())
        }
        Node::Contents => contents(alloc, machine.saved_contents()),
        Node::Definitions => definitions(alloc, machine.saved_definitions()),
        Node::Block(place, chain) => {
            let names = names_of(alloc, chain)?;
            block_parts(alloc, machine, *place, names.as_slice())
        }
    }
}

/// The variable of a word, with the names of the chain that reads it, if one is known.
fn word_named(name: Vec<u8>, chain: Vec<u8>, content: Word) -> Variable
    ensures { result ≡ spec.word_named name.items chain.items content }
{
    Variable {
        name,
        shown: Shown::Word(content, chain),
    }
}

/// The variable of a text.
fn text_named(name: Vec<u8>, said: Vec<u8>) -> Variable
    ensures { result ≡ spec.text_named name.items said.items }
{
    Variable {
        name,
        shown: Shown::Text(said),
    }
}

/// The character of a name.
fn character(alloc: Global, name: u8) -> Result<Vec<u8>, AllocError>
    requires { name < name_count }
    ensures { IfOk result (λ it. it.items ≡ spec.named name) }
{
    Vec::from_slice(alloc, &[character_of(name)])
}

/// A number in decimal.
fn decimal(alloc: Global, number: usize) -> Result<Vec<u8>, AllocError>
    ensures { IfOk result (λ it. it.items ≡ spec.numbered number) }
{
    let mut text = Vec::new(alloc);
    push_decimal(&mut text, number)?;
    Ok(text)
}

/// The bugs.
fn bugs(alloc: Global, words: &[Word]) -> Result<Vec<Variable>, AllocError>
    requires { length words.now ≤ letter_count }
    ensures { IfOk result (λ it. it.items ≡ spec.bugs_from first_letter words.now) }
{
    let mut list = Vec::new(alloc);
    let mut number = DIGITS;
    for word in words {
        let name = character(alloc, number)?;
        let chain = character(alloc, number)?;
        list.push(word_named(name, chain, *word))?;
        number += 1;
    }
    Ok(list)
}

/// The fields that are defined.
fn fields(alloc: Global, definitions: &[Option<Window>]) -> Result<Vec<Variable>, AllocError>
    requires { length definitions.now ≤ name_count }
    ensures { IfOk result (λ it. it.items ≡ spec.fields_from 0 definitions.now) }
{
    let mut list = Vec::new(alloc);
    let mut number: u8 = 0;
    for definition in definitions {
        if let Some(window) = definition {
            let name = character(alloc, number)?;
            list.push(text_named(name, window_text(alloc, *window)?))?;
        }
        number += 1;
    }
    Ok(list)
}

/// What a field is defined as.
fn window_text(alloc: Global, window: Window) -> Result<Vec<u8>, AllocError>
    ensures { IfOk result (λ it. it.items ≡ spec.window_text window) }
{
    let mut text = Vec::from_slice(alloc, b"word ")?;
    push_decimal(&mut text, window.word())?;
    text.extend_from_slice(b", bits ")?;
    push_decimal(&mut text, window.first())?;
    text.extend_from_slice(b" to ")?;
    push_decimal(&mut text, window.last())?;
    Ok(text)
}

/// The blocks that are reached: the first 1,000 of them, and how many more there are.
fn blocks(alloc: Global, places: &[Place]) -> Result<Vec<Variable>, AllocError>
    ensures { IfOk result (λ it. it.items ≡ spec.blocks_of places.now) }
{
    let mut list = blocks_at(alloc, first_of(places))?;
    push_further(alloc, &mut list, places.len())?;
    Ok(list)
}

/// Adds how many blocks of so many are not listed, if there are any.
fn push_further(alloc: Global, list: &mut Vec<Variable>, count: usize) -> Result<(), AllocError>
    ensures { OnOk result (list.new.items ≡ list.old.items ++ spec.further count) }
{
    if count > MOST_BLOCKS {
        let mut said = decimal(alloc, count - MOST_BLOCKS)?;
        said.extend_from_slice(b" more blocks")?;
        list.push(text_named(Vec::from_slice(alloc, b"..")?, said))?;
    }
    Ok(())
}

/// The first 1,000 places, or all, where there are fewer.
fn first_of(places: &[Place]) -> &[Place]
    ensures { result.now ≡ take most_listed places.now }
{
    if places.len() <= MOST_BLOCKS {
        places
    } else {
        &places[..MOST_BLOCKS]
    }
}

/// The blocks at some places.
fn blocks_at(alloc: Global, places: &[Place]) -> Result<Vec<Variable>, AllocError>
    ensures { IfOk result (λ it. it.items ≡ spec.blocks_at places.now) }
{
    let mut list = Vec::new(alloc);
    for place in places {
        let name = decimal(alloc, *place as usize)?;
        let word = Word::wrapping(u64::from(*place));
        list.push(word_named(name, Vec::new(alloc), word))?;
    }
    Ok(list)
}

/// The contents that are saved, the latest first.
fn contents(alloc: Global, words: &[Word]) -> Result<Vec<Variable>, AllocError>
    ensures { IfOk result (λ it. it.items ≡ spec.contents_of (reverse words.now)) }
{
    let mut list = Vec::new(alloc);
    let mut rest = words;
    while let Some((word, before)) = rest.split_last() {
        list.push(word_named(decimal(alloc, before.len())?, Vec::new(alloc), *word))?;
        rest = before;
    }
    Ok(list)
}

/// The definitions that are saved, the latest first.
fn definitions(alloc: Global, windows: &[Option<Window>]) -> Result<Vec<Variable>, AllocError>
    ensures { IfOk result (λ it. it.items ≡ spec.definitions_of (reverse windows.now)) }
{
    let mut list = Vec::new(alloc);
    let mut rest = windows;
    while let Some((window, before)) = rest.split_last() {
        let said = definition_text(alloc, *window)?;
        list.push(text_named(decimal(alloc, before.len())?, said))?;
        rest = before;
    }
    Ok(list)
}

/// What a field was defined as that is saved.
fn definition_text(alloc: Global, definition: Option<Window>) -> Result<Vec<u8>, AllocError>
    ensures { IfOk result (λ it. it.items ≡ spec.definition_text definition) }
{
    match definition {
        None => Vec::from_slice(alloc, b"not defined"),
        Some(window) => window_text(alloc, window),
    }
}

/// What a block holds: the fields that are defined in it, and then its words. One that is freed has nothing.
fn block_parts(
    alloc: Global,
    machine: &Machine<Buddy>,
    place: Word,
    chain: &[u8],
) -> Result<Vec<Variable>, AllocError>
    ensures { IfOk result (λ it. it.items ≡ spec.block_parts chain.now
        machine.now.configuration.state.memory.definitions
        (block_at machine.now.configuration.state.memory.blocks place)) }
{
    let mut list = parts(alloc, machine, place, chain)?;
    let mut index: u16 = 0;
    while let Some(word) = machine.store().word(place, index) {
        let mut name = Vec::from_slice(alloc, b"word ")?;
        push_decimal(&mut name, index)?;
        list.push(text_named(name, Vec::from_slice(alloc, &octal12(word))?))?;
        index += 1;
    }
    Ok(list)
}

/// The fields that are defined in a block.
fn parts(
    alloc: Global,
    machine: &Machine<Buddy>,
    place: Word,
    chain: &[u8],
) -> Result<Vec<Variable>, AllocError>
    ensures { IfOk result (λ it. it.items ≡ spec.parts_from
        (block_at machine.now.configuration.state.memory.blocks place) chain.now 0
        machine.now.configuration.state.memory.definitions) }
{
    let mut list = Vec::new(alloc);
    let mut number: u8 = 0;
    for definition in machine.definitions() {
        if let Some(window) = definition {
            if let Some(word) = machine.store().word(place, window.word()) {
                let name = character(alloc, number)?;
                let chain = longer(alloc, chain, number)?;
                list.push(word_named(name, chain, window.take(word)))?;
            }
        }
        number += 1;
    }
    Ok(list)
}

/// The names of a chain, as it is written, or nothing where none is known.
pub(crate) fn names_of(alloc: Global, chain: &Option<Chain>) -> Result<Vec<u8>, AllocError>
    ensures { IfOk result (λ it. it.items ≡ spec.names_of chain.now) }
{
    let mut text = Vec::new(alloc);
    if let Some(chain) = chain {
        for name in chain.names() {
            text.push(character_of(name.number()))?;
        }
    }
    Ok(text)
}

/// The names of a chain and one more, or nothing where no chain is known.
fn longer(alloc: Global, names: &[u8], name: u8) -> Result<Vec<u8>, AllocError>
    requires { name < name_count }
    ensures { IfOk result (λ it. it.items ≡ spec.longer names.now name) }
{
    let mut text = Vec::from_slice(alloc, names)?;
    if !names.is_empty() {
        text.push(character_of(name))?;
    }
    Ok(text)
}
