//! What chains and numbers read as, in words.

ghost use Rattle.std.specs.Prelude.{◌≡◌, ◌++◌, OnOk};
ghost use Rattle.l6_session.specs.Texts as spec;

use crate::text::{push_block_at, push_chain, push_names, push_word, push_word_name};
use l6_history::{BlockWord, Watched};
use l6_machine::{Machine, Trap, push_decimal};
use l6_prog::{Chain, Name, Operand};
use l6_store::Places;
use l6_word::Word;
use std::alloc::AllocError;

/// Adds what an operand reads as, and whether a block begins there.
pub(crate) fn push_value<S: Places>(
    text: &mut Vec<u8>,
    machine: &Machine<S>,
    operand: &Operand,
) -> Result<(), AllocError>
    ensures { OnOk result (text.new.items ≡ text.old.items
        ++ spec.operand_text machine.now.configuration.state.memory operand.now) }
{
    match operand {
        Operand::Chain(chain) => push_chain_value(text, machine, chain),
        Operand::Number(word) => push_word_value(text, machine, *word),
    }
}

/// Adds what a chain reads as, or why it can't be followed.
pub(crate) fn push_chain_value<S: Places>(
    text: &mut Vec<u8>,
    machine: &Machine<S>,
    chain: &Chain,
) -> Result<(), AllocError>
    ensures { OnOk result (text.new.items ≡ text.old.items
        ++ spec.chain_line machine.now.configuration.state.memory chain.now) }
{
    push_chain(text, chain)?;
    match machine.value(chain) {
        Ok(word) => {
            text.extend_from_slice(b" = ")?;
            push_word_value(text, machine, word)
        }
        Err(_) => push_unfollowed(text, machine, chain),
    }
}

/// Adds what is watched, and what it reads as, or why it can't be read.
pub(crate) fn push_watched_value<S: Places>(
    text: &mut Vec<u8>,
    machine: &Machine<S>,
    watched: &Watched,
) -> Result<(), AllocError>
    ensures { OnOk result (text.new.items ≡ text.old.items
        ++ spec.watched_line machine.now.configuration.state.memory watched.now) }
{
    match watched {
        Watched::Chain(chain) => push_chain_value(text, machine, chain),
        Watched::Word(word) => push_block_word(text, machine, *word),
    }
}

/// Adds a word of a block, and what it reads as, or why it can't be read.
fn push_block_word<S: Places>(
    text: &mut Vec<u8>,
    machine: &Machine<S>,
    at: BlockWord,
) -> Result<(), AllocError>
    ensures { OnOk result (text.new.items ≡ text.old.items
        ++ spec.block_word_line machine.now.configuration.state.memory at) }
{
    let place = at.place;
    let word = machine.store().word(place, at.word);
    push_word_name(text, at)?;
    push_word_read(text, machine, place, word)
}

/// Adds what a word of the block at a place reads as, or why it can't be read.
fn push_word_read<S: Places>(
    text: &mut Vec<u8>,
    machine: &Machine<S>,
    place: Word,
    word: Option<Word>,
) -> Result<(), AllocError>
    ensures { OnOk result (text.new.items ≡ text.old.items
        ++ spec.word_read_text machine.now.configuration.state.memory place word) }
{
    match word {
        Some(word) => {
            text.extend_from_slice(b" = ")?;
            push_word_value(text, machine, word)
        }
        None => text.extend_from_slice(no_word(machine, place)),
    }
}

/// Why a word of the block at a place can't be read.
fn no_word<S: Places>(machine: &Machine<S>, place: Word) -> &'static [u8]
    ensures { result.now ≡ spec.no_word_text machine.now.configuration.state.memory place }
{
    if machine.store().live(place).is_some() {
        b" can't be read: the block there has no such word\n"
    } else {
        b" can't be read: no block begins there\n"
    }
}

/// Adds that a chain can't be followed, and why.
fn push_unfollowed<S: Places>(
    text: &mut Vec<u8>,
    machine: &Machine<S>,
    chain: &Chain,
) -> Result<(), AllocError>
    ensures { OnOk result (text.new.items ≡ text.old.items
        ++ spec.unfollowed_text machine.now.configuration.state.memory chain.now) }
{
    text.extend_from_slice(b" can't be followed: ")?;
    push_broken(text, machine, chain)
}

/// Adds a word, and the block that begins at the place of this number, if one does.
fn push_word_value<S: Places>(
    text: &mut Vec<u8>,
    machine: &Machine<S>,
    word: Word,
) -> Result<(), AllocError>
    ensures { OnOk result (text.new.items ≡ text.old.items
        ++ spec.value_line machine.now.configuration.state.memory word) }
{
    push_word(text, word)?;
    push_block_at(text, word, machine.store().live(word))?;
    text.extend_from_slice(b"\n")
}

/// Adds which is the first field of a chain that can't be followed, and why.
fn push_broken<S: Places>(
    text: &mut Vec<u8>,
    machine: &Machine<S>,
    chain: &Chain,
) -> Result<(), AllocError>
    ensures { OnOk result (text.new.items ≡ text.old.items
        ++ spec.broken_text machine.now.configuration.state.memory chain.now) }
{
    let names = chain.names();
    let mut pointer = machine.bug(chain.bug());
    let mut place: usize = 1;
    while place < names.len() {
        let field = names[place];
        match followed(machine, field, pointer) {
            Ok(word) => pointer = word,
            Err(trap) => return push_reason(text, &names[..place], field, pointer, trap),
        }
        place += 1;
    }
    Ok(())
}

/// What a field shows of the block at a pointer.
///
/// # Errors
///
/// The field has no definition, no block begins at the pointer, or it has no such word.
#[tactic(auto, using(crate::proofs::Following::undefined, crate::proofs::Following::not_there, crate::proofs::Following::outside, crate::proofs::Following::there))]
fn followed<S: Places>(machine: &Machine<S>, field: Name, pointer: Word) -> Result<Word, Trap>
    ensures { result ≡ spec.followed machine.now.configuration.state.memory field pointer }
{
    let Some(window) = machine.definition(field) else {
        return Err(Trap::UndefinedField);
    };
    if machine.store().live(pointer).is_none() {
        return Err(Trap::NotABlock);
    }
    match machine.store().word(pointer, window.word()) {
        Some(word) => Ok(window.take(word)),
        None => Err(Trap::WordOutsideBlock),
    }
}

/// Adds why a field can't be followed from a pointer on, to which the names before it lead.
fn push_reason(
    text: &mut Vec<u8>,
    front: &[Name],
    field: Name,
    pointer: Word,
    trap: Trap,
) -> Result<(), AllocError>
    ensures { OnOk result (text.new.items ≡ text.old.items
        ++ spec.break_text front.now field pointer trap) }
{
    match trap {
        Trap::UndefinedField => push_undefined(text, field),
        Trap::NotABlock => push_no_block(text, front, pointer),
        _ => push_outside(text, field, pointer),
    }
}

/// Adds that a field has no definition.
fn push_undefined(text: &mut Vec<u8>, field: Name) -> Result<(), AllocError>
    ensures { OnOk result (text.new.items ≡ text.old.items ++ spec.undefined_text field) }
{
    text.extend_from_slice(b"the field ")?;
    push_names(text, &[field])?;
    text.extend_from_slice(b" is not defined\n")
}

/// Adds that no block begins where names lead.
fn push_no_block(text: &mut Vec<u8>, front: &[Name], pointer: Word) -> Result<(), AllocError>
    ensures { OnOk result (text.new.items ≡ text.old.items
        ++ spec.no_block_text front.now pointer) }
{
    push_names(text, front)?;
    text.extend_from_slice(b" is ")?;
    push_decimal(text, pointer.get())?;
    push_link(text, pointer)
}

/// Adds what is said of a number at which no block begins.
fn push_link(text: &mut Vec<u8>, pointer: Word) -> Result<(), AllocError>
    ensures { OnOk result (text.new.items ≡ text.old.items ++ spec.link_text pointer) }
{
    if pointer.get() == 0 {
        text.extend_from_slice(NO_LINK)
    } else {
        text.extend_from_slice(NO_BLOCK)
    }
}

/// Adds that the word of a field is past the end of a block.
fn push_outside(text: &mut Vec<u8>, field: Name, pointer: Word) -> Result<(), AllocError>
    ensures { OnOk result (text.new.items ≡ text.old.items ++ spec.outside_text field pointer) }
{
    text.extend_from_slice(b"the word of the field ")?;
    push_names(text, &[field])?;
    text.extend_from_slice(b" is past the end of the block at ")?;
    push_decimal(text, pointer.get())?;
    text.extend_from_slice(b"\n")
}

/// What is said of a link of 0.
const NO_LINK: &[u8] = b", which is no block: it was never set, or was set to 0\n";

/// What is said of another number at which no block begins.
const NO_BLOCK: &[u8] =
    b", where no block begins: it holds no link, or the block there was freed\n";
