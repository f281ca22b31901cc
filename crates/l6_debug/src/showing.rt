//! The texts of answers.

ghost use Rattle.std.specs.Prelude.{◌≡◌, ◌<◌, ◌≤◌, ◌^◌, ◌∷◌, [], ◌++◌, length, replicate, codes, decimal, is_none, option_copied, All, MatchOption, IfSome, OnOk, Some, None};
ghost use Rattle.std.specs.List.{enumerate_from, flat_map, list_all};
ghost use Rattle.std.specs.FinMap as map;
ghost use Rattle.std.specs.Str.{byte};
ghost use Rattle.l6_word.specs.Numerals.{word_bits};
ghost use Rattle.l6_prog.specs.Numerals.{first_letter, letter_count, name_count};
ghost use Rattle.l6_draw.specs.Drawing.{character_of};
ghost use Rattle.l6_debug.specs.Answer as spec;
ghost use Rattle.l6_debug.specs.Numerals.{index_places};

use crate::command::Command;
use itoa::Buffer;
use l6_draw::{character_of, drawing, store_map};
use l6_machine::{Depths, Machine, ending_line, push_decimal, push_whole_lines};
use l6_prog::DIGITS;
use l6_store::{Place, Places};
use l6_word::{UNIT_SIZE, Window, Word, octal12};
use std::alloc::{AllocError, Global};

/// How many columns the index of a word has.
const INDEX_PLACES: usize = 4;

/// Adds what is answered to a command, of the state at which the machine is.
///
/// # Errors
///
/// Memory ran out.
pub fn push_answer<S: Places>(
    alloc: Global,
    text: &mut Vec<u8>,
    machine: &Machine<S>,
    command: Command,
) -> Result<(), AllocError>
    ensures { OnOk result (text.new.items ≡ text.old.items
        ++ spec.answer_text machine.now.context machine.now.configuration.state command) }
{
    match command {
        Command::Step(_) | Command::Go | Command::Back(_) => push_status(alloc, text, machine),
        Command::Break(statement) => push_breakpoint(text, machine, statement, b"BREAK AT "),
        Command::Clear(statement) => push_breakpoint(text, machine, statement, b"CLEARED "),
        Command::Show => push_shown(alloc, text, machine),
        Command::Fields => push_fields(text, machine.definitions()),
        Command::Block(place) => push_block(text, place, block_at(machine.store(), place)),
        Command::Draw => text.extend_from_slice(drawing(alloc, machine)?.as_slice()),
        Command::Store => text.extend_from_slice(store_map(alloc, machine)?.as_slice()),
        Command::Out => push_printed(text, machine.output()),
    }
}

/// Adds the line of a state: where it is, or how the run has ended.
fn push_status<S: Places>(
    alloc: Global,
    text: &mut Vec<u8>,
    machine: &Machine<S>,
) -> Result<(), AllocError>
    ensures { OnOk result (text.new.items ≡ text.old.items
        ++ spec.status machine.now.context machine.now.configuration.state) }
{
    if machine.is_last() {
        let line = ending_line(alloc, machine)?;
        text.extend_from_slice(line.as_slice())?;
    } else {
        push_place(text, machine)?;
    }
    text.extend_from_slice(b"\n")
}

/// Adds where a state is, and how many steps are counted.
fn push_place<S: Places>(text: &mut Vec<u8>, machine: &Machine<S>) -> Result<(), AllocError>
    ensures { OnOk result
        (text.new.items ≡ text.old.items ++ spec.place_line machine.now.configuration.state) }
{
    text.extend_from_slice(b"AT ")?;
    push_decimal(text, machine.at().statement)?;
    text.extend_from_slice(b".")?;
    push_decimal(text, machine.at().action)?;
    text.extend_from_slice(b" AFTER ")?;
    push_decimal(text, machine.count())?;
    text.extend_from_slice(b" STEPS")
}

/// Adds what is said of a statement's breakpoint, if the program has such a statement.
fn push_breakpoint<S: Places>(
    text: &mut Vec<u8>,
    machine: &Machine<S>,
    statement: u64,
    reported: &[u8],
) -> Result<(), AllocError>
    ensures { OnOk result (text.new.items ≡ text.old.items
        ++ spec.breakpoint_line machine.now.context statement reported.now) }
{
    if statement < machine.program().statements().len() as u64 {
        push_report(text, reported, statement)
    } else {
        text.extend_from_slice(b"?? NO SUCH STATEMENT\n")
    }
}

/// Adds the line of a state, what its bugs hold, and how much is saved, taken and printed.
fn push_shown<S: Places>(
    alloc: Global,
    text: &mut Vec<u8>,
    machine: &Machine<S>,
) -> Result<(), AllocError>
    ensures { OnOk result (text.new.items ≡ text.old.items
        ++ spec.shown machine.now.context machine.now.configuration.state) }
{
    push_status(alloc, text, machine)?;
    push_bugs(text, machine.bugs())?;
    push_counts(text, machine)
}

/// Adds the lines of bugs. The caller owes one for each letter.
fn push_bugs(text: &mut Vec<u8>, bugs: &[Word]) -> Result<(), AllocError>
    requires { length bugs.now ≡ letter_count }
    ensures { OnOk result (text.new.items ≡ text.old.items
        ++ flat_map spec.bug_line (enumerate_from first_letter bugs.now)) }
{
    for (index, word) in bugs.iter().enumerate() {
        push_bug(text, DIGITS + index as u8, *word)?;
    }
    Ok(())
}

/// Adds the line of a bug, if it holds anything.
fn push_bug(text: &mut Vec<u8>, name: u8, word: Word) -> Result<(), AllocError>
    requires { name < name_count }
    ensures { OnOk result (text.new.items ≡ text.old.items ++ spec.bug_line (name, word)) }
{
    if word.get() == 0 {
        return Ok(());
    }
    push_name(text, name)?;
    text.extend_from_slice(&octal12(word))?;
    text.extend_from_slice(b" ")?;
    push_decimal(text, word.get())?;
    text.extend_from_slice(b"\n")
}

/// Adds the digit or the letter of a name, and a blank.
fn push_name(text: &mut Vec<u8>, name: u8) -> Result<(), AllocError>
    requires { name < name_count }
    ensures { OnOk result (text.new.items ≡ text.old.items
        ++ (character_of name ∷ codes " ")) }
{
    text.extend_from_slice(&[character_of(name), b' '])
}

/// Adds how much is saved, taken and printed.
fn push_counts<S: Places>(text: &mut Vec<u8>, machine: &Machine<S>) -> Result<(), AllocError>
    ensures { OnOk result
        (text.new.items ≡ text.old.items ++ spec.counts_line machine.now.configuration.state.memory) }
{
    push_depths(text, machine.depths())?;
    push_amounts(text, machine.taken(), machine.output().len())
}

/// Adds how much is saved, and for how many returns calls wait.
fn push_depths(text: &mut Vec<u8>, depths: Depths) -> Result<(), AllocError>
    ensures { OnOk result (text.new.items ≡ text.old.items
        ++ spec.depths_text depths.contents depths.definitions depths.returns) }
{
    text.extend_from_slice(b"CONTENTS ")?;
    push_decimal(text, depths.contents)?;
    text.extend_from_slice(b" DEFINITIONS ")?;
    push_decimal(text, depths.definitions)?;
    text.extend_from_slice(b" RETURNS ")?;
    push_decimal(text, depths.returns)
}

/// Adds how much is taken and printed.
fn push_amounts(text: &mut Vec<u8>, taken: usize, printed: usize) -> Result<(), AllocError>
    ensures { OnOk result (text.new.items ≡ text.old.items ++ spec.amounts_text taken printed) }
{
    text.extend_from_slice(b" INPUT ")?;
    push_decimal(text, taken)?;
    text.extend_from_slice(b" OUTPUT ")?;
    push_decimal(text, printed)?;
    text.extend_from_slice(b"\n")
}

/// Adds the lines of definitions, or that there are none. The caller owes one for each name.
fn push_fields(text: &mut Vec<u8>, definitions: &[Option<Window>]) -> Result<(), AllocError>
    requires { length definitions.now ≡ name_count }
    ensures { OnOk result
        (text.new.items ≡ text.old.items ++ spec.fields definitions.now) }
{
    if are_none(definitions) {
        return text.extend_from_slice(b"NO FIELDS\n");
    }
    for (name, definition) in definitions.iter().enumerate() {
        push_field(text, name as u8, *definition)?;
    }
    Ok(())
}

/// Whether no field is defined.
fn are_none(definitions: &[Option<Window>]) -> bool
    ensures { result ≡ list_all is_none definitions.now }
{
    definitions.iter().all(|definition| definition.is_none())
}

/// Adds the line of a field, if it is defined.
fn push_field(text: &mut Vec<u8>, name: u8, definition: Option<Window>) -> Result<(), AllocError>
    requires { name < name_count }
    ensures { OnOk result (text.new.items ≡ text.old.items ++ spec.field_line (name, definition)) }
{
    let Some(window) = definition else {
        return Ok(());
    };
    push_name(text, name)?;
    push_decimal(text, window.word())?;
    text.extend_from_slice(b" ")?;
    push_decimal(text, window.first())?;
    text.extend_from_slice(b" ")?;
    push_decimal(text, window.last())?;
    text.extend_from_slice(b"\n")
}

/// The words of the block that begins at a place, if one does.
fn block_at<S: Places>(store: &S, place: u64) -> Option<&[u64]>
    ensures value { let found = map.get (S.store store.now).blocks place in
        MatchOption result (found ≡ None) (λ words. found ≡ Some words.now) }
    ensures words { IfSome result (λ words. All (λ word. word < 2 ^ word_bits) words.now) }
{
    // there is no block past the last unit
    let end = u64::from(store.units() + 1) * u64::from(UNIT_SIZE);
    if end <= place {
        return None;
    }
    store.live(Word::from_value(place))?;
    Some(store.block(place as Place))
}

/// Adds the lines of the block of these words that begins at a place, or that none does.
fn push_block(text: &mut Vec<u8>, place: u64, block: Option<&[u64]>) -> Result<(), AllocError>
    requires { IfSome block (λ words. All (λ word. word < 2 ^ word_bits) words.now) }
    ensures { OnOk result (text.new.items ≡ text.old.items
        ++ spec.block_lines place (option_copied block.entry)) }
{
    match block {
        None => push_report(text, b"NO BLOCK AT ", place),
        Some(words) => push_some(text, place, words),
    }
}

/// Adds a line of a few words and a number.
fn push_report(text: &mut Vec<u8>, reported: &[u8], number: u64) -> Result<(), AllocError>
    ensures { OnOk result (text.new.items ≡ text.old.items ++ spec.report_of reported.now number) }
{
    text.extend_from_slice(reported)?;
    push_decimal(text, number)?;
    text.extend_from_slice(b"\n")
}

/// Adds the lines of the block of these words that begins at a place.
fn push_some(text: &mut Vec<u8>, place: u64, words: &[u64]) -> Result<(), AllocError>
    requires { All (λ word. word < 2 ^ word_bits) words.now }
    ensures { OnOk result
        (text.new.items ≡ text.old.items ++ spec.block_lines place (Some words.now)) }
{
    text.extend_from_slice(b"BLOCK ")?;
    push_decimal(text, place)?;
    text.extend_from_slice(b" SIZE ")?;
    push_decimal(text, words.len())?;
    text.extend_from_slice(b"\n")?;
    push_words(text, words)
}

/// Adds the lines of words.
fn push_words(text: &mut Vec<u8>, words: &[u64]) -> Result<(), AllocError>
    requires { All (λ word. word < 2 ^ word_bits) words.now }
    ensures { OnOk result (text.new.items ≡ text.old.items
        ++ flat_map spec.word_line (enumerate_from 0 words.now)) }
{
    for (index, word) in words.iter().enumerate() {
        push_word(text, index, Word::from_value(*word))?;
    }
    Ok(())
}

/// Adds the line of a word, by its index.
fn push_word(text: &mut Vec<u8>, index: usize, word: Word) -> Result<(), AllocError>
    ensures { OnOk result (text.new.items ≡ text.old.items ++ spec.word_line (index, word)) }
{
    push_index(text, index)?;
    text.extend_from_slice(b" ")?;
    text.extend_from_slice(&octal12(word))?;
    text.extend_from_slice(b"\n")
}

/// Adds an index, at the right end of its places.
fn push_index(text: &mut Vec<u8>, index: usize) -> Result<(), AllocError>
    ensures { OnOk result (text.new.items ≡ text.old.items ++ spec.index_text index) }
{
    let mut buffer = Buffer::new();
    let digits = buffer.format(index).as_bytes();
    push_blanks(text, INDEX_PLACES.saturating_sub(digits.len()))?;
    text.extend_from_slice(digits)
}

/// Adds so many blanks, at most as many as there are places for an index.
fn push_blanks(text: &mut Vec<u8>, count: usize) -> Result<(), AllocError>
    requires { count ≤ index_places }
    ensures { OnOk result (text.new.items ≡ text.old.items ++ replicate count (byte " ")) }
{
    text.extend_from_slice(&[b' '; INDEX_PLACES][..count])
}

/// Adds how much is printed, and the output in whole lines.
fn push_printed(text: &mut Vec<u8>, output: &[u8]) -> Result<(), AllocError>
    ensures { OnOk result (text.new.items ≡ text.old.items ++ spec.printed output.now) }
{
    text.extend_from_slice(b"OUTPUT ")?;
    push_decimal(text, output.len())?;
    text.extend_from_slice(b" BYTES\n")?;
    push_whole_lines(text, output)
}
