//! Parts of texts.

ghost use Rattle.std.specs.Prelude.{◌≡◌, ◌<◌, ◌≤◌, ◌++◌, ◌^◌, OnOk, IfSome, None};
ghost use Rattle.std.specs.Option.{option_map};
ghost use Rattle.l6_word.specs.Numerals.{largest_level};
ghost use Rattle.l6_session.specs.Texts as spec;

use itoa::Integer;
use l6_asm::Labels;
use l6_draw::character_of;
use l6_group::Label;
use l6_history::{BlockWord, Watched};
use l6_machine::{Position, push_decimal};
use l6_prog::{Chain, Comparison, NAMES, Name, Operand, Test};
use l6_store::Level;
use l6_word::{CODE_COUNT, Word, char_of, octal12};
use std::alloc::AllocError;

/// Adds the names of a chain.
pub(crate) fn push_chain(text: &mut Vec<u8>, chain: &Chain) -> Result<(), AllocError>
    ensures { OnOk result (text.new.items ≡ text.old.items ++ spec.chain_text chain.now) }
{
    push_names(text, chain.names())
}

/// Adds what is watched, as it is typed.
pub(crate) fn push_watched_name(text: &mut Vec<u8>, watched: &Watched) -> Result<(), AllocError>
    ensures { OnOk result (text.new.items ≡ text.old.items ++ spec.watched_name watched.now) }
{
    match watched {
        Watched::Chain(chain) => push_chain(text, chain),
        Watched::Word(word) => push_word_name(text, *word),
    }
}

/// Adds a word of the block at a place, as it is typed.
pub(crate) fn push_word_name(text: &mut Vec<u8>, at: BlockWord) -> Result<(), AllocError>
    ensures { OnOk result (text.new.items ≡ text.old.items ++ spec.word_name at) }
{
    push_counted(text, b"*", at.place.get())?;
    push_further(text, at.word)
}

/// Adds which word of a block it is, if it is not the first.
fn push_further(text: &mut Vec<u8>, word: u16) -> Result<(), AllocError>
    ensures { OnOk result (text.new.items ≡ text.old.items ++ spec.further_word word) }
{
    if word == 0 {
        return Ok(());
    }
    push_counted(text, b"+", word)
}

/// Adds names.
pub(crate) fn push_names(text: &mut Vec<u8>, names: &[Name]) -> Result<(), AllocError>
    ensures { OnOk result (text.new.items ≡ text.old.items ++ spec.chain_text names.now) }
{
    for name in names {
        text.push(character_of(name.number()))?;
    }
    Ok(())
}

/// Adds the digit or the letter of the name of this number, if there is such a name.
pub(crate) fn push_name(text: &mut Vec<u8>, number: u8) -> Result<(), AllocError>
    ensures { OnOk result (text.new.items ≡ text.old.items ++ spec.name_text number) }
{
    if number < NAMES {
        text.push(character_of(number))?;
    }
    Ok(())
}

/// Adds words and then a number.
pub(crate) fn push_counted<I: Integer>(
    text: &mut Vec<u8>,
    words: &[u8],
    number: I,
) -> Result<(), AllocError>
    ensures { OnOk result (text.new.items ≡ (text.old.items ++ words.now) ++ I.text number) }
{
    text.extend_from_slice(words)?;
    push_decimal(text, number)
}

/// Adds a word in decimal, in octal, and as its six characters.
pub(crate) fn push_word(text: &mut Vec<u8>, word: Word) -> Result<(), AllocError>
    ensures { OnOk result (text.new.items ≡ text.old.items ++ spec.word_text word) }
{
    push_decimal(text, word.get())?;
    text.extend_from_slice(b" ")?;
    text.extend_from_slice(&octal12(word))?;
    text.extend_from_slice(b" \"")?;
    text.extend_from_slice(&characters(word))?;
    text.extend_from_slice(b"\"")
}

/// The six characters of a word.
fn characters(word: Word) -> [u8; 6]
    ensures { result ≡ spec.characters word }
{
    [
        character_at(word, 30),
        character_at(word, 24),
        character_at(word, 18),
        character_at(word, 12),
        character_at(word, 6),
        character_at(word, 0),
    ]
}

/// The character of a word whose code begins so many bits from its right end.
fn character_at(word: Word, shift: u32) -> u8
    requires { shift < 64 }
    ensures { result ≡ spec.character_at word shift }
{
    let code = (word.get() >> shift) % CODE_COUNT;
    char_of(code as u8)
}

/// Adds the block of this level at a place, if one begins there.
pub(crate) fn push_block_at(
    text: &mut Vec<u8>,
    place: Word,
    level: Option<Level>,
) -> Result<(), AllocError>
    requires { IfSome level (λ level. level ≤ largest_level) }
    ensures { OnOk result (text.new.items
        ≡ text.old.items ++ spec.block_text place (option_map (λ level. 2 ^ level) level)) }
{
    let Some(level) = level else {
        return Ok(());
    };
    text.extend_from_slice(b" -> BLOCK ")?;
    push_decimal(text, place.get())?;
    text.extend_from_slice(b" SIZE ")?;
    push_decimal(text, 1u64 << level)
}

/// Adds a test, as a card has it.
pub(crate) fn push_test(text: &mut Vec<u8>, test: &Test) -> Result<(), AllocError>
    ensures { OnOk result (text.new.items ≡ text.old.items ++ spec.test_text test.now) }
{
    text.extend_from_slice(b"(")?;
    push_chain(text, &test.chain)?;
    text.extend_from_slice(b",")?;
    text.extend_from_slice(letter_of(test.comparison))?;
    text.extend_from_slice(b",")?;
    push_compared(text, &test.operand)?;
    text.extend_from_slice(b")")
}

/// The letter of a comparison.
fn letter_of(comparison: Comparison) -> &'static [u8]
    ensures { result.now ≡ spec.comparison_text comparison }
{
    match comparison {
        Comparison::Equal => b"E",
        Comparison::NotEqual => b"N",
        Comparison::Greater => b"G",
        Comparison::Less => b"L",
        Comparison::AllOnes => b"O",
        Comparison::AllZeros => b"Z",
    }
}

/// Adds that to which a test compares.
fn push_compared(text: &mut Vec<u8>, operand: &Operand) -> Result<(), AllocError>
    ensures { OnOk result (text.new.items ≡ text.old.items ++ spec.compared_text operand.now) }
{
    match operand {
        Operand::Chain(chain) => push_chain(text, chain),
        Operand::Number(word) => push_decimal(text, word.get()),
    }
}

/// Adds the test of a breakpoint, if it has one.
pub(crate) fn push_if(text: &mut Vec<u8>, test: Option<&Test>) -> Result<(), AllocError>
    ensures { OnOk result (text.new.items
        ≡ text.old.items ++ spec.if_text (option_map (λ test. test.now) test.entry)) }
{
    let Some(test) = test else {
        return Ok(());
    };
    text.extend_from_slice(b" if ")?;
    push_test(text, test)
}

/// Adds a position, and the label that it is at or after.
pub(crate) fn push_position(
    text: &mut Vec<u8>,
    at: Position,
    labels: &Labels,
) -> Result<(), AllocError>
    ensures { OnOk result
        (text.new.items ≡ text.old.items ++ spec.position_text labels.now.entries at) }
{
    push_decimal(text, at.statement)?;
    text.extend_from_slice(b".")?;
    push_decimal(text, at.action)?;
    push_label(text, u64::from(at.statement), labels)
}

/// Adds the last label at or before a statement, if there is one, and how many statements after it
/// that is.
pub(crate) fn push_label(
    text: &mut Vec<u8>,
    statement: u64,
    labels: &Labels,
) -> Result<(), AllocError>
    ensures { OnOk result
        (text.new.items ≡ text.old.items ++ spec.label_text labels.now.entries statement) }
{
    let Some((label, number)) = nearest_label(statement, labels) else {
        return Ok(());
    };
    text.extend_from_slice(b" ")?;
    text.extend_from_slice(label.characters())?;
    push_distance(text, number, statement)
}

/// Adds how many statements one is after another, if it is.
fn push_distance(text: &mut Vec<u8>, from: u64, statement: u64) -> Result<(), AllocError>
    ensures { OnOk result
        (text.new.items ≡ text.old.items ++ spec.after_text from statement) }
{
    if from < statement {
        text.extend_from_slice(b"+")?;
        push_decimal(text, statement - from)?;
    }
    Ok(())
}

/// The last label at or before a statement, and its statement.
pub fn nearest_label(statement: u64, labels: &Labels) -> Option<(&Label, u64)>
    ensures { option_map (λ found. (found.0.now, found.1)) result
        ≡ spec.nearest_from None statement labels.now.entries }
{
    let mut nearest = None;
    for (label, number) in labels.iter() {
        if u64::from(*number) <= statement {
            nearest = Some((label, u64::from(*number)));
        }
    }
    nearest
}
