//! The lines of cards, and to which statements they belong.

ghost use Rattle.std.specs.Prelude.{◌≡◌, ◌<◌, ◌^◌, ◌++◌, OnOk, replicate};
ghost use Rattle.std.specs.Str.{byte};
ghost use Rattle.l6_marks.specs.Cards as spec;

use itoa::Buffer;
use l6_card::Role;
use l6_word::without_return;
use std::alloc::AllocError;

/// In how many columns the number of a card is.
pub(crate) const CARD_PLACES: usize = 5;

/// What is said of the statement that has no card.
const ADDED: &[u8] = b"      the DONE that follows the last card\n";

/// How many statements have begun with a card, where so many had before it.
pub fn begun_with(role: Role, before: usize) -> usize
    requires { before < 2 ^ 63 }
    ensures { result ≡ spec.begun_with role before }
{
    match role {
        Role::First => before + 1,
        _ => before,
    }
}

/// The number of the statement of a card, where so many have begun with it.
pub fn statement_with(role: Role, begun: usize) -> Option<u64>
    ensures { result ≡ spec.statement_with role begun }
{
    match role {
        Role::First | Role::Further => Some(begun.saturating_sub(1) as u64),
        _ => None,
    }
}

/// Whether a card is one of a statement's, where so many have begun with it.
pub fn is_of(statement: u64, role: Role, begun: usize) -> bool
    ensures { result ≡ spec.is_statement statement (spec.statement_with role begun) }
{
    match statement_with(role, begun) {
        Some(number) => number == statement,
        None => false,
    }
}

/// Adds the line of a card: its number, and what is on it.
///
/// # Errors
///
/// Memory ran out.
pub fn push_card(text: &mut Vec<u8>, card: usize, line: &[u8]) -> Result<(), AllocError>
    ensures { OnOk result (text.new.items ≡ text.old.items ++ spec.card_line card line.now) }
{
    let mut buffer = Buffer::new();
    let digits = buffer.format(card).as_bytes();
    push_blanks(text, CARD_PLACES.saturating_sub(digits.len()))?;
    text.extend_from_slice(digits)?;
    text.extend_from_slice(b" ")?;
    text.extend_from_slice(without_return(line))?;
    text.extend_from_slice(b"\n")
}

/// Adds what is said of the statement that has no card, if this is the one, where the program has so many.
///
/// # Errors
///
/// Memory ran out.
pub fn push_added(text: &mut Vec<u8>, statements: usize, statement: u64) -> Result<(), AllocError>
    ensures { OnOk result (text.new.items ≡ text.old.items ++ spec.added_text statements statement) }
{
    if is_added(statements, statement) {
        text.extend_from_slice(ADDED)
    } else {
        Ok(())
    }
}

/// Whether a statement is the one that is added to each deck, where the program has so many.
fn is_added(statements: usize, statement: u64) -> bool
    ensures { result ≡ spec.is_added statements statement }
{
    0 < statements && statements as u64 - 1 == statement
}

/// Adds so many blanks.
///
/// # Errors
///
/// Memory ran out.
pub fn push_blanks(text: &mut Vec<u8>, count: usize) -> Result<(), AllocError>
    ensures { OnOk result (text.new.items ≡ text.old.items ++ replicate count (byte " ")) }
{
    for _ in 0..count {
        text.push(b' ')?;
    }
    Ok(())
}
