//! The listing of a deck.

ghost use Rattle.std.specs.Prelude.{◌≡◌, ◌<◌, ◌++◌, List, true, codes, length, IfOk, OnOk};
ghost use Rattle.std.specs.List.{flat_map, list_all};
ghost use Rattle.l6_asm.specs.Listing as spec;

use crate::assembly::{Assembly, Labels};
use crate::card_lines::CardLines;
use crate::line::{push_card, push_label, push_words};
use crate::statement_words::StatementWords;
use l6_image::statement_words;
use l6_prog::Program;
use std::alloc::{AllocError, Global};

/// The listing of a deck, with the program and the labels of its assembly: a line for each card,
/// with the words of each statement after its last card; the plain `DONE` that is added to every
/// deck, with its word; and the labels, in the order of the cards, each with the number of its
/// statement.
///
/// # Errors
///
/// Memory ran out.
#[tactic(auto, unfolding(crate::specs::Listing::listing_of))]
pub fn listing(alloc: Global, assembly: &Assembly, deck: &[u8]) -> Result<Vec<u8>, AllocError>
    ensures { IfOk result (λ text. text.items ≡ spec.listing_of deck.now assembly.now) }
{
    let words = StatementWords::of(alloc, assembly.program())?;
    let mut text = Vec::new(alloc);
    push_cards(&mut text, CardLines::new(deck, &words))?;
    push_end(alloc, &mut text, assembly)?;
    Ok(text)
}

/// What the listing of a deck has after the lines of its cards: the plain `DONE` that is added, and
/// the labels.
///
/// # Errors
///
/// Memory ran out.
pub fn listing_end(alloc: Global, assembly: &Assembly) -> Result<Vec<u8>, AllocError>
    ensures { IfOk result (λ text. text.items ≡ spec.end_listed assembly.now) }
{
    let mut text = Vec::new(alloc);
    push_end(alloc, &mut text, assembly)?;
    Ok(text)
}

/// Adds all lines of a deck's cards.
fn push_cards(text: &mut Vec<u8>, lines: CardLines<'_>) -> Result<(), AllocError>
    ensures { OnOk result (text.new.items ≡ text.old.items ++ lines.entry) }
{
    let mut lines = lines;
    while lines.add_line(text)? {}
    Ok(())
}

/// Adds what is after the lines of the cards.
fn push_end(alloc: Global, text: &mut Vec<u8>, assembly: &Assembly) -> Result<(), AllocError>
    ensures { OnOk result (text.new.items ≡ text.old.items ++ spec.end_listed assembly.now) }
{
    push_added(alloc, text, assembly.program())?;
    text.extend_from_slice(b"LABELS\n")?;
    push_labels(text, assembly.labels())
}

/// Adds the statement that is added to each deck, and its word.
fn push_added(alloc: Global, text: &mut Vec<u8>, program: &Program) -> Result<(), AllocError>
    ensures { OnOk result (text.new.items ≡ text.old.items ++ spec.added_listed program.now) }
{
    let number = program.statements().len().saturating_sub(1);
    push_card(text, None, Some(number), b" DONE")?;
    push_statement(alloc, text, program, number)
}

/// Adds the lines of labels.
fn push_labels(text: &mut Vec<u8>, labels: &Labels) -> Result<(), AllocError>
    ensures { OnOk result
        (text.new.items ≡ text.old.items ++ flat_map spec.label_line labels.now.entries) }
{
    for (label, number) in labels.iter() {
        push_label(text, label, *number)?;
    }
    Ok(())
}

/// Adds the lines of the words of the program's statement of this number, if it has one.
fn push_statement(
    alloc: Global,
    text: &mut Vec<u8>,
    program: &Program,
    number: usize,
) -> Result<(), AllocError>
    ensures { OnOk result
        (text.new.items ≡ text.old.items ++ spec.statement_lines program.now number) }
{
    if number < program.statements().len() {
        let words = statement_words(alloc, program.statement(number as u16))?;
        push_words(text, &words)?;
    }
    Ok(())
}
