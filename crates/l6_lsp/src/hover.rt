//! What is said of what is at a place.

use crate::card_list::CardList;
use crate::chains::{Element, defined_text, element_at, names_text};
use crate::labels::occurrence_at;
use crate::meaning::{Meaning, WORDS, meaning_of, test_meaning};
use crate::numbers::number_of_card;
use crate::place::Place;
use l6_group::{operation_of, test_of};
use l6_place::{Here, Item, Occurrence, Use, here_on, is_in_test, occurrences_of};
use l6_rpc::OutOfMemory;
use serde_json::{Value, json};
use std::alloc::{AllocError, Global};

/// What is said of what is at a place: of a label, where it leads; of a chain, what its names are; of another part of a
/// group, or of a word, what it does. `null` where there is nothing to say.
pub(crate) fn hover(alloc: Global, place: &Place<'_>) -> Result<Value, OutOfMemory> {
    let all = occurrences_of(alloc, place.deck)?;
    if let Some(this) = occurrence_at(all.as_slice(), place) {
        let text = label_text(alloc, place, all.as_slice(), this)?;
        return said(alloc, place, text, this.from, this.to);
    }
    let here = here_on(place.columns(), place.column);
    let element = element_at(place, here);
    if let Some(element) = element {
        if let Some(text) = names_text(alloc, place.deck, element)? {
            return said(alloc, place, text, element.from, element.to);
        }
    }
    match meaning_here(place, here) {
        None => Ok(Value::Null),
        Some(meaning) => {
            let text = meaning_text(alloc, place.deck, meaning, element)?;
            let (from, to) = columns_of(here);
            said(alloc, place, text, from, to)
        }
    }
}

/// The columns of what is here: of a word those without the blanks round it.
fn columns_of(here: Here<'_>) -> (usize, usize) {
    match here.item {
        Item::Word(word) => {
            let before = word.len().saturating_sub(word.trim_ascii_start().len());
            let from = here.from.saturating_add(before);
            (from, from.saturating_add(word.trim_ascii().len()))
        }
        _ => (here.from, here.to),
    }
}

/// What is said of an operation, a test or a word; at the word of a definition also what is said of its field.
fn meaning_text(
    alloc: Global,
    deck: &[u8],
    meaning: Meaning,
    element: Option<Element<'_>>,
) -> Result<String, AllocError> {
    let (form, sentence) = (meaning.form, meaning.sentence);
    let text = format!(in alloc; "`{form}`\n\n{sentence}")?;
    let Some(element) = element else {
        return Ok(text);
    };
    match defined_text(alloc, deck, element)? {
        None => Ok(text),
        Some(said) => format!(in alloc; "{text}\n\n{said}"),
    }
}

/// What the group or the word at a place does.
fn meaning_here(place: &Place<'_>, here: Here<'_>) -> Option<Meaning> {
    match here.item {
        Item::Label(_) | Item::Nothing => None,
        Item::Group(inside) => {
            if is_in_test(place.deck, place.card, here.from) {
                Some(test_meaning(test_of(inside)?.comparison))
            } else {
                Some(meaning_of(&operation_of(inside)?))
            }
        }
        Item::Word(word) => {
            let word = word.trim_ascii();
            WORDS
                .iter()
                .find(|meaning| meaning.word.as_bytes() == word)
                .copied()
        }
    }
}

/// What is said of a label: the statement that it leads to, and the cards that name it.
fn label_text(
    alloc: Global,
    place: &Place<'_>,
    all: &[Occurrence],
    this: &Occurrence,
) -> Result<String, AllocError> {
    let label = String::from_utf8_lossy(alloc, this.label.characters())?;
    let label = label.as_str();
    let given = all
        .iter()
        .find(|one| one.kind == Use::Gives && one.label == this.label);
    let Some(given) = given else {
        return format!(in alloc; "`{label}`\n\nNo card gives this label.");
    };
    let card = given.card;
    let number = number_of_card(alloc, place.deck, card)?;
    let mut cards = CardList::new(alloc);
    for one in all {
        if one.kind != Use::Gives && one.label == this.label {
            cards.add(one.card)?;
        }
    }
    let named = cards.text(alloc, "Named")?;
    format!(in alloc; "`{label}`\n\nStatement {number}, on card {card}. {named}")
}

/// The value of what is said.
fn said(
    alloc: Global,
    place: &Place<'_>,
    text: String,
    from: usize,
    to: usize,
) -> Result<Value, OutOfMemory> {
    let range = place.range(alloc, place.card, from, to)?;
    let text = Value::String(text);
    let value = json!(in alloc; {"contents": {"kind": "markdown", "value": text}, "range": range})?;
    Ok(value)
}
