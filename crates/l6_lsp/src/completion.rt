//! What may be written at a place.

use crate::candidates::WIDTH;
use crate::labels::text_of;
use crate::meaning::{Meaning, OPERATIONS, PRINT_LINE, TESTS, WORDS};
use crate::place::Place;
use l6_place::{Use, is_in_test, occurrences_of};
use l6_rpc::OutOfMemory;
use serde_json::{Value, json};
use std::alloc::Global;

/// The kinds of the protocol: a reference, a keyword.
const REFERENCE: u8 = 18;

const KEYWORD: u8 = 14;

/// What is wanted at a place.
#[derive(Clone, Copy, Debug, PartialEq, Eq)]
enum Wanted {
    /// It does not count, or takes what no list has.
    Nothing,
    /// It is outside of groups.
    Outside,
    /// It is in the first element of an operation.
    First,
    /// It is in the second one, which is the operation's word.
    Operation,
    /// It is in a later one.
    Later,
    /// It is in the second element of a test, which is the comparison.
    Comparison,
}

impl Wanted {
    /// The words that may stand there.
    fn words(self) -> &'static [Meaning] {
        match self {
            Wanted::Nothing | Wanted::Later => &[],
            Wanted::Outside => &WORDS,
            Wanted::First => &[PRINT_LINE],
            Wanted::Operation => &OPERATIONS,
            Wanted::Comparison => &TESTS,
        }
    }

    /// Whether labels may stand there.
    fn has_labels(self) -> bool {
        match self {
            Wanted::Nothing | Wanted::Comparison => false,
            Wanted::Outside | Wanted::First | Wanted::Operation | Wanted::Later => true,
        }
    }
}

/// What may be written at a place: in a group the words of operations, or of comparisons where it is a test; outside of
/// groups conditions, THEN, DONE and FAIL; and where labels may stand those that cards give. Nothing in a comment and
/// past column 72.
pub(crate) fn completion(alloc: Global, place: &Place<'_>) -> Result<Value, OutOfMemory> {
    let mut list = Vec::new(alloc);
    let wanted = wanted_at(place);
    push_all(alloc, &mut list, wanted.words())?;
    if wanted.has_labels() {
        push_labels(alloc, &mut list, place.deck)?;
    }
    Ok(Value::Array(list))
}

/// What is wanted at a place.
fn wanted_at(place: &Place<'_>) -> Wanted {
    let columns = place.columns();
    if columns.first() == Some(&b'*') || WIDTH <= place.column {
        return Wanted::Nothing;
    }
    let Some((from, commas)) = group_before(columns, place.column) else {
        return Wanted::Outside;
    };
    if is_in_test(place.deck, place.card, from) {
        return if commas == 1 {
            Wanted::Comparison
        } else {
            Wanted::Nothing
        };
    }
    match commas {
        0 => Wanted::First,
        1 => Wanted::Operation,
        _ => Wanted::Later,
    }
}

/// The column of the `(` that no `)` has closed in front of a column, and how many commas are between them.
fn group_before(columns: &[u8], column: usize) -> Option<(usize, usize)> {
    let front = columns.get(..column).unwrap_or(columns);
    let from = front.iter().rposition(|byte| *byte == b'(')?;
    let inside = front.get(from..)?;
    if inside.contains(&b')') {
        return None;
    }
    let commas = inside.iter().filter(|byte| **byte == b',').count();
    Some((from, commas))
}

/// Adds words with what they do.
fn push_all(alloc: Global, list: &mut Vec<Value>, meanings: &[Meaning]) -> Result<(), OutOfMemory> {
    for meaning in meanings {
        let (word, form, sentence) = (meaning.word, meaning.form, meaning.sentence);
        let kind = KEYWORD;
        list.push(
            json!(in alloc; {"label": word, "kind": kind, "detail": form,
            "documentation": sentence})?,
        )?;
    }
    Ok(())
}

/// Adds the labels that the cards of a deck give.
fn push_labels(alloc: Global, list: &mut Vec<Value>, deck: &[u8]) -> Result<(), OutOfMemory> {
    for one in &occurrences_of(alloc, deck)? {
        if one.kind == Use::Gives {
            let name = text_of(alloc, one.label.characters())?;
            let kind = REFERENCE;
            let card = one.card;
            let detail = Value::String(format!(in alloc; "the label of card {card}")?);
            list.push(json!(in alloc; {"label": name, "kind": kind, "detail": detail})?)?;
        }
    }
    Ok(())
}
