//! The labels of a deck: where they are given and named.

use crate::place::Place;
use crate::ranges::columns_value;
use l6_place::{CardStarts, Occurrence, Use, occurrences_of};
use l6_rpc::OutOfMemory;
use serde_json::{Value, json};
use std::alloc::{AllocError, Global};

/// The place of a label that has a column, or ends there.
pub(crate) fn occurrence_at<'a>(
    all: &'a [Occurrence],
    place: &Place<'_>,
) -> Option<&'a Occurrence> {
    all.iter().find(|one| {
        one.card == place.card && one.from <= place.column && place.column <= one.to
    })
}

/// The text of a label.
pub(crate) fn text_of(alloc: Global, characters: &[u8]) -> Result<Value, AllocError> {
    Ok(Value::String(String::from_utf8_lossy(alloc, characters)?))
}

/// Where the label at a place is given: `null` where no card gives it, or no label is there.
pub(crate) fn definition(alloc: Global, place: &Place<'_>) -> Result<Value, OutOfMemory> {
    let all = occurrences_of(alloc, place.deck)?;
    let Some(this) = occurrence_at(all.as_slice(), place) else {
        return Ok(Value::Null);
    };
    let given = all
        .iter()
        .find(|one| one.kind == Use::Gives && one.label == this.label);
    match given {
        None => Ok(Value::Null),
        Some(one) => {
            let range = place.range(alloc, one.card, one.from, one.to)?;
            let uri = place.uri;
            let value = json!(in alloc; {"uri": uri, "range": range})?;
            Ok(value)
        }
    }
}

/// Where the label at a place is named, and where it is given, if that is wanted.
pub(crate) fn references(
    alloc: Global,
    place: &Place<'_>,
    has_given: bool,
) -> Result<Value, OutOfMemory> {
    let all = occurrences_of(alloc, place.deck)?;
    let mut list = Vec::new(alloc);
    if let Some(this) = occurrence_at(all.as_slice(), place) {
        for one in &all {
            if one.label == this.label && (has_given || one.kind != Use::Gives) {
                let range = place.range(alloc, one.card, one.from, one.to)?;
                let uri = place.uri;
                list.push(json!(in alloc; {"uri": uri, "range": range})?)?;
            }
        }
    }
    Ok(Value::Array(list))
}

/// The places of the label at a place, on the page that is shown.
pub(crate) fn highlights(alloc: Global, place: &Place<'_>) -> Result<Value, OutOfMemory> {
    let all = occurrences_of(alloc, place.deck)?;
    let mut list = Vec::new(alloc);
    if let Some(this) = occurrence_at(all.as_slice(), place) {
        for one in &all {
            if one.label == this.label {
                let range = place.range(alloc, one.card, one.from, one.to)?;
                // 3: it is written; 2: it is read
                let kind: u8 = if one.kind == Use::Gives { 3 } else { 2 };
                list.push(json!(in alloc; {"range": range, "kind": kind})?)?;
            }
        }
    }
    Ok(Value::Array(list))
}

/// The labels that the cards of a deck give.
pub(crate) fn symbols(alloc: Global, deck: &[u8]) -> Result<Value, OutOfMemory> {
    let starts = CardStarts::of(alloc, deck)?;
    let all = occurrences_of(alloc, deck)?;
    let mut list = Vec::new(alloc);
    for one in &all {
        if one.kind == Use::Gives {
            let name = text_of(alloc, one.label.characters())?;
            let width = starts.card(one.card).len();
            let whole = columns_value(alloc, &starts, one.card, 0, width)?;
            let range = columns_value(alloc, &starts, one.card, one.from, one.to)?;
            // 12: a function
            list.push(json!(in alloc; {"name": name, "kind": 12, "range": whole,
                "selectionRange": range})?)?;
        }
    }
    Ok(Value::Array(list))
}
