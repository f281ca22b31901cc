//! Edits of a text by which a name stands in other places, and their values.

ghost use Rattle.std.specs.Prelude.{◌≡◌, map, IfOk};
ghost use Rattle.serde_json.specs.Data.{array};
ghost use Rattle.serde_json.specs.View.{view, items_of};
ghost use Rattle.l6_lsp.specs.Edits as spec;

use crate::ranges::range_value;
use l6_place::{Spot, changed};
use serde_json::{Map, Value, json};
use std::alloc::{AllocError, Global};

/// The text in which a name stands in place of what each of these ranges has, one range after another.
///
/// # Errors
///
/// Memory ran out.
pub(crate) fn edited(
    alloc: Global,
    text: &[u8],
    ranges: &[(Spot, Spot)],
    name: &[u8],
) -> Result<Vec<u8>, AllocError>
    ensures { IfOk result (λ it. it.items ≡ spec.edited text.now ranges.now name.now) }
{
    let mut current = text.to_vec(alloc)?;
    for (start, end) in ranges {
        current = changed(alloc, current.as_slice(), *start, *end, name)?;
    }
    Ok(current)
}

/// Whether ranges are apart, each before the one in front of it.
pub(crate) fn are_apart(ranges: &[(Spot, Spot)]) -> bool
    ensures { result ≡ spec.are_apart ranges.now }
{
    match ranges.first() {
        None => true,
        Some((_, end)) => are_before(*end, ranges),
    }
}

/// Whether ranges are apart and before a place, each before the one in front of it.
fn are_before(limit: Spot, ranges: &[(Spot, Spot)]) -> bool
    ensures { result ≡ spec.are_before limit ranges.now }
{
    let mut limit = limit;
    let mut rest = ranges;
    while let Some(((start, end), following)) = rest.split_first() {
        if !is_up_to(*start, *end) || !is_up_to(*end, limit) {
            return false;
        }
        limit = *start;
        rest = following;
    }
    true
}

/// Whether a place is not after another.
pub(crate) fn is_up_to(one: Spot, other: Spot) -> bool
    ensures { result ≡ spec.is_up_to one other }
{
    one.line < other.line || (one.line == other.line && one.character <= other.character)
}

/// The value of the edits of a document by which a name stands in place of what these ranges have.
///
/// # Errors
///
/// Memory ran out.
pub(crate) fn edits_value(
    alloc: Global,
    uri: &str,
    ranges: &[(Spot, Spot)],
    name: &str,
) -> Result<Value, AllocError>
    ensures { IfOk result (λ value. view value ≡ spec.edits_value uri.now ranges.now name.now) }
{
    let mut list = Vec::new(alloc);
    for (start, end) in ranges {
        list.push(edit_value(alloc, *start, *end, name)?)?;
    }
    changes_value(alloc, uri, Value::Array(list))
}

/// The value of an edit.
fn edit_value(alloc: Global, start: Spot, end: Spot, name: &str) -> Result<Value, AllocError>
    ensures { IfOk result (λ value. view value ≡ spec.edit_value start end name.now) }
{
    let range = range_value(alloc, start, end)?;
    json!(in alloc; {"range": range, "newText": name})
}

/// The value of the changes of a document that has these edits.
fn changes_value(alloc: Global, uri: &str, edits: Value) -> Result<Value, AllocError>
    ensures { IfOk result (λ value. view value ≡ spec.changes_value uri.now (view edits)) }
{
    let mut changes = Map::new(alloc);
    drop(changes.insert(String::from_str(alloc, uri)?, edits)?);
    let changes = Value::Object(changes);
    json!(in alloc; {"changes": changes})
}
