//! Labels that get another name, in all places, so that the program stays the same.

ghost use Rattle.std.specs.Prelude.{◌≡◌, ℕ, List, Option, Some, IfOk, IfSome, option_map, option_and_then};
ghost use Rattle.serde_json.specs.View.{view};
ghost use Rattle.l6_group.specs.Label.{label_of};
ghost use Rattle.l6_lsp.specs.Renaming as spec;

use crate::document::{Document, deck_in};
use crate::edits::{are_apart, edited, edits_value};
use crate::labels::occurrence_at;
use crate::place::Place;
use crate::programs::is_renamed;
use l6_group::{Label, label_of};
use l6_place::{Occurrence, Spot, occurrences_of};
use l6_rpc::{OutOfMemory, Refusal};
use serde_json::Value;
use std::alloc::{AllocError, Global};

/// How many places of a label are renamed: each takes a copy of the text.
const MOST_PLACES: usize = 1_000;

/// Why no label gets the name, in words.
const NO_LABEL: &str = "a label is a letter and up to 5 letters or digits, and not DONE or FAIL";

const NOTHING_HERE: &str = "no label is here";

const TAKEN: &str = "the deck has this label already";

const TOO_MANY: &str = "the label stands in more than 1,000 places";

const ANOTHER_PROGRAM: &str =
    "with this name the deck would not spell the same program: it has errors, or a card would be too long";

/// The edits that give the label at a place of a document another name, or why there are none.
///
/// # Errors
///
/// Memory ran out.
pub(crate) fn rename(
    alloc: Global,
    uri: &str,
    document: &Document,
    place: &Place<'_>,
    wanted: Option<&str>,
) -> Result<Result<Value, Refusal>, OutOfMemory>
    ensures { IfOk result (λ outcome. IfOk outcome (λ value. spec.IsRenaming uri.now
        document.now.text.items (option_map (λ text. text.now) wanted.entry) (view value))) }
{
    let Some(name) = wanted_label(wanted) else {
        return Ok(Err(Refusal::Failed(NO_LABEL)));
    };
    let all = occurrences_of(alloc, place.deck)?;
    let Some(this) = occurrence_at(all.as_slice(), place) else {
        return Ok(Err(Refusal::Failed(NOTHING_HERE)));
    };
    if all.iter().any(|one| one.label == name) {
        return Ok(Err(Refusal::Failed(TAKEN)));
    }
    let ranges = ranges_of(alloc, place, all.as_slice(), &this.label)?;
    if ranges.len() > MOST_PLACES {
        return Ok(Err(Refusal::Failed(TOO_MANY)));
    }
    let text = document.text.as_slice();
    match renamed(alloc, uri, text, ranges.as_slice(), &this.label, &name)? {
        None => Ok(Err(Refusal::Failed(ANOTHER_PROGRAM))),
        Some(value) => Ok(Ok(value)),
    }
}

/// The label that is wanted, if it is one.
fn wanted_label(wanted: Option<&str>) -> Option<Label>
    ensures { result ≡ option_and_then label_of (option_map (λ text. text.now) wanted.entry) }
{
    match wanted {
        None => None,
        Some(text) => label_of(text.as_bytes()),
    }
}

/// The edits of a document's text by which a name stands in these ranges: nothing where its deck would not spell
/// the same program then, in which a label has that name.
fn renamed(
    alloc: Global,
    uri: &str,
    text: &[u8],
    ranges: &[(Spot, Spot)],
    label: &Label,
    name: &Label,
) -> Result<Option<Value>, OutOfMemory>
    ensures { IfOk result (λ it. IfSome it (λ value. (wanted : Option (List ℕ)) →
        option_and_then label_of wanted ≡ Some name.now →
        spec.IsRenaming uri.now text.now wanted (view value))) }
{
    if !are_apart(ranges) {
        return Ok(None);
    }
    let written = String::from_utf8_lossy(alloc, name.characters())?;
    let after = edited(alloc, text, ranges, written.as_bytes())?;
    if !is_renamed(alloc, deck_in(text), deck_in(after.as_slice()), label, name)? {
        return Ok(None);
    }
    let value = edits_value(alloc, uri, ranges, written.as_str())?;
    Ok(Some(value))
}

/// The ranges of a label's places, the last place first.
fn ranges_of(
    alloc: Global,
    place: &Place<'_>,
    places: &[Occurrence],
    label: &Label,
) -> Result<Vec<(Spot, Spot)>, AllocError> {
    let mut ranges = Vec::new(alloc);
    for one in places.iter().rev() {
        if one.label == *label {
            let start = place.starts.spot(one.card, one.from);
            let end = place.starts.spot(one.card, one.to);
            ranges.push((start, end))?;
        }
    }
    Ok(ranges)
}
