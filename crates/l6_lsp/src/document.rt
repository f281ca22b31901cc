//! Documents: texts that an editor has open.

ghost use Rattle.std.specs.Prelude.{◌≡◌, IfOk, option_map, vec_len};
ghost use Rattle.serde_json.specs.View.{view, items_view};
ghost use Rattle.l6_lsp.specs.Document as spec;

use crate::edits::is_up_to;
use crate::parameters::{range_in, text_at};
use l6_device::{head_parts_of, parts_of};
use l6_place::changed;
use serde_json::Value;
use std::alloc::{AllocError, Global};

/// A text that an editor has open.
#[derive(Drop)]
pub struct Document {
    /// The version that the editor gave it.
    pub version: u64,
    /// The text, in UTF-8.
    pub text: Vec<u8>,
}

impl Document {
    /// The deck in it: what stands before the input and the commands of a job.
    pub fn deck(&self) -> &[u8]
        ensures { result.now ≡ spec.deck_of self.now.text.items }
    {
        deck_in(self.text.as_slice())
    }
}

/// The deck in a text.
pub(crate) fn deck_in(text: &[u8]) -> &[u8]
    ensures { result.now ≡ spec.deck_of text.now }
{
    head_parts_of(parts_of(text).head).deck
}

/// The text after the changes of a message, one after another.
///
/// # Errors
///
/// Memory ran out.
pub(crate) fn after_changes(
    alloc: Global,
    text: &[u8],
    message: &Value,
) -> Result<Vec<u8>, AllocError>
    ensures { IfOk result (λ text_after.
        text_after.items ≡ spec.after_message text.now (view message.now)) }
{
    let mut current = text.to_vec(alloc)?;
    let Some(changes) = changes_of(message) else {
        return Ok(current);
    };
    for change in changes {
        current = after_change(alloc, current, change)?;
    }
    Ok(current)
}

/// The changes of a message.
fn changes_of(message: &Value) -> Option<&Vec<Value>>
    ensures { option_map (λ changes. items_view changes.now.items) result
        ≡ spec.changes_of (view message.now) }
{
    message
        .pointer("/params/contentChanges")
        .and_then(Value::as_array)
}

/// The text after a change: the whole text, where it gives no range; and where it gives one, what stands there
/// then. Anything else is no change, and so is a range whose end is before its start.
fn after_change(alloc: Global, text: Vec<u8>, change: &Value) -> Result<Vec<u8>, AllocError>
    ensures { IfOk result (λ text_after.
        text_after.items ≡ spec.after_change text.items (view change.now)) }
{
    let Some(bytes) = change.get("text").and_then(Value::as_str) else {
        return Ok(text);
    };
    let Some(range) = change.get("range") else {
        return bytes.as_bytes().to_vec(alloc);
    };
    match range_in(range) {
        Some((start, end)) => {
            if is_up_to(start, end) {
                changed(alloc, text.as_slice(), start, end, bytes.as_bytes())
            } else {
                Ok(text)
            }
        }
        None => Ok(text),
    }
}
