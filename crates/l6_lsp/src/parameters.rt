//! What the messages of a client say: the members that are read, at the paths that the protocol gives them.

ghost use Rattle.std.specs.Prelude.{◌≡◌, option_map};
ghost use Rattle.serde_json.specs.View.{view};
ghost use Rattle.l6_lsp.specs.Parameters as spec;

use l6_place::Spot;
use serde_json::Value;

/// The text at a path of a message. A path is written as RFC 6901 has it.
pub(crate) fn text_at<'a>(message: &'a Value, path: &str) -> Option<&'a str>
    ensures { option_map (λ text. text.now) result ≡ spec.text_at path.now (view message.now) }
{
    message.pointer(path).and_then(Value::as_str)
}

/// The name of the document that a message is about.
pub(crate) fn uri_of(message: &Value) -> Option<&str>
    ensures { option_map (λ text. text.now) result ≡ spec.uri_of (view message.now) }
{
    text_at(message, "/params/textDocument/uri")
}

/// The version that a message gives its document, or 0.
pub(crate) fn version_of(message: &Value) -> u64
    ensures { result ≡ spec.version_of (view message.now) }
{
    message
        .pointer("/params/textDocument/version")
        .and_then(Value::as_u64)
        .unwrap_or(0)
}

/// The place that a value gives.
pub(crate) fn spot_in(value: &Value) -> Option<Spot>
    ensures { result ≡ spec.spot_in (view value.now) }
{
    Some(Spot {
        line: value.get("line").and_then(Value::as_u64)?,
        character: value.get("character").and_then(Value::as_u64)?,
    })
}

/// The two places of the range at a path of a message.
pub(crate) fn range_at(message: &Value, path: &str) -> Option<(Spot, Spot)>
    ensures { result ≡ spec.range_at path.now (view message.now) }
{
    range_in(message.pointer(path)?)
}

/// The two places of a range.
pub(crate) fn range_in(value: &Value) -> Option<(Spot, Spot)>
    ensures { result ≡ spec.range_in (view value.now) }
{
    let start = spot_in(value.get("start")?)?;
    let end = spot_in(value.get("end")?)?;
    Some((start, end))
}
