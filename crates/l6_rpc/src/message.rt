//! The messages that come.

ghost use Rattle.std.specs.Prelude.{◌≡◌};
ghost use Rattle.serde_json.specs.View.{view};
ghost use Rattle.l6_rpc.specs.Rpc.{kind_of};
ghost use Rattle.l6_rpc.specs.Seen.{seen};

use serde_json::Value;

/// What a message is.
#[derive(Clone, Copy)]
pub enum Message<'a> {
    /// A request with this id, of this method: it is answered.
    Request(&'a Value, &'a str),
    /// A notification of this method: it is not answered.
    Note(&'a str),
    /// The answer to a request.
    Response,
    /// None of these, with this id, if it has one.
    Malformed(Option<&'a Value>),
}

/// What a value is as a message.
pub fn message_of(value: &Value) -> Message<'_>
    ensures { seen result ≡ kind_of (view value.now) }
{
    let method = value.get("method").and_then(Value::as_str);
    match (method, value.get("id")) {
        (Some(method), Some(id)) => Message::Request(id, method),
        (Some(method), None) => Message::Note(method),
        (None, Some(id)) => {
            if value.get("result").is_some() || value.get("error").is_some() {
                Message::Response
            } else {
                Message::Malformed(Some(id))
            }
        }
        (None, None) => Message::Malformed(None),
    }
}
