//! Requests, as they come.

ghost use Rattle.std.specs.Prelude.{◌≡◌, map, true, false, None, IsSome, IfSome, option_and_then};
ghost use Rattle.std.specs.Option.{option_map};
ghost use Rattle.serde_json.specs.Find.{get};
ghost use Rattle.serde_json.specs.View.{view};
ghost use Rattle.l6_dap.specs.Launching.{flag_in};
ghost use Rattle.l6_dap.specs.Members.{number_in};
ghost use Rattle.l6_dap.specs.Requests.{argument_of, arguments_in, command_in, is_passed_over, seq_in};
ghost use Rattle.l6_dap.specs.inner.Asked.{arguments_of, list_by};

use serde_json::Value;

/// A request.
#[derive(Clone, Copy)]
pub(crate) struct Request<'a> {
    /// Its number, which its answer repeats.
    pub(crate) seq: u64,
    /// What is asked for.
    pub(crate) command: &'a str,
    /// What belongs to it.
    arguments: Option<&'a Value>,
}

impl<'a> Request<'a> {
    /// The request that a message is. A message that is none asks for nothing, which is refused; answers and events of
    /// the client are no requests, and are passed over.
    pub(crate) fn of(message: &'a Value) -> Option<Self>
        ensures passed { is_passed_over (view message.now) ≡ true → result ≡ None }
        ensures some { is_passed_over (view message.now) ≡ false → IsSome result }
        ensures seq { IfSome result (λ it. it.seq ≡ seq_in (view message.now)) }
        ensures command { IfSome result (λ it. it.command.now ≡ command_in (view message.now)) }
        ensures arguments { IfSome result (λ it.
            arguments_of it ≡ arguments_in (view message.now)) }
    {
        match message.get("type").and_then(Value::as_str) {
            Some("response") | Some("event") => None,
            _ => Some(Request {
                seq: message.get("seq").and_then(Value::as_u64).unwrap_or(0),
                command: message.get("command").and_then(Value::as_str).unwrap_or(""),
                arguments: message.get("arguments"),
            }),
        }
    }

    /// The value of an argument.
    pub(crate) fn value(&self, name: &str) -> Option<&'a Value>
        ensures { option_map (λ it. view it.now) result
            ≡ option_and_then (get name.now) (arguments_of self.now) }
    {
        self.arguments?.get(name)
    }

    /// The text of an argument.
    pub(crate) fn text(&self, name: &str) -> Option<&'a str>
        ensures { option_map (λ it. it.now) result
            ≡ argument_of name.now (arguments_of self.now) }
    {
        self.value(name).and_then(Value::as_str)
    }

    /// The number of an argument.
    pub(crate) fn number(&self, name: &str) -> Option<u64>
        ensures { result ≡ option_and_then (number_in name.now) (arguments_of self.now) }
    {
        self.value(name).and_then(Value::as_u64)
    }

    /// Whether a flag is given.
    pub(crate) fn flag(&self, name: &str) -> bool
        ensures { result ≡ flag_in name.now (arguments_of self.now) }
    {
        self.value(name).and_then(Value::as_bool).unwrap_or(false)
    }

    /// The values of an argument that is a list.
    #[tactic(auto, using(crate::proofs::Listed::listed_items))]
    pub(crate) fn list(&self, name: &str) -> &'a [Value]
        ensures { map (λ it. view it) result.now ≡ list_by self.now name.now }
    {
        match self.value(name).and_then(Value::as_array) {
            None => &[],
            Some(list) => list.as_slice(),
        }
    }
}
