//! Events: what an editor is told after the answer to its request.

ghost use Rattle.std.specs.Prelude.{◌≡◌, ◌++◌, ◌∷◌, [], IfOk, None, Some};
ghost use Rattle.serde_json.specs.View.{view};
ghost use Rattle.l6_dap.specs.Messages as spec;
ghost use Rattle.l6_dap.specs.Messages.{IsEvent};
ghost use Rattle.l6_dap.specs.Printed.{printed_by_event, told};

use l6_rpc::OutOfMemory;
use serde_json::{Value, json};
use std::alloc::{AllocError, Global};
use std::marker::Model;

/// A message that is an event.
#[derive(Drop)]
pub struct Event {
    message: Value,
}

impl Model for Event {
    ghost use Rattle.std.specs.Prelude.{ℕ, List};
    ghost use Rattle.serde_json.specs.View as json;
    ghost use Rattle.l6_dap.specs.Messages.{IsEvent};
    ghost use Rattle.l6_dap.specs.Printed.{printed_by_event};

    ghost Value = { List ℕ };

    ghost view = { λ event. printed_by_event (json.view event.message) };

    ghost invariant = { λ event. IsEvent (json.view event.message) };
}

impl Event {
    /// The event of this number and name, with what there is to say of it.
    fn new(alloc: Global, number: u64, name: &str, body: Value) -> Result<Self, AllocError>
        ensures { IfOk result (λ it. it ≡ told name.now (Some (view body))) }
    {
        let message = message_with(alloc, number, name, body)?;
        Ok(Event { message })
    }

    /// The event of this number and name, of which there is nothing more to say.
    fn plain(alloc: Global, number: u64, name: &str) -> Result<Self, AllocError>
        ensures { IfOk result (λ it. it ≡ told name.now None) }
    {
        let message = message_named(alloc, number, name)?;
        Ok(Event { message })
    }

    /// The message.
    pub fn message(&self) -> &Value
        ensures printed { printed_by_event (view result.now) ≡ self.now }
        ensures event { IsEvent (view result.now) }
    {
        &self.message
    }
}

/// The message of an event.
fn message_with(alloc: Global, number: u64, name: &str, body: Value) -> Result<Value, AllocError>
    ensures { IfOk result (λ it. view it ≡ spec.event number name.now (view body)) }
{
    json!(in alloc; {"seq": number, "type": "event", "event": name, "body": body})
}

/// The message of an event of which there is nothing more to say.
fn message_named(alloc: Global, number: u64, name: &str) -> Result<Value, AllocError>
    ensures { IfOk result (λ it. view it ≡ spec.plain_event number name.now) }
{
    json!(in alloc; {"seq": number, "type": "event", "event": name})
}

/// The events that follow an answer, in order.
#[derive(Drop)]
pub(crate) struct Events {
    /// The number of the latest message.
    number: u64,
    list: Vec<Event>,
}

impl Model for Events {
    ghost use Rattle.std.specs.Prelude.{ℕ, List};

    ghost Value = { List (List ℕ) };

    ghost view = { λ events. events.list.items };
}

impl Events {
    /// No event, after a message of this number.
    pub(crate) fn after(alloc: Global, number: u64) -> Self
        ensures { result ≡ [] }
    {
        Events {
            number,
            list: Vec::new(alloc),
        }
    }

    /// The number of the latest message.
    pub(crate) fn number(&self) -> u64 {
        self.number
    }

    /// The events.
    pub(crate) fn into_list(self) -> Vec<Event>
        ensures { result.items ≡ self }
    {
        let Events { list, .. } = self;
        list
    }

    /// Something has happened.
    pub(crate) fn tell(&mut self, alloc: Global, name: &str, body: Value) -> Result<(), OutOfMemory>
        ensures { IfOk result (λ it. self.new ≡ self.old ++ told name.now (Some (view body)) ∷ []) }
    {
        let number = self.next();
        self.list.push(Event::new(alloc, number, name, body)?)?;
        Ok(())
    }

    /// Something has happened of which there is nothing more to say.
    pub(crate) fn tell_plainly(&mut self, alloc: Global, name: &str) -> Result<(), OutOfMemory>
        ensures { IfOk result (λ it. self.new ≡ self.old ++ told name.now None ∷ []) }
    {
        let number = self.next();
        self.list.push(Event::plain(alloc, number, name)?)?;
        Ok(())
    }

    /// The number of the next message.
    fn next(&mut self) -> u64
        ensures { self.new ≡ self.old }
    {
        self.number = self.number.saturating_add(1);
        self.number
    }
}
