//! A server: a service, and how far the talk with its client has come.

ghost use Rattle.std.specs.Prelude.{◌≡◌, Some, None, IfOk};
ghost use Rattle.std.specs.Option.{option_map};
ghost use Rattle.serde_json.specs.View.{view};
ghost use Rattle.l6_rpc.specs.Rpc.{kind_of};
ghost use Rattle.l6_rpc.specs.Takes as spec;

use crate::envelope::{answered, noted, refused};
use crate::message::{Message, message_of};
use crate::refusal::Refusal;
use crate::service::{Note, OutOfMemory, Service};
use serde_json::Value;
use std::alloc::Global;

/// How far the talk with a client has come.
#[derive(Clone, Copy, Debug, PartialEq, Eq)]
pub enum Phase {
    /// The server was not initialized yet.
    New,
    /// It answers.
    Ready,
    /// It was shut down.
    Down,
}

/// A service, and how far the talk with its client has come.
#[derive(Drop)]
pub struct Server<S> {
    /// What answers.
    pub service: S,
    /// How far the talk has come.
    pub phase: Phase,
}

/// What a message leads to.
#[derive(Drop)]
pub struct Reply {
    /// The message that is sent, if one is.
    pub message: Option<Value>,
    /// The exit status, if the program ends.
    pub status: Option<u8>,
}

impl<S: Service> Server<S> {
    /// A server that was not initialized yet.
    pub fn new(service: S) -> Self
        ensures service { result.service ≡ service }
        ensures phase { result.phase ≡ Phase.New }
    {
        Server {
            service,
            phase: Phase::New,
        }
    }

    /// Takes the body of a message: each request has one answer, with its id, and a notification none.
    ///
    /// # Errors
    ///
    /// Memory ran out.
    pub fn take(&mut self, alloc: Global, body: &[u8]) -> Result<Reply, OutOfMemory>
        ensures { IfOk result (λ reply. spec.Takes S.IsAble S.Answers S.Notes
            self.old.service self.new.service self.old.phase self.new.phase body.now
            (option_map view reply.message) reply.status) }
    {
        match Value::from_slice(alloc, body) {
            Ok(value) => {
                let reply = self.obey(alloc, &value)?;
                Ok(reply)
            }
            Err(error) => {
                if error.is_memory() {
                    return Err(OutOfMemory);
                }
                let message = refused(alloc, &Value::Null, Refusal::NoMessage)?;
                Ok(sending(message))
            }
        }
    }

    /// Takes the value of a message.
    fn obey(&mut self, alloc: Global, value: &Value) -> Result<Reply, OutOfMemory>
        ensures { IfOk result (λ reply. spec.Obeys S.IsAble S.Answers S.Notes
            self.old.service self.new.service self.old.phase self.new.phase (view value.now)
            (kind_of (view value.now)) (option_map view reply.message) reply.status) }
    {
        match message_of(value) {
            Message::Request(id, method) => {
                let message = match self.outcome(alloc, method, value)? {
                    Ok(outcome) => answered(alloc, id, outcome)?,
                    Err(why) => refused(alloc, id, why)?,
                };
                Ok(sending(message))
            }
            Message::Note(method) => self.noted(alloc, method, value),
            Message::Response => Ok(silent()),
            Message::Malformed(Some(id)) => { Ok(sending(refused(alloc, id, Refusal::NoRequest)?)) }
            Message::Malformed(None) => {
                Ok(sending(refused(alloc, &Value::Null, Refusal::NoRequest)?))
            }
        }
    }

    /// The outcome of a request.
    fn outcome(
        &mut self,
        alloc: Global,
        method: &str,
        value: &Value,
    ) -> Result<Result<Value, Refusal>, OutOfMemory>
        ensures outcome { IfOk result (spec.Requested S.IsAble S.Answers S.Notes self.old.service
            method.now (view value.now) self.old.phase self.new.phase) }
        ensures service { self.new.service ≡ self.old.service }
    {
        match (self.phase, method) {
            (Phase::New, "initialize") => {
                let abilities = self.service.abilities(alloc)?;
                self.phase = Phase::Ready;
                Ok(Ok(abilities))
            }
            (Phase::New, _) => Ok(Err(Refusal::NotReady)),
            (Phase::Ready, "initialize") | (Phase::Down, _) => Ok(Err(Refusal::NoRequest)),
            (Phase::Ready, "shutdown") => {
                self.phase = Phase::Down;
                Ok(Ok(Value::Null))
            }
            (Phase::Ready, _) => self.service.answer(alloc, method, value),
        }
    }

    /// Takes a notification.
    fn noted(&mut self, alloc: Global, method: &str, value: &Value) -> Result<Reply, OutOfMemory>
        ensures noted { IfOk result (λ reply. spec.Noted S.IsAble S.Answers S.Notes
            self.old.service self.new.service method.now (view value.now) self.old.phase
            (option_map view reply.message) reply.status) }
        ensures phase { self.new.phase ≡ self.old.phase }
    {
        if method == "exit" {
            let status = if self.phase == Phase::Down { 0 } else { 1 };
            return Ok(Reply {
                message: None,
                status: Some(status),
            });
        }
        if self.phase != Phase::Ready {
            return Ok(silent());
        }
        match self.service.note(alloc, method, value)? {
            None => Ok(silent()),
            Some(Note { method, parameters }) => Ok(sending(noted(alloc, method, parameters)?)),
        }
    }
}

/// A message is sent.
fn sending(message: Value) -> Reply
    ensures message { option_map view result.message ≡ Some (view message) }
    ensures status { result.status ≡ None }
{
    Reply {
        message: Some(message),
        status: None,
    }
}

/// Nothing is sent.
fn silent() -> Reply
    ensures message { option_map view result.message ≡ None }
    ensures status { result.status ≡ None }
{
    Reply {
        message: None,
        status: None,
    }
}
