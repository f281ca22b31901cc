//! Answers to requests.

ghost use Rattle.std.specs.Prelude.{◌≡◌, IfOk};
ghost use Rattle.serde_json.specs.View.{view};
ghost use Rattle.l6_dap.specs.Messages as spec;
ghost use Rattle.l6_dap.specs.Messages.Outcome.{done as was_done, answered as was_answered, refused as was_refused};
ghost use Rattle.l6_dap.specs.inner.Asked.{outcome_of};

use crate::request::Request;
use l6_rpc::OutOfMemory;
use serde_json::{Value, json};
use std::alloc::{AllocError, Global};

/// How a request is answered.
#[derive(Drop)]
pub(crate) enum Answer {
    /// It is done, and there is nothing to say.
    Done,
    /// It is done, and has this body.
    Body(Value),
    /// It is refused, for this reason.
    Refused(String),
}

/// A request is refused, for this reason.
pub(crate) fn refused(alloc: Global, why: &str) -> Result<Answer, OutOfMemory>
    ensures { IfOk result (λ it. outcome_of it ≡ was_refused why.now) }
{
    Ok(Answer::Refused(String::from_str(alloc, why)?))
}

/// The message of this number that answers a request.
pub(crate) fn message_of(
    alloc: Global,
    number: u64,
    request: Request<'_>,
    answer: Answer,
) -> Result<Value, AllocError>
    ensures { IfOk result (λ it. view it ≡ spec.answer number request.entry.seq
        request.entry.command.now (outcome_of answer)) }
{
    let (to, command) = (request.seq, request.command);
    match answer {
        Answer::Done => done(alloc, number, to, command),
        Answer::Body(body) => answered(alloc, number, to, command, body),
        Answer::Refused(why) => refusal(alloc, number, to, command, why.as_str()),
    }
}

/// The answer to a request that is done.
fn done(alloc: Global, number: u64, to: u64, command: &str) -> Result<Value, AllocError>
    ensures { IfOk result (λ it. view it ≡ spec.answer number to command.now was_done) }
{
    json!(in alloc; {"seq": number, "type": "response", "request_seq": to, "success": true, "command": command})
}

/// The answer to a request that is done, and has a body.
fn answered(
    alloc: Global,
    number: u64,
    to: u64,
    command: &str,
    body: Value,
) -> Result<Value, AllocError>
    ensures { IfOk result (λ it. view it
        ≡ spec.answer number to command.now (was_answered (view body))) }
{
    json!(in alloc; {"seq": number, "type": "response", "request_seq": to, "success": true,
        "command": command, "body": body})
}

/// The answer to a request that is refused.
fn refusal(
    alloc: Global,
    number: u64,
    to: u64,
    command: &str,
    why: &str,
) -> Result<Value, AllocError>
    ensures { IfOk result (λ it. view it
        ≡ spec.answer number to command.now (was_refused why.now)) }
{
    let error = error_body(alloc, why)?;
    json!(in alloc; {"seq": number, "type": "response", "request_seq": to, "success": false,
        "command": command, "message": why, "body": error})
}

/// What is shown of a refusal.
fn error_body(alloc: Global, why: &str) -> Result<Value, AllocError>
    ensures { IfOk result (λ it. view it ≡ spec.error_body why.now) }
{
    let id: u64 = 1;
    // (in a format braces would be variables, so the text is one)
    json!(in alloc; {"error": {"id": id, "format": "{why}", "variables": {"why": why}, "showUser": true}})
}
