//! The adapter: what each request leads to.

ghost use Rattle.std.specs.Prelude.{◌≡◌, ◌++◌, [], ℕ, IfOk, None, Some};
ghost use Rattle.std.specs.Option.{option_map};
ghost use Rattle.serde_json.specs.View.{view};
ghost use Rattle.l6_dap.specs.Debugged.{Debugged};
ghost use Rattle.l6_dap.specs.Launching.{begun};
ghost use Rattle.l6_dap.specs.Messages.{Outcome, answer};
ghost use Rattle.l6_dap.specs.Messages.Outcome.{done};
ghost use Rattle.l6_dap.specs.Printed.{printed_by, sent, unsent};
ghost use Rattle.l6_dap.specs.Runs as spec;
ghost use Rattle.l6_dap.specs.inner.Asked.{arguments_of, outcome_of};

use crate::answer::{Answer, message_of, refused};
use crate::asking::{begin, debug, go, moved_body};
use crate::debuggee::Debuggee;
use crate::entering::go_into;
use crate::evaluating::{asked_call, asked_move};
use crate::events::{Event, Events};
use crate::files::Files;
use crate::launching::{NotLaunched, launched, relaunched};
use crate::nodes::Nodes;
use crate::request::Request;
use crate::targets::has_ahead;
use l6_rpc::OutOfMemory;
use l6_session::Move;
use serde_json::{Value, json};
use std::alloc::Global;
use std::marker::Model;

/// What is said of a request that needs a run, where none is launched.
const NO_RUN: &str = "no run is launched";

/// What is said of a request to step into a call that is not ahead.
const NO_CALL: &str = "there is no such call ahead in the statement";

/// A debug adapter.
#[derive(Drop)]
pub struct Adapter {
    /// The number of the latest message that was sent.
    number: u64,
    debuggee: Option<Debuggee>,
    nodes: Nodes,
}

/// What a message leads to.
#[derive(Drop)]
pub struct Reply {
    /// The answer, if the message is a request.
    pub answer: Option<Value>,
    /// The events that follow it, in order.
    pub events: Vec<Event>,
    /// The exit status, if the program ends.
    pub status: Option<u8>,
}

impl Model for Adapter {
    ghost use Rattle.l6_dap.specs.Runs as runs;

    ghost Value = { runs.AdapterState };

    ghost view = { λ a. record { debugged = a.debuggee; nodes = a.nodes } };
}

impl Adapter {
    /// An adapter that has launched nothing.
    pub fn new(alloc: Global) -> Self
        ensures { result ≡ record { debugged = None; nodes = [] } }
    {
        Adapter {
            number: 0,
            debuggee: None,
            nodes: Nodes::new(alloc),
        }
    }

    /// Takes the body of a message: a request has one answer, and perhaps events after it.
    ///
    /// # Errors
    ///
    /// Memory ran out.
    pub fn take<F: Files>(
        &mut self,
        alloc: Global,
        files: &mut F,
        body: &[u8],
    ) -> Result<Reply, OutOfMemory>
        ensures { IfOk result (λ reply. spec.Takes self.old self.new body.now
            (option_map view reply.answer) reply.events.items) }
    {
        match Value::from_slice(alloc, body) {
            Ok(message) => {
                let reply = self.take_message(alloc, files, &message)?;
                Ok(reply)
            }
            Err(error) => {
                if error.is_memory() {
                    return Err(OutOfMemory);
                }
                self.take_message(alloc, files, &Value::Null)
            }
        }
    }

    /// Takes a message. One that is no request asks for nothing, which is refused.
    fn take_message<F: Files>(
        &mut self,
        alloc: Global,
        files: &mut F,
        message: &Value,
    ) -> Result<Reply, OutOfMemory>
        ensures { IfOk result (λ reply. spec.Obeys self.old self.new (view message.now)
            (option_map view reply.answer) reply.events.items) }
    {
        match Request::of(message) {
            Some(request) => self.reply(alloc, files, request),
            None => Ok(Reply {
                answer: None,
                events: Vec::new(alloc),
                status: None,
            }),
        }
    }

    /// Does what a request asks for, and answers it.
    fn reply<F: Files>(
        &mut self,
        alloc: Global,
        files: &mut F,
        request: Request<'_>,
    ) -> Result<Reply, OutOfMemory>
        ensures { IfOk result (λ reply. (seq : ℕ) × (outcome : Outcome)
            × (option_map view reply.answer ≡ Some (answer seq request.entry.seq
            request.entry.command.now outcome))
            × spec.Does request.entry.command.now (arguments_of request.entry) self.old self.new
            outcome reply.events.items) }
    {
        let number = self.number.saturating_add(1);
        let mut events = Events::after(alloc, number);
        let answer = self.obey(alloc, files, &mut events, request)?;
        let answer = message_of(alloc, number, request, answer)?;
        self.number = events.number();
        let status = match request.command {
            "disconnect" => Some(0),
            _ => None,
        };
        Ok(Reply {
            answer: Some(answer),
            events: events.into_list(),
            status,
        })
    }

    /// Does what a request asks for.
    fn obey<F: Files>(
        &mut self,
        alloc: Global,
        files: &mut F,
        events: &mut Events,
        request: Request<'_>,
    ) -> Result<Answer, OutOfMemory>
        ensures { IfOk result (λ it. events.old ≡ [] →
            spec.Does request.entry.command.now (arguments_of request.entry) self.old self.new
            (outcome_of it) events.new) }
    {
        if let Some(action) = asked_call(request) {
            return self.enter(alloc, events, action);
        }
        match asked_move(request) {
            Some(to) => self.make(alloc, events, request, to),
            None => self.serve(alloc, files, events, request),
        }
    }

    /// Goes into the call ahead by the action of a number, if a run is launched that has such a call.
    fn enter(
        &mut self,
        alloc: Global,
        events: &mut Events,
        action: u64,
    ) -> Result<Answer, OutOfMemory>
        ensures { IfOk result (λ it. events.old ≡ [] →
            spec.Enters action self.old self.new (outcome_of it) events.new) }
    {
        match &mut self.debuggee {
            None => refused(alloc, NO_RUN),
            Some(debuggee) => {
                if !has_ahead(alloc, debuggee, action)? {
                    return refused(alloc, NO_CALL);
                }
                self.nodes.clear();
                go_into(alloc, events, debuggee, action)?;
                Ok(Answer::Done)
            }
        }
    }

    /// Makes a move, if a run is launched.
    fn make(
        &mut self,
        alloc: Global,
        events: &mut Events,
        request: Request<'_>,
        to: Move,
    ) -> Result<Answer, OutOfMemory>
        ensures { IfOk result (λ it. events.old ≡ [] → spec.Makes to self.old self.new events.new) }
    {
        self.nodes.clear();
        match &mut self.debuggee {
            None => refused(alloc, NO_RUN),
            Some(debuggee) => {
                go(alloc, events, debuggee, to)?;
                let body = moved_body(alloc, debuggee, request.command)?;
                Ok(Answer::Body(body))
            }
        }
    }

    /// Does what a request asks for that is no move.
    fn serve<F: Files>(
        &mut self,
        alloc: Global,
        files: &mut F,
        events: &mut Events,
        request: Request<'_>,
    ) -> Result<Answer, OutOfMemory>
        ensures { IfOk result (λ it. events.old ≡ [] →
            spec.Others request.entry.command.now (arguments_of request.entry) self.old self.new
            (outcome_of it) events.new) }
    {
        match request.command {
            "initialize" => Ok(Answer::Body(abilities(alloc)?)),
            "launch" => self.launch(alloc, files, events, request),
            "threads" => {
                Ok(Answer::Body(json!(in alloc; {"threads": [{"id": 1, "name": "run"}]})?))
            }
            "setExceptionBreakpoints" | "disconnect" => Ok(Answer::Done),
            "restart" => self.restart(alloc, files, events),
            _ => match &mut self.debuggee {
                None => refused(alloc, NO_RUN),
                Some(debuggee) => debug(alloc, events, debuggee, &mut self.nodes, request),
            },
        }
    }

    /// Launches a run. The editor may set breakpoints then.
    fn launch<F: Files>(
        &mut self,
        alloc: Global,
        files: &mut F,
        events: &mut Events,
        request: Request<'_>,
    ) -> Result<Answer, OutOfMemory>
        ensures launches { IfOk result (λ it. spec.Launching (arguments_of request.entry) self.old self.new
            (outcome_of it)) }
        ensures prints { IfOk result (λ it. printed_by events.new ≡ printed_by events.old) }
    {
        match launched(alloc, files, request) {
            Ok(debuggee) => {
                self.debuggee = Some(debuggee);
                self.nodes.clear();
                events.tell_plainly(alloc, "initialized")?;
                Ok(Answer::Done)
            }
            Err(NotLaunched::NoMemory) => Err(OutOfMemory),
            Err(NotLaunched::Because(why)) => Ok(Answer::Refused(why)),
        }
    }

    /// Launches the run again, with the breakpoints and the watches that it had: of the files as they are now, or, if
    /// the deck has errors now, of the deck as it was.
    fn restart<F: Files>(
        &mut self,
        alloc: Global,
        files: &mut F,
        events: &mut Events,
    ) -> Result<Answer, OutOfMemory>
        ensures { IfOk result (λ it. events.old ≡ [] →
            spec.Restarting self.old.debugged self.old self.new (outcome_of it) events.new) }
    {
        let Some(before) = self.debuggee.take() else {
            return refused(alloc, NO_RUN);
        };
        self.debuggee = Some(relaunched(alloc, files, before)?);
        self.nodes.clear();
        self.begin(alloc, events)
    }

    /// Begins the run that is launched.
    fn begin(&mut self, alloc: Global, events: &mut Events) -> Result<Answer, OutOfMemory>
        ensures begins { IfOk result (λ answer. (it : Debugged) → self.old.debugged ≡ Some it →
            (outcome_of answer ≡ done) × (self.new.debugged ≡ Some (sent (begun it)))
            × (printed_by events.new ≡ printed_by events.old ++ unsent (begun it))) }
        ensures nodes { self.new.nodes ≡ self.old.nodes }
    {
        match &mut self.debuggee {
            None => refused(alloc, NO_RUN),
            Some(debuggee) => {
                begin(alloc, events, debuggee)?;
                Ok(Answer::Done)
            }
        }
    }
}

/// What the adapter can do, as the protocol says it.
fn abilities(alloc: Global) -> Result<Value, OutOfMemory> {
    let value = json!(in alloc; {
        "supportsConfigurationDoneRequest": true,
        "supportsConditionalBreakpoints": true,
        "supportsDataBreakpoints": true,
        "supportsEvaluateForHovers": true,
        "supportsExceptionInfoRequest": true,
        "supportsFunctionBreakpoints": true,
        "supportsRestartRequest": true,
        "supportsStepBack": true,
        "supportsStepInTargetsRequest": true,
        "supportsSteppingGranularity": true,
        "supportsTerminateRequest": true
    })?;
    Ok(value)
}
