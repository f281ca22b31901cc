//! What an editor watches: chains, which are the names of its data breakpoints.

ghost use Rattle.std.specs.Prelude.{◌≡◌, [], length, map, IfOk};
ghost use Rattle.serde_json.specs.View.{view};
ghost use Rattle.l6_dap.specs.Watches as spec;
ghost use Rattle.l6_dap.specs.Requests.{entries_of};
ghost use Rattle.l6_dap.specs.inner.Asked.{arguments_of};
ghost use Rattle.l6_dap.specs.inner.Watching.{with_chain, with_chains};

use crate::breakpoints::body_of;
use crate::debuggee::Debuggee;
use crate::nodes::{Node, Nodes};
use crate::request::Request;
use crate::variables::names_of;
use l6_group::chain_of;
use l6_history::{MAX_WATCHED, Watched};
use l6_rpc::OutOfMemory;
use l6_session::{Command, Session, Setting};
use l6_store::Buddy;
use serde_json::{Value, json};
use std::alloc::{AllocError, Global};

/// Whether a variable can be watched, and by which chain.
pub(crate) fn watch_info(
    alloc: Global,
    nodes: &Nodes,
    request: Request<'_>,
) -> Result<Value, OutOfMemory> {
    let name = request.text("name").unwrap_or("");
    let number = request.number("variablesReference").unwrap_or(0);
    let chain = chain_text(alloc, nodes.get(number), name)?;
    match chain_of(chain.as_slice()) {
        None => Ok(
            json!(in alloc; {"dataId": null, "description": "no chain leads here, so it can't be watched"})?,
        ),
        Some(_) => {
            let text = String::from_utf8_lossy(alloc, chain.as_slice())?;
            let text = text.as_str();
            Ok(
                json!(in alloc; {"dataId": text, "description": text, "accessTypes": ["write"],
                "canPersist": true})?,
            )
        }
    }
}

/// The chain of a variable: its name after the chain of its block.
fn chain_text(alloc: Global, node: Option<&Node>, name: &str) -> Result<Vec<u8>, AllocError> {
    let mut text = match node {
        Some(Node::Block(_, chain)) => names_of(alloc, chain)?,
        _ => Vec::new(alloc),
    };
    text.extend_from_slice(name.as_bytes())?;
    Ok(text)
}

/// Watches the chains that a request asks for, in place of those that were watched; answers what is said of each.
pub(crate) fn set_watches(
    alloc: Global,
    debuggee: &mut Debuggee,
    request: Request<'_>,
) -> Result<Value, OutOfMemory>
    ensures { IfOk result (λ it. spec.SetsWatches (entries_of (arguments_of request.entry))
        debuggee.old debuggee.new (view it)) }
{
    unwatch_all(alloc, &mut debuggee.session);
    let said = watch_entries(alloc, &mut debuggee.session, request.list("breakpoints"))?;
    Ok(body_of(alloc, Value::Array(said))?)
}

/// Watches the chains that entries ask for, besides those that are watched; answers what is said of each.
fn watch_entries(
    alloc: Global,
    session: &mut Session<Buddy>,
    entries: &[Value],
) -> Result<Vec<Value>, AllocError>
    ensures said { IfOk result (λ it. map (λ one. view one) it.items
        ≡ spec.said_from (length session.old.state.stop.watched) (map (λ entry. view entry) entries.now)) }
    ensures watched { IfOk result (λ it. session.new ≡ spec.watching
        (with_chains (map (λ entry. view entry) entries.now) session.old.state.stop.watched) session.old) }
{
    let mut said = Vec::new(alloc);
    for entry in entries {
        let is_watched = watches(alloc, session, entry);
        said.push(said_of(alloc, is_watched)?)?;
    }
    Ok(said)
}

/// Watches nothing any longer.
fn unwatch_all(alloc: Global, session: &mut Session<Buddy>)
    ensures { session.new ≡ spec.watching [] session.old }
{
    for turn in 0..session.stop().watched().len() {
        let _ = turn;
        session.obey(alloc, &Command::Setting(Setting::Unwatch(1)));
    }
}

/// Watches the chain that an entry of a request asks for. Answers whether it is watched, for which there is room up to
/// eight of them.
fn watches(alloc: Global, session: &mut Session<Buddy>, entry: &Value) -> bool
    ensures is { result ≡ spec.is_watched (length session.old.state.stop.watched)
        (spec.chain_asked (view entry.now)) }
    ensures watched { session.new ≡ spec.watching (with_chain (spec.chain_asked (view entry.now))
        session.old.state.stop.watched) session.old }
{
    let text = entry.get("dataId").and_then(Value::as_str).unwrap_or("");
    let Some(chain) = chain_of(text.as_bytes()) else {
        return false;
    };
    let has_room = session.stop().watched().len() < MAX_WATCHED;
    let setting = Setting::Watch(Watched::Chain(chain));
    session.obey(alloc, &Command::Setting(setting));
    has_room
}

/// What is said of a chain that is to be watched.
fn said_of(alloc: Global, is_watched: bool) -> Result<Value, AllocError>
    ensures { IfOk result (λ it. view it ≡ spec.said_of is_watched) }
{
    json!(in alloc; {"verified": is_watched})
}
