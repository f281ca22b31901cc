//! The breakpoints that an editor asks for. Each request has all of a kind: those that it does not name are gone.

ghost use Rattle.std.specs.Prelude.{◌≡◌, ◌++◌, ◌≤◌, ◌^◌, codes, decimal, filter_map, length, map, position, nat_lt, IfOk};
ghost use Rattle.std.specs.Option.{option_map};
ghost use Rattle.std.specs.Result.{result_ok};
ghost use Rattle.serde_json.specs.View.{view};
ghost use Rattle.l6_place.specs.Cards.{first_cards};
ghost use Rattle.l6_dap.specs.Breakpoints as spec;
ghost use Rattle.l6_dap.specs.Paths.{source_in};
ghost use Rattle.l6_dap.specs.Requests.{entries_of};
ghost use Rattle.l6_dap.specs.Trimmed.{trimmed as trimmed_text};
ghost use Rattle.l6_dap.specs.inner.Asked.{arguments_of};

use crate::debuggee::{Breakpoint, Debuggee};
use crate::paths::file_name;
use crate::request::Request;
use crate::trimmed::trimmed;
use l6_group::test_of;
use l6_prog::Test;
use l6_rpc::OutOfMemory;
use l6_session::given_test_of;
use serde_json::{Value, json};
use std::alloc::{AllocError, Global};

/// What a request asks for: the breakpoints, and what is said of each entry.
#[derive(Drop)]
struct AskedFor {
    wanted: Vec<Breakpoint>,
    said: Vec<Value>,
}

/// What breakpoints are asked for by.
#[derive(Clone, Copy, Debug, PartialEq, Eq)]
pub(crate) enum Kind {
    /// By the lines of their cards.
    OnCards,
    /// By their labels, which the protocol takes for functions.
    OnLabels,
}

/// Why a breakpoint is not set.
#[derive(Clone, Copy, Debug, PartialEq, Eq)]
pub(crate) enum Unset {
    /// It is of another deck than the one that runs.
    OtherDeck,
    /// No statement has this card, or begins below it.
    NoStatement,
    /// No card gives this label.
    NoLabel,
    /// Its condition is no test.
    NoTest,
}

impl Unset {
    /// What an editor shows.
    fn text(self) -> &'static str
        ensures { result.now ≡ spec.why_text self }
    {
        match self {
            Unset::OtherDeck => "another deck runs",
            Unset::NoStatement => "no statement begins here or below",
            Unset::NoLabel => "no card gives this label",
            Unset::NoTest => "a condition is a test, as (A,E,5)",
        }
    }
}

/// Sets the breakpoints of a kind that a request asks for, unless they are of another deck than the one that runs: an
/// editor sends those of each file that has some. Answers what is said of each.
pub(crate) fn set_breakpoints(
    alloc: Global,
    debuggee: &mut Debuggee,
    kind: Kind,
    request: Request<'_>,
) -> Result<Value, OutOfMemory>
    ensures { IfOk result (λ it. spec.SetsUnless
        (spec.are_elsewhere kind debuggee.old.path (source_in (arguments_of request.entry)))
        kind (entries_of (arguments_of request.entry)) debuggee.old debuggee.new (view it)) }
{
    let entries = request.list("breakpoints");
    if are_elsewhere(debuggee, kind, request) {
        pass_over(alloc, entries)
    } else {
        set_all(alloc, debuggee, kind, entries)
    }
}

/// Whether breakpoints of a kind are of another deck than the one that runs.
fn are_elsewhere(debuggee: &Debuggee, kind: Kind, request: Request<'_>) -> bool
    ensures { result ≡ spec.are_elsewhere kind debuggee.now.path (source_in (arguments_of request.entry)) }
{
    if kind == Kind::OnLabels {
        return false;
    }
    let Some(source) = request.value("source") else {
        return false;
    };
    match source.get("path").and_then(Value::as_str) {
        None => false,
        Some(named) => {
            let path = debuggee.launch.path.as_str();
            file_name(named.as_bytes()) != file_name(path.as_bytes())
        }
    }
}

/// Sets no breakpoint, since they are of another deck; answers what is said of each.
fn pass_over(alloc: Global, entries: &[Value]) -> Result<Value, OutOfMemory>
    ensures { IfOk result (λ it. view it ≡ spec.all_elsewhere (map (λ entry. view entry) entries.now)) }
{
    let mut said = Vec::new(alloc);
    for entry in entries {
        let _ = entry;
        said.push(unverified(alloc, Unset::OtherDeck.text())?)?;
    }
    Ok(body_of(alloc, Value::Array(said))?)
}

/// Sets the breakpoints of a kind that entries ask for, in place of those that were asked for before; answers what is
/// said of each.
fn set_all(
    alloc: Global,
    debuggee: &mut Debuggee,
    kind: Kind,
    entries: &[Value],
) -> Result<Value, OutOfMemory>
    ensures { IfOk result (λ it. spec.Sets kind (map (λ entry. view entry) entries.now)
        debuggee.old debuggee.new (view it)) }
{
    let AskedFor { wanted, said } = all_asked(alloc, debuggee, kind, entries)?;
    ask(debuggee, kind, wanted);
    debuggee.stop_as_asked(alloc)?;
    Ok(body_of(alloc, Value::Array(said))?)
}

/// The breakpoints of a kind that entries ask for, and what is said of each entry.
fn all_asked(
    alloc: Global,
    debuggee: &Debuggee,
    kind: Kind,
    entries: &[Value],
) -> Result<AskedFor, AllocError>
    ensures wanted { IfOk result (λ it. it.wanted.items
        ≡ spec.all_asked kind debuggee.now.names (map (λ entry. view entry) entries.now)) }
    ensures said { IfOk result (λ it. map (λ one. view one) it.said.items
        ≡ spec.all_said kind debuggee.now.path debuggee.now.names (map (λ entry. view entry) entries.now)) }
{
    let mut wanted = Vec::new(alloc);
    let mut said = Vec::new(alloc);
    for entry in entries {
        let asked = asked(alloc, debuggee, kind, entry)?;
        said.push(said_of(alloc, debuggee, &asked)?)?;
        if let Ok(one) = asked {
            wanted.push(one)?;
        }
    }
    Ok(AskedFor { wanted, said })
}

/// These breakpoints of a kind are asked for, in place of those before.
pub(crate) fn ask(debuggee: &mut Debuggee, kind: Kind, wanted: Vec<Breakpoint>)
    ensures { debuggee.new ≡ spec.with_wanted kind wanted.items debuggee.old }
{
    match kind {
        Kind::OnCards => debuggee.on_cards = wanted,
        Kind::OnLabels => debuggee.on_labels = wanted,
    }
}

/// What is answered, where this is said of the breakpoints.
pub(crate) fn body_of(alloc: Global, said: Value) -> Result<Value, AllocError>
    ensures { IfOk result (λ it. view it ≡ spec.body_of (view said)) }
{
    json!(in alloc; {"breakpoints": said})
}

/// The breakpoint that an entry of a request asks for, or why it is not set.
fn asked(
    alloc: Global,
    debuggee: &Debuggee,
    kind: Kind,
    entry: &Value,
) -> Result<Result<Breakpoint, Unset>, AllocError>
    ensures { IfOk result (λ it. it ≡ spec.asked kind debuggee.now.names (view entry.now)) }
{
    let condition = entry.get("condition").and_then(Value::as_str);
    let found = match kind {
        Kind::OnCards => {
            let line = entry.get("line").and_then(Value::as_u64).unwrap_or(0);
            statement_from(alloc, debuggee, line)?
        }
        Kind::OnLabels => {
            let name = entry.get("name").and_then(Value::as_str).unwrap_or("");
            debuggee.names.statement_of(name.as_bytes())
        }
    };
    Ok(set_where(kind, found, condition))
}

/// A breakpoint at the statement that was found, with this condition, or why it is not set.
fn set_where(kind: Kind, found: Option<u64>, condition: Option<&str>) -> Result<Breakpoint, Unset>
    ensures { result ≡ spec.set_where kind found (option_map (λ text. text.now) condition.entry) }
{
    let Some(statement) = found else {
        return Err(match kind {
            Kind::OnCards => Unset::NoStatement,
            Kind::OnLabels => Unset::NoLabel,
        });
    };
    match condition {
        None | Some("") => Ok(Breakpoint {
            statement,
            test: None,
        }),
        Some(text) => match condition_of(text.as_bytes()) {
            None => Err(Unset::NoTest),
            test => Ok(Breakpoint { statement, test }),
        },
    }
}

/// The test that a condition is: its group, with its parentheses or without.
fn condition_of(text: &[u8]) -> Option<Test>
    ensures { result ≡ spec.test_in (trimmed_text text.now) }
{
    test_in(trimmed(text))
}

/// The test of a group, with its parentheses or without.
fn test_in(text: &[u8]) -> Option<Test>
    ensures { result ≡ spec.test_in text.now }
{
    match given_test_of(text) {
        None => test_of(text),
        test => test,
    }
}

/// The statement of a card, or else the one that begins next below it.
fn statement_from(alloc: Global, debuggee: &Debuggee, line: u64) -> Result<Option<u64>, AllocError>
    ensures { IfOk result (λ it. it ≡ spec.statement_from debuggee.now.names line) }
{
    let word = format!(in alloc; ":{line}")?;
    if let Some(statement) = debuggee.names.statement_of(word.as_bytes()) {
        return Ok(Some(statement));
    }
    Ok(first_below(debuggee.first_cards.as_slice(), line))
}

/// The first of the statements with these first cards that begins below a line.
fn first_below(first_cards: &[usize], line: u64) -> Option<u64>
    ensures { result ≡ spec.first_below 0 line first_cards.now }
{
    for (index, first) in first_cards.iter().enumerate() {
        if line < *first as u64 {
            return Some(index as u64);
        }
    }
    None
}

/// What is said of a breakpoint: its statement and the first card of that, or why it is not set.
fn said_of(
    alloc: Global,
    debuggee: &Debuggee,
    asked: &Result<Breakpoint, Unset>,
) -> Result<Value, AllocError>
    ensures { IfOk result (λ it. view it
        ≡ spec.said_of debuggee.now.path debuggee.now.names asked.now) }
{
    match asked {
        Err(why) => unverified(alloc, why.text()),
        Ok(one) => set_at(
            alloc,
            debuggee.launch.path.as_str(),
            one.statement,
            debuggee.card_of(one.statement),
        ),
    }
}

/// What is said of a breakpoint that is not set, for this reason.
fn unverified(alloc: Global, why: &str) -> Result<Value, AllocError>
    ensures { IfOk result (λ it. view it ≡ spec.unverified why.now) }
{
    json!(in alloc; {"verified": false, "message": why})
}

/// What is said of a breakpoint at a statement that has this first card, in the deck with this path.
fn set_at(
    alloc: Global,
    path: &str,
    statement: u64,
    card: Option<usize>,
) -> Result<Value, AllocError>
    ensures { IfOk result (λ it. view it ≡ spec.set_at path.now statement card) }
{
    match card {
        None => json!(in alloc; {"verified": true, "id": statement}),
        Some(card) => {
            json!(in alloc; {"verified": true, "id": statement, "line": card, "source": {"path": path}})
        }
    }
}
