//! What is found in a deck, as an editor shows it.

ghost use Rattle.std.specs.Prelude.{◌≡◌, ◌≤◌, ◌∷◌, [], List, length, IfOk};
ghost use Rattle.serde_json.specs.Data.{Data, array};
ghost use Rattle.serde_json.specs.View.{view, items_of};
ghost use Rattle.l6_card.specs.Numerals.{most_deck_bytes};
ghost use Rattle.l6_check.specs.Listed.{AreAllOf};
ghost use Rattle.l6_lsp.specs.Document.{deck_of};
ghost use Rattle.l6_lsp.specs.Diagnostics as spec;

use crate::document::Document;
use crate::ranges::columns_value;
use l6_card::MAX_DECK_BYTES;
use l6_check::{Finding, Reason, Severity, all_findings};
use l6_place::CardStarts;
use l6_rpc::{Note, OutOfMemory};
use serde_json::{Value, json};
use std::alloc::{AllocError, Global};

/// The notification that says what is found in a document.
///
/// # Errors
///
/// Memory ran out.
pub(crate) fn published(alloc: Global, uri: &str, document: &Document) -> Result<Note, OutOfMemory>
    ensures { IfOk result (spec.IsPublished uri.now document.now.version
        (deck_of document.now.text.items)) }
{
    let found = diagnostics(alloc, uri, document.deck())?;
    let parameters = parameters_of(alloc, uri, document.version, found)?;
    Ok(Note {
        method: "textDocument/publishDiagnostics",
        parameters,
    })
}

/// The parameters of that notification, of a version in which this is found.
fn parameters_of(alloc: Global, uri: &str, version: u64, found: Value) -> Result<Value, AllocError>
    ensures { IfOk result (λ value. view value
        ≡ spec.parameters_of uri.now version (view found)) }
{
    json!(in alloc; {"uri": uri, "version": version, "diagnostics": found})
}

/// The notification that nothing is found in a document any more, since it is closed.
///
/// # Errors
///
/// Memory ran out.
pub(crate) fn withdrawn(alloc: Global, uri: &str) -> Result<Note, OutOfMemory>
    ensures { IfOk result (spec.IsWithdrawn uri.now) }
{
    Ok(Note {
        method: "textDocument/publishDiagnostics",
        parameters: json!(in alloc; {"uri": uri, "diagnostics": []})?,
    })
}

/// What is found in a deck, in the order of its cards.
fn diagnostics(alloc: Global, uri: &str, deck: &[u8]) -> Result<Value, OutOfMemory>
    ensures { IfOk result (λ value. (values : List Data) × spec.IsFound deck.now values
        × (view value ≡ array (items_of values))) }
{
    if deck.len() > MAX_DECK_BYTES {
        let entry = too_long(alloc)?;
        let value = array_of(alloc, entry)?;
        return Ok(value);
    }
    let starts = CardStarts::of(alloc, deck)?;
    let findings = findings_of(alloc, deck)?;
    let mut list = Vec::new(alloc);
    for finding in &findings {
        list.push(diagnostic(alloc, uri, &starts, finding)?)?;
    }
    Ok(Value::Array(list))
}

/// The findings of a deck.
pub(crate) fn findings_of(alloc: Global, deck: &[u8]) -> Result<Vec<Finding<'_>>, OutOfMemory>
    requires { length deck.now ≤ most_deck_bytes }
    ensures { IfOk result (λ findings. AreAllOf deck.now findings.items) }
{
    match all_findings(alloc, deck) {
        Ok(findings) => Ok(findings),
        Err(_) => Err(OutOfMemory),
    }
}

/// That a deck is too long to be read.
fn too_long(alloc: Global) -> Result<Value, OutOfMemory> {
    let value = json!(in alloc; {
        "range": {"start": {"line": 0, "character": 0}, "end": {"line": 0, "character": 0}},
        "severity": 1, "source": "l6", "code": "too-long",
        "message": "the deck is too long: it has more than 1,048,576 bytes"})?;
    Ok(value)
}

/// The value of a list of one entry.
fn array_of(alloc: Global, entry: Value) -> Result<Value, AllocError>
    ensures { IfOk result (λ value. view value ≡ array (items_of (view entry ∷ []))) }
{
    json!(in alloc; [entry])
}

/// What is said of a finding.
fn diagnostic(
    alloc: Global,
    uri: &str,
    starts: &CardStarts<'_>,
    finding: &Finding<'_>,
) -> Result<Value, OutOfMemory>
    ensures { IfOk result (λ value. spec.IsDiagnostic starts.now finding.now (view value)) }
{
    let card = finding.card as usize;
    let range = columns_value(alloc, starts, card, finding.span.from, finding.span.to)?;
    let severity = severity_number(finding.severity());
    let code = finding.code();
    let message = message_of(alloc, finding)?;
    let related = related(alloc, uri, starts, finding.reason)?;
    let value = diagnostic_value(alloc, range, severity, code, message, related)?;
    Ok(value)
}

/// The value of what is said of a finding.
fn diagnostic_value(
    alloc: Global,
    range: Value,
    severity: u8,
    code: &str,
    message: Value,
    related: Value,
) -> Result<Value, AllocError>
    ensures { IfOk result (λ value. view value
        ≡ spec.diagnostic_value (view range) severity code.now (view message) (view related)) }
{
    json!(in alloc; {"range": range, "severity": severity, "source": "l6",
        "code": code, "message": message, "relatedInformation": related})
}

/// The number by which the protocol knows how bad a finding is.
fn severity_number(severity: Severity) -> u8
    ensures { result ≡ spec.severity_number severity }
{
    match severity {
        Severity::Error => 1,
        Severity::Warning => 2,
    }
}

/// Where else one has to look: at the card that gives the same label first.
fn related(
    alloc: Global,
    uri: &str,
    starts: &CardStarts<'_>,
    reason: Reason,
) -> Result<Value, OutOfMemory> {
    let Reason::TwiceLabelled(first) = reason else {
        return Ok(Value::Array(Vec::new(alloc)));
    };
    let card = first as usize;
    let width = starts.card(card).len();
    let range = columns_value(alloc, starts, card, 0, width)?;
    let value = json!(in alloc; [{"location": {"uri": uri, "range": range},
        "message": "this card gives the label first"}])?;
    Ok(value)
}

/// What is wrong, and what may be done about it.
fn message_of(alloc: Global, finding: &Finding<'_>) -> Result<Value, OutOfMemory> {
    let said = finding.said(alloc)?;
    if said.advice.is_empty() {
        return Ok(Value::String(said.sentence));
    }
    let sentence = said.sentence.as_str();
    let advice = said.advice.as_str();
    Ok(Value::String(format!(in alloc; "{sentence}\n{advice}")?))
}
