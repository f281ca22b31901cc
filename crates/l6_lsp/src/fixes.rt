//! What may be written in place of what is wrong: changes by which less is found in the deck.

ghost use Rattle.std.specs.Prelude.{◌≡◌, ◌≤◌, ◌∷◌, [], IfOk, IfSome, true};
ghost use Rattle.serde_json.specs.View.{view};
ghost use Rattle.l6_check.specs.Listed.{AreAllOf};
ghost use Rattle.l6_lsp.specs.Document.{deck_of};
ghost use Rattle.l6_lsp.specs.Edits.{edits_value as edits};
ghost use Rattle.l6_lsp.specs.Fixes as spec;

use crate::candidates::{Candidate, candidates_of};
use crate::diagnostics::findings_of;
use crate::document::{Document, deck_in};
use crate::edits::{edited, edits_value};
use l6_card::MAX_DECK_BYTES;
use l6_check::{Finding, Severity, Span};
use l6_place::{CardStarts, Spot};
use l6_rpc::OutOfMemory;
use serde_json::{Value, json};
use std::alloc::{AllocError, Global};

/// How many changes are offered at once. Each is tried on the whole deck.
const MOST_FIXES: usize = 8;

/// The changes that mend what is found on the lines from one to another: by each of them less is found in the deck.
///
/// # Errors
///
/// Memory ran out.
pub(crate) fn fixes(
    alloc: Global,
    uri: &str,
    document: &Document,
    first: u64,
    last: u64,
) -> Result<Value, OutOfMemory>
    ensures { IfOk result (λ value. spec.AreFixes uri.now document.now.text.items (view value)) }
{
    let mut list = Vec::new(alloc);
    let deck = document.deck();
    if deck.len() > MAX_DECK_BYTES {
        return Ok(Value::Array(list));
    }
    let starts = CardStarts::of(alloc, deck)?;
    let findings = findings_of(alloc, deck)?;
    let mut mended = None;
    for finding in &findings {
        let line = starts.spot(finding.card as usize, 0).line;
        if line < first || last < line || MOST_FIXES <= list.len() || is_at(mended, finding) {
            continue;
        }
        let text = document.text.as_slice();
        let Some(fix) = fix_of(alloc, uri, text, &starts, findings.as_slice(), finding)? else {
            continue;
        };
        list.push(fix)?;
        mended = Some((finding.card, finding.span));
    }
    Ok(Value::Array(list))
}

/// Whether a finding is about these columns of this card, of which another one was before it.
fn is_at(place: Option<(u32, Span)>, finding: &Finding<'_>) -> bool {
    match place {
        None => false,
        Some((card, span)) => card == finding.card && span == finding.span,
    }
}

/// The first change that mends a finding, if one does.
fn fix_of(
    alloc: Global,
    uri: &str,
    text: &[u8],
    starts: &CardStarts<'_>,
    findings: &[Finding<'_>],
    finding: &Finding<'_>,
) -> Result<Option<Value>, OutOfMemory>
    requires { AreAllOf (deck_of text.now) findings.now }
    ensures { IfOk result (λ it. IfSome it (λ value. spec.IsFix uri.now text.now (view value))) }
{
    let next = starts.card((finding.card as usize).saturating_add(1));
    let candidates = candidates_of(alloc, finding, next)?;
    for candidate in &candidates {
        let start = starts.spot(candidate.card, candidate.from);
        let end = starts.spot(candidate.card, candidate.to);
        let written = String::from_utf8_lossy(alloc, candidate.text.as_slice())?;
        if mends(alloc, text, findings, start, end, written.as_str())? {
            let title = title_of(alloc, candidate, written.as_str())?;
            let value = action(alloc, uri, title.as_str(), start, end, written.as_str())?;
            return Ok(Some(value));
        }
    }
    Ok(None)
}

/// Whether less is found in the deck where a text stands between two places of its text.
fn mends(
    alloc: Global,
    text: &[u8],
    findings: &[Finding<'_>],
    start: Spot,
    end: Spot,
    written: &str,
) -> Result<bool, OutOfMemory>
    requires { AreAllOf (deck_of text.now) findings.now }
    ensures { IfOk result (λ it. it ≡ true → spec.Mends text.now start end written.now) }
{
    let after = edited(alloc, text, &[(start, end)], written.as_bytes())?;
    let deck = deck_in(after.as_slice());
    if deck.len() > MAX_DECK_BYTES {
        return Ok(false);
    }
    let then = findings_of(alloc, deck)?;
    Ok(are_less(then.as_slice(), findings))
}

/// Whether findings are fewer errors than others, or as many and fewer findings.
fn are_less(findings: &[Finding<'_>], others: &[Finding<'_>]) -> bool
    ensures { result ≡ spec.are_less findings.now others.now }
{
    let (errors, other_errors) = (errors_in(findings), errors_in(others));
    errors < other_errors || (errors == other_errors && findings.len() < others.len())
}

/// How many findings are errors.
fn errors_in(findings: &[Finding<'_>]) -> usize
    ensures { result ≡ spec.errors_in findings.now }
{
    let mut count = 0;
    for finding in findings {
        count += errors_by(finding.severity());
    }
    count
}

/// How many errors a finding that is so bad is.
fn errors_by(severity: Severity) -> usize
    ensures value { result ≡ spec.errors_by severity }
    ensures few { result ≤ 1 }
{
    match severity {
        Severity::Error => 1,
        Severity::Warning => 0,
    }
}

/// What a change does, in words.
fn title_of(alloc: Global, candidate: &Candidate, written: &str) -> Result<String, AllocError> {
    match candidate.title {
        Some(title) => String::from_str(alloc, title),
        None => format!(in alloc; "Write {written}"),
    }
}

/// The value of a change that is offered.
fn action(
    alloc: Global,
    uri: &str,
    title: &str,
    start: Spot,
    end: Spot,
    written: &str,
) -> Result<Value, AllocError>
    ensures { IfOk result (λ value. view value ≡ spec.action_value title.now
        (edits uri.now ((start, end) ∷ []) written.now)) }
{
    let edit = edits_value(alloc, uri, &[(start, end)], written)?;
    json!(in alloc; {"title": title, "kind": "quickfix", "isPreferred": true, "edit": edit})
}
