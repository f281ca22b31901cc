//! How a report is written.

ghost use Rattle.std.specs.Prelude.{◌≡◌, ◌≤◌, ◌<◌, MatchOption, IsPermutation, length, IfOk, OnOk};
ghost use Rattle.l6_card.specs.Numerals.{most_deck_bytes};
ghost use Rattle.l6_check.specs.Counted as spec;

use crate::fault::OutOfMemory;
use crate::finding::Finding;
use crate::findings::{Findings, MAX_FINDINGS};
use crate::listed::findings_of;
use crate::reason::Reason;
use crate::report::{Report, check};
use crate::texts::WithCard;
use std::alloc::{AllocError, Global};

/// How findings are written.
#[derive(Clone, Copy, Debug, PartialEq, Eq, Hash)]
pub enum Layout {
    /// A line for each, and its advice on a line of its own.
    Short,
    /// The same, and between the two the card, with signs under the columns.
    Long,
}

/// What is said of a deck.
#[derive(Drop)]
pub struct CheckedText {
    /// A line for each finding, with its advice on a line of its own, in the order of the deck, at most
    /// 100; and a line that counts the errors and the warnings.
    pub text: String,
    /// How many errors there are.
    pub errors: u32,
}

/// What is said of a deck of at most 1,048,576 bytes.
///
/// # Errors
///
/// Memory ran out.
pub fn checked_text(alloc: Global, deck: &[u8]) -> Result<CheckedText, OutOfMemory>
    requires { length deck.now ≤ most_deck_bytes }
    ensures { IfOk result (λ checked. spec.CountsErrors deck.now checked.errors) }
{
    checked_text_of(alloc, deck, "", Layout::Short)
}

/// What is said of a deck of at most 1,048,576 bytes in this layout. If it has a name, that is before each
/// finding's card, with a colon.
///
/// # Errors
///
/// Memory ran out.
pub fn checked_text_of(
    alloc: Global,
    deck: &[u8],
    name: &str,
    layout: Layout,
) -> Result<CheckedText, OutOfMemory>
    requires { length deck.now ≤ most_deck_bytes }
    ensures program { IfOk result (λ checked. spec.CountsErrors deck.now checked.errors) }
    ensures counted { IfOk result (λ checked. spec.IsCounted deck.now checked.errors) }
{
    let report = check(alloc, deck)?;
    let errors = error_count(&report);
    let text = text_of(alloc, &report, errors, name, layout)?;
    Ok(CheckedText { text, errors })
}

/// How many errors a report has: none exactly if the deck spells a program.
fn error_count(report: &Report<'_>) -> u32
    ensures counted { result ≡ spec.errors_of report.now report.now.first }
    ensures some { MatchOption report.now.first (result ≡ 0) (λ _. 0 < result) }
{
    match report.first {
        None => 0,
        Some(first) => {
            let found = report
                .reading
                .count
                .saturating_add(report.twice.count)
                .saturating_add(report.missing.count);
            if is_in_detail(report, &first) {
                found.max(1)
            } else {
                found.saturating_add(1)
            }
        }
    }
}

/// Whether another error of a report is its first one in detail.
pub(crate) fn is_in_detail(report: &Report<'_>, first: &Finding<'_>) -> bool
    ensures { result ≡ spec.is_in_detail report.now first.now }
{
    has_same(&report.reading, first)
        || has_same(&report.twice, first)
        || has_same(&report.missing, first)
}

/// Whether findings have one on the same card and of the same kind.
fn has_same(findings: &Findings<'_>, first: &Finding<'_>) -> bool
    ensures { result ≡ spec.has_like findings.now first.now }
{
    findings.kept.iter().any(|one| one.card == first.card && is_same_kind(one.reason, first.reason))
}

/// Whether two reasons are of one kind.
fn is_same_kind(one: Reason, other: Reason) -> bool
    ensures { result ≡ spec.are_of_one_kind one other }
{
    matches!(
        (one, other),
        (Reason::Form(_), Reason::Form(_))
            | (Reason::Limit(_), Reason::Limit(_))
            | (Reason::TwiceLabelled(_), Reason::TwiceLabelled(_))
            | (Reason::NoLabel(_), Reason::NoLabel(_))
    )
}

/// The text of a report that has so many errors.
fn text_of(
    alloc: Global,
    report: &Report<'_>,
    errors: u32,
    name: &str,
    layout: Layout,
) -> Result<String, AllocError> {
    let findings = findings_of(alloc, report)?;
    let mut text = String::new(alloc);
    for finding in findings.iter().take(MAX_FINDINGS) {
        write_name(&mut text, name)?;
        match layout {
            Layout::Short => write!(text, "{finding}\n")?,
            Layout::Long => {
                let shown = WithCard(*finding);
                write!(text, "{shown}\n")?;
            }
        }
    }
    let warnings = warning_count(report);
    let error_word = if errors == 1 { "error" } else { "errors" };
    let warning_word = if warnings == 1 { "warning" } else { "warnings" };
    write!(text, "{errors} {error_word}, {warnings} {warning_word}\n")?;
    Ok(text)
}

/// Sorts findings by their cards, and those of a card by their columns.
pub(crate) fn sort(findings: &mut Vec<Finding<'_>>) -> Result<(), AllocError>
    ensures same { IsPermutation findings.old.items findings.new.items }
    ensures cards { OnOk result (spec.AreByCards findings.new.items) }
    ensures columns { OnOk result (spec.AreByColumns findings.new.items) }
{
    findings.sort_by_key(|finding| finding.span.from)?;
    findings.sort_by_key(|finding| finding.card)?;
    Ok(())
}

/// Writes a name and a colon, if there is a name.
fn write_name(text: &mut String, name: &str) -> Result<(), AllocError> {
    if name.is_empty() {
        return Ok(());
    }
    write!(text, "{name}:")
}

/// How many warnings a report has.
fn warning_count(report: &Report<'_>) -> u32
    ensures { result ≡ spec.warnings_of report.now }
{
    let cards = &report.cards;
    let program = &report.program;
    let statements = &program.statements;
    cards
        .columns
        .count
        .saturating_add(cards.image.count)
        .saturating_add(statements.conditions.count)
        .saturating_add(statements.unnamed.count)
        .saturating_add(statements.unreached.count)
        .saturating_add(statements.trapping.count)
        .saturating_add(statements.idle.count)
        .saturating_add(statements.running.count)
        .saturating_add(program.fields.count)
}
