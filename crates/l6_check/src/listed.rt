//! The findings of a deck, as a list.

ghost use Rattle.std.specs.Prelude.{◌≡◌, ◌≤◌, ◌++◌, length, IfOk, OnOk};
ghost use Rattle.l6_card.specs.Numerals.{most_deck_bytes};
ghost use Rattle.l6_check.specs.Listed as spec;

use crate::fault::OutOfMemory;
use crate::finding::Finding;
use crate::findings::Findings;
use crate::report::{ProgramWarnings, Report, check};
use crate::writing::{is_in_detail, sort};
use std::alloc::{AllocError, Global};

/// What is found in a deck of at most 1,048,576 bytes: the findings that its report keeps, by their cards,
/// and those of a card by their columns.
///
/// # Errors
///
/// Memory ran out.
pub fn all_findings<'a>(alloc: Global, deck: &'a [u8]) -> Result<Vec<Finding<'a>>, OutOfMemory>
    requires { length deck.now ≤ most_deck_bytes }
    ensures { IfOk result (λ findings. spec.AreAllOf deck.now findings.items) }
{
    let report = check(alloc, deck)?;
    let findings = findings_of(alloc, &report)?;
    Ok(findings)
}

/// The findings that a report keeps, in the same order.
///
/// # Errors
///
/// Memory ran out.
pub(crate) fn findings_of<'a>(
    alloc: Global,
    report: &Report<'a>,
) -> Result<Vec<Finding<'a>>, AllocError>
    ensures { IfOk result (λ findings. spec.AreSorted (spec.kept_of report.now) findings.items) }
{
    let mut findings = kept_of(alloc, report)?;
    sort(&mut findings)?;
    Ok(findings)
}

/// The findings that a report keeps, those of each kind together.
fn kept_of<'a>(alloc: Global, report: &Report<'a>) -> Result<Vec<Finding<'a>>, AllocError>
    ensures { IfOk result (λ findings. findings.items ≡ spec.kept_of report.now) }
{
    let mut findings = first_of(alloc, report)?;
    add_all(&mut findings, &report.reading)?;
    add_all(&mut findings, &report.twice)?;
    add_all(&mut findings, &report.missing)?;
    add_all(&mut findings, &report.cards.columns)?;
    add_all(&mut findings, &report.cards.image)?;
    add_warnings(&mut findings, &report.program)?;
    Ok(findings)
}

/// The first error of a report, unless it is one of its others in detail.
fn first_of<'a>(alloc: Global, report: &Report<'a>) -> Result<Vec<Finding<'a>>, AllocError>
    ensures { IfOk result (λ findings. findings.items ≡ spec.first_of report.now report.now.first) }
{
    let mut findings = Vec::new(alloc);
    if let Some(first) = report.first {
        if !is_in_detail(report, &first) {
            findings.push(first)?;
        }
    }
    Ok(findings)
}

/// Adds the warnings of a program.
fn add_warnings<'a>(
    findings: &mut Vec<Finding<'a>>,
    program: &ProgramWarnings<'a>,
) -> Result<(), AllocError>
    ensures { OnOk result (findings.new.items
        ≡ findings.old.items ++ spec.warnings_of program.now) }
{
    let statements = &program.statements;
    add_all(findings, &statements.conditions)?;
    add_all(findings, &statements.unnamed)?;
    add_all(findings, &statements.unreached)?;
    add_all(findings, &statements.trapping)?;
    add_all(findings, &statements.idle)?;
    add_all(findings, &statements.running)?;
    add_all(findings, &program.fields)?;
    Ok(())
}

/// Adds all findings that are kept.
fn add_all<'a>(all: &mut Vec<Finding<'a>>, findings: &Findings<'a>) -> Result<(), AllocError>
    ensures { OnOk result (all.new.items ≡ all.old.items ++ findings.now.kept.items) }
{
    for finding in &findings.kept {
        all.push(*finding)?;
    }
    Ok(())
}
