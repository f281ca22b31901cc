//! The answers of a trace, judged one after another.

ghost use Rattle.std.specs.Prelude.{◌≡◌, ◌≤◌, IfErr, IfOk, length};
ghost use Rattle.indexmap.specs.IndexSet.{index_set_len};
ghost use Rattle.l6_trace.specs.Limits.{IsPastLimit};
ghost use Rattle.l6_trace.specs.Judging as spec;
ghost use Rattle.l6_trace.specs.Judging.{IsJudged, IsJudgement};

use crate::call::Line;
use crate::ending::{End, ending_findings, ending_of};
use crate::fault::TraceFault;
use crate::finding::Finding;
use crate::judge::{Judge, Pool};
use crate::report::{Form, Report};
use crate::summary::Before;
use indexmap::IndexSet;
use std::alloc::{AllocError, Global};

/// What is found of a trace whose answers are judged.
#[derive(Debug, Drop)]
pub struct Judgement {
    /// The findings and the summary, as text.
    pub text: Vec<u8>,
    /// How many findings there are.
    pub findings: usize,
}

/// Judges the answers of the lines of a trace, whatever the allocator's rule of choice, and its end. Of the findings
/// the first 100 are in the text.
///
/// # Errors
///
/// `BadPlaces` for a pool of too many places; or memory ran out.
pub fn judge_trace(
    alloc: Global,
    pool: Pool,
    form: Form,
    lines: &[Line],
    names: &IndexSet<&[u8]>,
    end: Option<End>,
) -> Result<Judgement, TraceFault>
    ensures judged { IfOk result (λ judgement. IsJudgement pool (index_set_len names.now) lines.now end judgement.findings) }
    ensures limits { IfErr result IsPastLimit }
{
    let mut judge = Judge::new(alloc, pool, names.len())?;
    let mut report = Report::new(alloc, &judge, pool, form, names)?;
    let mut text = Vec::new(alloc);
    let founds = judge_lines(alloc, &mut judge, lines, &mut report, &mut text)?;
    let ending = ending_of(lines, end);
    let findings = findings_in(founds.as_slice()) + ending_findings(ending);
    report.finish(&mut text, ending, end, findings)?;
    Ok(Judgement { text, findings })
}

/// How many of these are findings.
fn findings_in(founds: &[Option<Finding>]) -> usize
    ensures value { result ≡ spec.findings_in founds.now }
    ensures few { result ≤ length founds.now }
{
    let mut findings = 0;
    for index in 0..founds.len() {
        if founds[index].is_some() {
            findings += 1;
        }
    }
    findings
}

/// Judges the answers of a trace, one after another, and adds what is found of each to a text.
///
/// # Errors
///
/// Memory ran out.
pub fn judge_lines(
    alloc: Global,
    judge: &mut Judge,
    lines: &[Line],
    report: &mut Report<'_>,
    text: &mut Vec<u8>,
) -> Result<Vec<Option<Finding>>, AllocError>
    ensures judged { IfOk result (λ founds. IsJudged judge.old lines.now founds.items judge.new) }
{
    let mut founds = Vec::new(alloc);
    for index in 0..lines.len() {
        let line = lines[index];
        let before = Before::of(judge, &line);
        let found = judge.judge(line.call, line.reply);
        report.add(text, judge, &line, before, found)?;
        founds.push(found)?;
    }
    Ok(founds)
}
