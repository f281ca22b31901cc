//! The report of a trace whose answers are judged: its findings, and then its summary.

use crate::call::{Call, Line};
use crate::ending::{End, Ending};
use crate::finding::Finding;
use crate::finding_texts::{About, push_ending, push_finding, push_summary};
use crate::judge::{Holding, Judge, Pool};
use crate::summary::{Before, Summary};
use indexmap::IndexSet;
use l6_places::{Hindrance, Place};
use std::alloc::{AllocError, Global};

/// How many findings are written at most. All are counted.
const MAX_FINDINGS: u32 = 100;

/// The form of a report.
#[derive(Clone, Copy, Debug, PartialEq, Eq)]
pub enum Form {
    /// Lines for people.
    Text,
    /// A JSON object on each line.
    Json,
}

/// The lines of a trace at which a name got its last block, and freed it; 0 if it did not.
#[derive(Clone, Copy, Debug, PartialEq, Eq)]
pub(crate) struct Past {
    pub(crate) got: u32,
    pub(crate) freed: u32,
}

/// The report of a trace.
#[derive(Drop)]
pub struct Report<'a> {
    names: &'a IndexSet<&'a [u8]>,
    form: Form,
    pool: Pool,
    past: Vec<Past>,
    summary: Summary,
    findings: u32,
}

impl<'a> Report<'a> {
    /// An empty report.
    ///
    /// # Errors
    ///
    /// Memory ran out.
    pub fn new(
        alloc: Global,
        judge: &Judge,
        pool: Pool,
        form: Form,
        names: &'a IndexSet<&'a [u8]>,
    ) -> Result<Self, AllocError> {
        Ok(Report {
            names,
            form,
            pool,
            past: vec![in alloc; Past { got: 0, freed: 0 }; names.len()]?,
            summary: Summary::new(alloc, judge, names.len())?,
            findings: 0,
        })
    }

    /// Adds what was found of a line, and counts it.
    pub(crate) fn add(
        &mut self,
        text: &mut Vec<u8>,
        judge: &Judge,
        line: &Line,
        before: Before,
        found: Option<Finding>,
    ) -> Result<(), AllocError> {
        if let Some(finding) = found {
            self.findings = self.findings.saturating_add(1);
            if self.findings <= MAX_FINDINGS {
                let about = About {
                    line,
                    pool: self.pool,
                    concerned: self.concerned(judge, line, finding),
                };
                push_finding(text, self.form, self.names, about, finding)?;
            }
        }
        self.summary.count(judge, line, before, found);
        self.note(line, found);
        Ok(())
    }

    /// Notes at which line a name got or freed its block.
    fn note(&mut self, line: &Line, found: Option<Finding>) {
        match (line.call, found) {
            (_, Some(Finding::Held | Finding::NotHeld)) => {}
            (Call::Get { block, .. }, _) if block < self.past.len() => {
                self.past[block] = Past {
                    got: line.number,
                    freed: 0,
                };
            }
            (Call::Free { block }, _) if block < self.past.len() => {
                self.past[block] = Past {
                    got: 0,
                    freed: line.number,
                };
            }
            _ => {}
        }
    }

    /// The name that a finding concerns beside the line's, if there is one, and what is past of it.
    fn concerned(&self, judge: &Judge, line: &Line, finding: Finding) -> Option<(usize, Past)> {
        let block = match (finding, line.call) {
            (Finding::Hindered(Hindrance::Overlaps(place)), _) => self.owner(judge, place)?,
            (Finding::Held | Finding::NotHeld, Call::Get { block, .. } | Call::Free { block }) =>
                block,
            _ => return None,
        };
        Some((block, *self.past.get(block)?))
    }

    /// The name that holds the block at a place.
    fn owner(&self, judge: &Judge, place: Place) -> Option<usize> {
        (0..self.past.len()).find(|block| judge.holding(*block) == Holding::At(place))
    }

    /// Adds what is found of the end, and the summary with the number of all findings.
    pub(crate) fn finish(
        &self,
        text: &mut Vec<u8>,
        ending: Ending,
        end: Option<End>,
        findings: usize,
    ) -> Result<(), AllocError> {
        push_ending(text, self.form, ending, end)?;
        push_summary(text, self.form, &self.summary, findings)
    }
}
