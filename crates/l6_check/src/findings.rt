//! Lists of findings.

ghost use Rattle.std.specs.Prelude.{◌≡◌, ◌+◌, ◌^◌, ◌<◌, OnOk};
ghost use Rattle.l6_check.specs.Kept as spec;

use crate::finding::Finding;
use std::alloc::{AllocError, Global};

/// How many findings of a kind are kept.
pub const MAX_FINDINGS: usize = 100;

/// Findings of a kind, in the order of the cards: the first 100 are kept, and all are counted.
#[derive(Debug, Drop)]
pub struct Findings<'a> {
    /// Those that are kept.
    pub kept: Vec<Finding<'a>>,
    /// How many there are.
    pub count: u32,
}

impl<'a> Findings<'a> {
    /// No findings.
    pub(crate) fn new(alloc: Global) -> Self
        ensures { spec.HasNone result }
    {
        Findings {
            kept: Vec::new(alloc),
            count: 0,
        }
    }

    /// Whether no more findings are kept.
    pub(crate) fn is_full(&self) -> bool
        ensures { result ≡ spec.are_full self.now.kept.items }
    {
        self.kept.len() >= MAX_FINDINGS
    }

    /// Counts a finding that is not kept.
    pub(crate) fn skip(&mut self)
        requires { self.old.count + 1 < 2 ^ 32 }
        ensures { spec.IsSkipped self.old self.new }
    {
        self.count += 1;
    }

    /// Adds a finding.
    pub(crate) fn add(&mut self, finding: Finding<'a>) -> Result<(), AllocError>
        requires { self.old.count + 1 < 2 ^ 32 }
        ensures { OnOk result (spec.IsAdded self.old finding.entry self.new) }
    {
        self.count += 1;
        if self.kept.len() < MAX_FINDINGS {
            self.kept.push(finding)?;
        }
        Ok(())
    }
}
