//! Labels that are spelled as conditions are.

ghost use Rattle.std.specs.Prelude.{◌≡◌, Some};
ghost use Rattle.l6_check.specs.Warnings as spec;

use crate::finding::Finding;
use crate::labels::{label_finding, label_on};
use crate::reason::{Reason, WarningReason};
use l6_group::condition_from;

/// Whether the card of a line gives a label that is spelled as a condition is.
pub(crate) fn gives_condition(line: &[u8]) -> bool
    ensures { result ≡ spec.gives_condition line.now }
{
    match label_on(line) {
        None => false,
        Some(label) => condition_from(label.characters()).is_some(),
    }
}

/// The warning of a card that gives such a label.
pub(crate) fn condition_on(card: u32, line: &[u8]) -> Finding<'_>
    ensures { spec.condition_card result ≡ Some card }
{
    label_finding(card, line, Reason::Warning(WarningReason::LabelIsCondition))
}
