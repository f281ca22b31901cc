//! What cards have past the columns that count.

ghost use Rattle.std.specs.Prelude.{◌≡◌, Some};
ghost use Rattle.l6_check.specs.Warnings as spec;

use crate::finding::{Finding, Span};
use crate::reason::{Reason, WarningReason};
use crate::scan::{without_blanks, without_last_blanks};
use l6_card::columns_of;
use l6_group::are_blank;
use l6_word::without_return;

/// Whether a line that is no comment has something past the columns that count.
pub(crate) fn has_past(line: &[u8]) -> bool
    ensures { result ≡ spec.has_past line.now }
{
    let all = without_return(line);
    let columns = columns_of(line);
    !is_comment(columns) && !are_blank(&all[columns.len()..])
}

/// Whether columns are those of a comment.
pub(crate) fn is_comment(columns: &[u8]) -> bool
    ensures { result ≡ spec.is_comment columns.now }
{
    match columns.first() {
        None => false,
        Some(column) => *column == b'*',
    }
}

/// The warning of a card that has something past the columns that count.
pub(crate) fn past_on(card: u32, line: &[u8]) -> Finding<'_>
    ensures card { spec.past_card result ≡ Some card }
    ensures from { result.span.from ≡ spec.past_start line.now }
{
    let all = without_return(line);
    let columns = columns_of(line);
    let past = without_blanks(&all[columns.len()..]);
    Finding {
        card,
        span: Span {
            from: all.len() - past.len(),
            to: all.len(),
        },
        text: without_last_blanks(past),
        line: all,
        reason: Reason::Warning(WarningReason::PastColumns),
    }
}
