//! The findings of what the reader of cards objects to.

ghost use Rattle.std.specs.Prelude.{◌≡◌, Some};
ghost use Rattle.l6_card.specs.declared.objection.Reason.TheVariants as kind;
ghost use Rattle.l6_check.specs.Faults.{form_kind, kind_of};
ghost use Rattle.l6_check.specs.Explains.{Explains};
ghost use Rattle.l6_check.specs.OnCard.{IsOnCard, IsOnItsCard};

use crate::conditions::gives_condition;
use crate::finding::{Finding, Span};
use crate::forms::first_of;
use crate::marked::marked_columns;
use crate::parts::{Part, begin_with_then};
use crate::reason::{FormReason, LimitReason, Reason};
use crate::spelling_advice::{begins_with_slip, lacks_first_comma};
use l6_card::{Objection, Reason as Kind, columns_of};
use l6_group::{GroupFault, GroupObjection, operation_objection, test_objection};
use l6_word::first_line;

/// The error that an objection to a part is.
pub(crate) fn reading_error(objection: Objection, part: Part<'_>) -> Finding<'_>
    ensures explains { Explains result objection }
    ensures place { IsOnItsCard result }
{
    let line = part.line_on(objection.card);
    let piece = Span::on_card(objection.from, objection.to);
    match objection.reason {
        Kind::NoOperation => {
            let why = operation_reason(inside(columns_of(line), piece));
            let span = piece.part(why.start, why.length);
            let reason = FormReason::NoOperation(why.fault);
            found(objection.card, line, span, Reason::Form(reason))
        }
        Kind::NoTest => {
            let why = test_reason_in(inside(columns_of(line), piece));
            let span = piece.part(why.start, why.length);
            let reason = FormReason::NoTest(why.fault);
            found(objection.card, line, span, Reason::Form(reason))
        }
        Kind::TestForOperation => {
            let reason = Reason::Form(test_reason(part));
            found(objection.card, line, piece, reason)
        }
        Kind::Unfinished => {
            let reason = Reason::Form(unfinished_reason(part, objection.card));
            found(objection.card, line, piece, reason)
        }
        kind => {
            let marked = marked_columns(kind, columns_of(line), piece);
            found(objection.card, line, marked, piece_reason(kind))
        }
    }
}

/// Why a group is no operation, and where: at its first element, if that is the word of an operation in other
/// languages, or seems to be two elements.
fn operation_reason(columns: &[u8]) -> GroupObjection {
    let why = known(operation_objection(columns));
    if is_of_spelling(why.fault) && (begins_with_slip(columns) || lacks_first_comma(columns)) {
        return at_first_element(columns);
    }
    why
}

/// Why a group is no test, and where: at its first element, if that seems to be two.
fn test_reason_in(columns: &[u8]) -> GroupObjection {
    let why = known(test_objection(columns));
    if is_of_spelling(why.fault) && lacks_first_comma(columns) {
        return at_first_element(columns);
    }
    why
}

/// Whether a group objects for its spelling, or for how many elements it has.
fn is_of_spelling(fault: GroupFault) -> bool {
    match fault {
        GroupFault::Spelling | GroupFault::TooFew | GroupFault::TooMany => true,
        GroupFault::EmptyElement
        | GroupFault::CommaInText
        | GroupFault::WordFirst
        | GroupFault::FieldFirst
        | GroupFault::Element(_) => false,
    }
}

/// The objection that the first element of a group spells nothing.
fn at_first_element(columns: &[u8]) -> GroupObjection {
    GroupObjection {
        start: 0,
        length: first_of(columns).len(),
        fault: GroupFault::Spelling,
    }
}

/// The objection to a group, or to its first column if there is none.
fn known(objection: Option<GroupObjection>) -> GroupObjection {
    match objection {
        Some(objection) => objection,
        None => GroupObjection {
            start: 0,
            length: 0,
            fault: GroupFault::Spelling,
        },
    }
}

/// Why a group that is a test may not stand where an operation must: the condition before it may be in
/// column 1.
fn test_reason(part: Part<'_>) -> FormReason
    ensures { form_kind result ≡ Some kind.TestForOperation }
{
    match first_line(part.text) {
        Some((line, _)) if gives_condition(line) => FormReason::ConditionInColumn1,
        _ => FormReason::TestForOperation,
    }
}

/// Why a statement of a part may not end on this card: the next one may have its THEN.
fn unfinished_reason(part: Part<'_>, card: u32) -> FormReason
    ensures { form_kind result ≡ Some kind.Unfinished }
{
    let next = part.line_on(card.saturating_add(1));
    if begin_with_then(columns_of(next)) {
        return FormReason::UnfinishedBeforeThen;
    }
    FormReason::Unfinished
}

/// The reason of an objection for which nothing more is looked at.
fn piece_reason(kind: Kind) -> Reason
    ensures { kind_of result ≡ Some kind }
{
    Reason::Form(match kind {
        Kind::Column => FormReason::Column,
        Kind::ContinuesNothing => FormReason::ContinuesNothing,
        Kind::LabelTooLong => FormReason::LabelTooLong,
        Kind::LabelBarred => FormReason::LabelBarred,
        Kind::Unclosed => FormReason::Unclosed,
        Kind::Unopened => FormReason::Unopened,
        Kind::NoOperation => FormReason::NoOperation(GroupFault::Spelling),
        Kind::TestForOperation => FormReason::TestForOperation,
        Kind::NoTest => FormReason::NoTest(GroupFault::Spelling),
        Kind::OperationForTest => FormReason::OperationForTest,
        Kind::ThenMissing => FormReason::ThenMissing,
        Kind::SecondTest => FormReason::SecondTest,
        Kind::NoCondition => FormReason::NoCondition,
        Kind::AfterExit => FormReason::AfterExit,
        Kind::NoExit => FormReason::NoExit,
        Kind::NoThen => FormReason::NoThen,
        Kind::Unfinished => FormReason::Unfinished,
        Kind::TooManyStatements => return Reason::Limit(LimitReason::Statements),
        Kind::TooManyContinuations => return Reason::Limit(LimitReason::Continuations),
        Kind::TooManyGroups => return Reason::Limit(LimitReason::Groups),
    })
}

/// A finding on a card with this line.
fn found(card: u32, line: &[u8], span: Span, reason: Reason) -> Finding<'_>
    ensures card { result.card ≡ card }
    ensures reason { result.reason ≡ reason }
    ensures span { result.span ≡ span }
    ensures line { result.line.now ≡ line.now }
{
    Finding {
        card,
        span,
        text: text_at(columns_of(line), span),
        line,
        reason,
    }
}

/// The columns between the parentheses of a group that is at this piece of columns.
fn inside(columns: &[u8], piece: Span) -> &[u8]
    requires { IsOnCard piece }
{
    text_at(
        columns,
        Span {
            from: piece.from + 1,
            to: piece.to - 1,
        },
    )
}

/// What columns have at a span, as far as there are any.
pub(crate) fn text_at(columns: &[u8], span: Span) -> &[u8] {
    let to = span.to.min(columns.len());
    let from = span.from.min(to);
    &columns[from..to]
}
