//! The words by which programs know why something is found.

ghost use Rattle.std.specs.Prelude.{◌≡◌};
ghost use Rattle.l6_check.specs.Codes as spec;

use crate::finding::Finding;
use crate::reason::{FormReason, LimitReason, Reason, WarningReason};

impl Finding<'_> {
    /// A word for why it is found, the same for each finding of its kind.
    pub fn code(&self) -> &'static str
        ensures { result.now ≡ spec.code_of self.now.reason }
    {
        match self.reason {
            Reason::Form(reason) => form_code(reason),
            Reason::Limit(reason) => limit_code(reason),
            Reason::TwiceLabelled(_) => "label-twice",
            Reason::NoLabel(_) => "no-label",
            Reason::Warning(reason) => warning_code(reason),
        }
    }
}

/// The word of what has no reading.
fn form_code(reason: FormReason) -> &'static str
    ensures { result.now ≡ spec.form_code reason }
{
    match reason {
        FormReason::Column => "column-1",
        FormReason::ContinuesNothing => "continues-nothing",
        FormReason::LabelTooLong => "label-too-long",
        FormReason::LabelBarred => "label-is-exit",
        FormReason::Unclosed => "unclosed-group",
        FormReason::Unopened => "unopened-group",
        FormReason::NoOperation(_) => "no-operation",
        FormReason::NoTest(_) => "no-test",
        FormReason::TestForOperation => "test-for-operation",
        FormReason::ConditionInColumn1 => "condition-in-column-1",
        FormReason::OperationForTest => "operation-for-test",
        FormReason::ThenMissing => "then-missing",
        FormReason::SecondTest => "second-test",
        FormReason::AfterExit => "after-exit",
        FormReason::NoCondition => "no-condition",
        FormReason::NoExit => "no-exit",
        FormReason::NoThen => "no-then",
        FormReason::Unfinished => "unfinished",
        FormReason::UnfinishedBeforeThen => "unfinished-before-then",
        FormReason::Unread => "unread",
    }
}

/// The word of what there is too much of.
fn limit_code(reason: LimitReason) -> &'static str
    ensures { result.now ≡ spec.limit_code reason }
{
    match reason {
        LimitReason::Statements => "too-many-statements",
        LimitReason::Continuations => "too-many-continuations",
        LimitReason::Groups => "too-many-groups",
    }
}

/// The word of a warning.
fn warning_code(reason: WarningReason) -> &'static str
    ensures { result.now ≡ spec.warning_code reason }
{
    match reason {
        WarningReason::PastColumns => "past-column-72",
        WarningReason::LabelIsCondition => "label-is-condition",
        WarningReason::UnnamedLabel => "unnamed-label",
        WarningReason::UnreachedStatement => "unreached-statement",
        WarningReason::AlwaysTraps(_) => "always-traps",
        WarningReason::LaterTraps(_) => "always-traps",
        WarningReason::DecidesNothing => "decides-nothing",
        WarningReason::RunsOn => "runs-on",
        WarningReason::UndefinedField(_) => "undefined-field",
        WarningReason::ImageText => "image-text",
    }
}
