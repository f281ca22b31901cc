//! The texts of what has no reading outside of groups, in one table.

use crate::advice::{
    LAST_EXIT, column_advice, condition_advice, exit_advice, followed_exit_advice, then_advice,
    unclosed_advice,
};
use crate::conditions::gives_condition;
use crate::finding::Finding;
use crate::group_words::{operation_words, test_words};
use crate::job::is_mark;
use crate::reason::FormReason;
use crate::scan::{begins_with, has, letter_count};
use crate::texts::{Words, row, unquoted};

/// The words of what has no reading.
pub(crate) fn form_words(reason: FormReason, finding: &Finding<'_>) -> Words {
    let text = finding.text;
    match reason {
        FormReason::Column => column_words(text, finding.line),
        FormReason::ContinuesNothing => {
            row(
                "`",
                "` in column 1, but no statement is there to go on",
                "a statement begins on a card with a blank or a label in column 1",
            )
        }
        FormReason::LabelTooLong => {
            row(
                "the label `",
                "` has more than 6 characters",
                "a label is a letter and up to 5 letters or digits; without one column 1 is blank",
            )
        }
        FormReason::LabelBarred => {
            row(
                "`",
                "` is an exit, and no label",
                "put a blank in column 1; an exit stands after the groups of its statement",
            )
        }
        FormReason::Unclosed => { row("no ) closes `", "`", unclosed_advice(finding.rest())) }
        FormReason::Unopened => row(
            "no ( is there for this `",
            "`",
            "each group has one ( before it and one ) after it, as (A,E,5)",
        ),
        FormReason::NoOperation(fault) => operation_words(fault, finding),
        FormReason::NoTest(fault) => test_words(fault, finding),
        FormReason::NoCondition => no_condition_words(finding),
        FormReason::AfterExit => after_exit_words(finding),
        FormReason::NoExit => no_exit_words(finding),
        FormReason::TestForOperation
        | FormReason::ConditionInColumn1
        | FormReason::OperationForTest
        | FormReason::ThenMissing
        | FormReason::SecondTest
        | FormReason::NoThen
        | FormReason::Unfinished
        | FormReason::UnfinishedBeforeThen
        | FormReason::Unread => condition_words(reason, text),
    }
}

/// The words of a group after a word that is no condition: the word is marked, or the group if the word is on
/// another card.
fn no_condition_words(finding: &Finding<'_>) -> Words {
    let text = finding.text;
    if begins_with(text, b"(") {
        return row(
            "`",
            "` follows a word that is no condition",
            condition_advice(b"", text),
        );
    }
    row(
        "`",
        "` is no condition, and a group follows it",
        condition_advice(text, finding.following()),
    )
}

/// The words of an item after an exit: the exit is marked, or the item if the exit is on another card.
fn after_exit_words(finding: &Finding<'_>) -> Words {
    let text = finding.text;
    let following = finding.following();
    if !begins_with(following, b"(") {
        return row("`", "` follows an exit, and nothing can", "");
    }
    if begins_with(text, b"THEN") && letter_count(text) > 4 {
        return row(
            "`",
            "` ends with an exit, and nothing can follow it",
            LAST_EXIT,
        );
    }
    row(
        "`",
        "` is read as an exit, and nothing can follow it",
        followed_exit_advice(text, following),
    )
}

/// The words of a word that is no exit, or stands where a condition must stand and is none.
fn no_exit_words(finding: &Finding<'_>) -> Words {
    let text = finding.text;
    if is_condition_label(finding) {
        return row(
            "`",
            "` in column 1 is read as a label, and no condition is before THEN",
            "put a blank in column 1",
        );
    }
    let is_word = letter_count(text) > 0 || begins_with(text, b"+");
    if is_word && begins_with(finding.following(), b"(") && !has(finding.before(), b')') {
        return no_condition_words(finding);
    }
    if is_mark(text) {
        return row(
            "`",
            "` separates nothing, since it is not in column 1",
            "remove what is before it: a line such as $INPUT begins in column 1",
        );
    }
    row(
        "`",
        "` is no exit: no label, DONE or FAIL",
        exit_advice(text),
    )
}

/// Whether a finding is about the label of its card, which is spelled as a condition.
fn is_condition_label(finding: &Finding<'_>) -> bool {
    finding.span.from == 0 && gives_condition(finding.line)
}

/// The words of a condition, its tests or THEN.
fn condition_words(reason: FormReason, text: &[u8]) -> Words {
    match reason {
        FormReason::TestForOperation => {
            row(
                "`",
                "` is a test, and no condition is before it",
                "a condition is IF, NOT, IFALL, IFANY, IFNONE or IFNALL; THEN follows its tests",
            )
        }
        FormReason::ConditionInColumn1 => {
            row(
                "`",
                "` is a test, but the condition before it is read as a label",
                "put a blank in column 1",
            )
        }
        FormReason::OperationForTest => {
            row(
                "`",
                "` is an operation, where a test stands",
                "a test is (c,E,cd), or has N, G, L, O or Z in place of E",
            )
        }
        FormReason::ThenMissing => row("THEN is missing before `", "`", ""),
        FormReason::SecondTest => {
            row(
                "IF and NOT have one test, and `",
                "` is a second one",
                "if it is an operation, THEN is missing; IFALL, IFANY, IFNONE and IFNALL have several tests",
            )
        }
        FormReason::NoThen => row("`", "` stands where THEN must stand", then_advice(text)),
        FormReason::Unfinished => {
            row(
                "the statement `",
                "` ends without THEN",
                "THEN follows the tests, and after it what is done; + in column 1 continues a statement",
            )
        }
        FormReason::UnfinishedBeforeThen => {
            row(
                "the statement `",
                "` ends without THEN",
                "THEN on the next card continues it, if + is in column 1 of that card",
            )
        }
        FormReason::Unread
        | FormReason::Column
        | FormReason::ContinuesNothing
        | FormReason::LabelTooLong
        | FormReason::LabelBarred
        | FormReason::Unclosed
        | FormReason::Unopened
        | FormReason::NoOperation(_)
        | FormReason::NoTest(_)
        | FormReason::NoCondition
        | FormReason::AfterExit
        | FormReason::NoExit => row("`", "` has no reading", ""),
    }
}

/// The words of what cannot be in column 1.
fn column_words(text: &[u8], line: &[u8]) -> Words {
    match text {
        [byte] => {
            if byte.is_ascii() {
                row(
                    "`",
                    "` in column 1 begins no card",
                    column_advice(text, line),
                )
            } else {
                unquoted(
                    "column 1 is no ASCII character",
                    "if it cannot be seen, it is a byte-order mark: save the file without it",
                )
            }
        }
        _ => row(
            "`",
            "` in column 1 begins no card",
            column_advice(text, line),
        ),
    }
}
