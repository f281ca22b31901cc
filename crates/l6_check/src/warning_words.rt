//! The texts of warnings, in one table.

use crate::reason::{CertainTrap, WarningReason};
use crate::texts::{Words, row};

/// The words of a warning.
pub(crate) fn warning_words(reason: WarningReason) -> Words {
    match reason {
        WarningReason::PastColumns => {
            row(
                "`",
                "` is past column 72, and is not read",
                "a statement goes on to the next card, which has + in column 1",
            )
        }
        WarningReason::LabelIsCondition => {
            row(
                "the condition `",
                "` is read as a label",
                "a statement without a label has a blank in column 1",
            )
        }
        WarningReason::UnnamedLabel => row("no statement names the label `", "`", ""),
        WarningReason::UnreachedStatement => {
            row(
                "no way leads to the statement `",
                "`",
                "no statement that a run can come to names it or goes on to it",
            )
        }
        WarningReason::AlwaysTraps(trap) => row("`", "` always traps", trap_advice(trap)),
        WarningReason::LaterTraps(trap) => row(
            "an operation of the statement that `",
            "` begins always traps",
            trap_advice(trap),
        ),
        WarningReason::DecidesNothing => row(
            "the condition of `",
            "` decides nothing: the next statement follows in any case",
            "what it decides stands after THEN, on this card or on one with + in column 1",
        ),
        WarningReason::RunsOn => row(
            "the statement `",
            "` runs on into a subroutine",
            "the statement after it is one that DO calls: mostly DONE is missing here",
        ),
        WarningReason::UndefinedField(_) => {
            row(
                "the chain `",
                "` has the field ",
                "a bug is one letter, and what follows it are fields: (cd,Df,cd,cd) defines the field f",
            )
        }
        WarningReason::ImageText => {
            row(
                "`",
                "` looks like a line of an image, and this is no deck",
                "l6 load runs an image",
            )
        }
    }
}

/// Advice on an operation that always traps so.
fn trap_advice(trap: CertainTrap) -> &'static str {
    match trap {
        CertainTrap::BadDefinition => {
            "a word is 0 to 1023, a bit is 0 to 35, and the first bit is not after the last: (0,DN,18,35)"
        }
        CertainTrap::ZeroDivisor => "nothing can be divided by 0",
        CertainTrap::BadSize => "a block has 1 to 1024 words",
        CertainTrap::BadCount => "1 to 6 characters are taken or printed at once",
    }
}
