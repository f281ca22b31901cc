//! The texts of what is wrong with a group, in one table.

use crate::element_advice::{
    chain_advice, octal_advice, operand_advice, printed_advice, text_advice,
};
use crate::finding::Finding;
use crate::forms::{
    chain_place_advice, first_of, form_advice, is_definition_without_d, plain_word_advice,
    test_form_advice,
};
use crate::spelling_advice::{operation_spelling_advice, test_spelling_advice};
use crate::texts::{Words, row, unquoted};
use l6_group::{GroupFault, Shape, Spelling, spelled};

/// The words of a group that is no operation.
pub(crate) fn operation_words(fault: GroupFault, finding: &Finding<'_>) -> Words {
    let text = finding.text;
    match fault {
        GroupFault::Spelling => {
            row(
                "no operation is spelled `",
                "`",
                operation_spelling_advice(finding),
            )
        }
        GroupFault::TooFew => row("`", "` has too few elements", form_advice(text)),
        GroupFault::TooMany => many_words(text),
        GroupFault::WordFirst => word_first(text),
        GroupFault::EmptyElement
        | GroupFault::CommaInText
        | GroupFault::FieldFirst
        | GroupFault::Element(_) => group_words(fault, finding),
    }
}

/// The words of a group that has too many elements.
fn many_words(text: &[u8]) -> Words {
    if is_definition_without_d(text) {
        return row(
            "the definition `",
            "` has no D before its field",
            "(cd,Df,cd,cd) defines the field f: (0,DN,18,35)",
        );
    }
    row("`", "` has too many elements", form_advice(text))
}

/// The words of a group that begins with the word of an operation.
fn word_first(text: &[u8]) -> Words {
    let first: Option<Spelling<'_, 2>> = spelled(first_of(text));
    let is_line = match first {
        None => false,
        Some(first) => matches!(first.as_slice(), b"PL"),
    };
    if is_line {
        return row(
            "`",
            "` has too many elements",
            plain_word_advice(first_of(text)),
        );
    }
    row(
        "`",
        "` begins with the operation",
        plain_word_advice(first_of(text)),
    )
}

/// The words of a group that is no test.
pub(crate) fn test_words(fault: GroupFault, finding: &Finding<'_>) -> Words {
    let text = finding.text;
    match fault {
        GroupFault::Spelling => row("no test is spelled `", "`", test_spelling_advice(text)),
        GroupFault::TooFew => row("`", "` has too few elements", test_form_advice()),
        GroupFault::TooMany => row("`", "` has too many elements", test_form_advice()),
        GroupFault::EmptyElement
        | GroupFault::CommaInText
        | GroupFault::WordFirst
        | GroupFault::FieldFirst
        | GroupFault::Element(_) => group_words(fault, finding),
    }
}

/// The words of a group.
fn group_words(fault: GroupFault, finding: &Finding<'_>) -> Words {
    let text = finding.text;
    match fault {
        GroupFault::EmptyElement => {
            unquoted(
                "an element is empty",
                "only the fourth element of (c,GT,cd,,L) and (c,DP,cd,,L) may be empty",
            )
        }
        GroupFault::CommaInText => {
            row(
                "the text in `",
                "` has a comma",
                "a text has no comma and no parenthesis",
            )
        }
        GroupFault::FieldFirst => {
            row(
                "the definition `",
                "` begins with its field",
                "the word comes first: (cd,Df,cd,cd) defines the field f",
            )
        }
        GroupFault::Element(shape) => shape_words(shape, finding),
        GroupFault::Spelling | GroupFault::TooFew | GroupFault::TooMany | GroupFault::WordFirst =>
            row("`", "` has no reading", ""),
    }
}

/// The words of an element that is not what stands there.
fn shape_words(shape: Shape, finding: &Finding<'_>) -> Words {
    let text = finding.text;
    match shape {
        Shape::Chain | Shape::OptionalChain => row(
            "`",
            "` is no chain",
            chain_advice(
                text,
                chain_place_advice(finding.group(), finding.element_number()),
            ),
        ),
        Shape::Operand => row("`", "` is no chain and no number", operand_advice(text)),
        Shape::Octal => { row("`", "` is no octal number", octal_advice(text)) }
        Shape::Text => row("`", "` is no text of 1 to 6 characters", text_advice(text)),
        Shape::LongText => row(
            "`",
            "` is no text of 1 to 60 characters",
            printed_advice(text),
        ),
        Shape::Label => {
            row(
                "`",
                "` is no label",
                "a label is a letter and up to 5 letters or digits, and not DONE or FAIL",
            )
        }
        Shape::Field => row("`", "` is no field", "a field is one letter or digit"),
        Shape::Nothing => row(
            "`",
            "` stands where nothing may stand",
            "write (c,DP,cd,,L)",
        ),
        Shape::SaveOrRestore => row(
            "`",
            "` is neither S nor R",
            "S saves and R restores, and comes first: (S,FC,A), (S,FD,N)",
        ),
        Shape::Spelling => row("`", "` has no reading", ""),
    }
}
