//! Changes of a card that may mend what is found there. Only those that do are offered.

use crate::group_candidates::{add_for_group, word_in};
use l6_check::{Finding, FormReason, LabelText, MissingLabel, Reason, WarningReason};
use std::alloc::{AllocError, Global};

/// What a change of column 1 is called.
const BLANK: &str = "Put a blank in column 1";

const STAR: &str = "Make it a comment";

const PLUS: &str = "Let the next card continue the statement";

const REST: &str = "Go on on a card with + in column 1";

const SIGN: &str = "Remove the sign";

/// The signs that people put behind what they write.
const SIGNS: &[u8] = b";,.:!";

/// What an item of a card stands behind, or begins with.
const SEPARATORS: &[u8] = b" ()";

/// How many columns of a card count.
pub(crate) const WIDTH: usize = 72;

/// A change of a card.
#[derive(Drop)]
pub(crate) struct Candidate {
    /// The card's number.
    pub(crate) card: usize,
    /// The first column that it replaces.
    pub(crate) from: usize,
    /// The column after the last one.
    pub(crate) to: usize,
    /// What stands there then.
    pub(crate) text: Vec<u8>,
    /// What it does, in words; nothing where that is to write its text.
    pub(crate) title: Option<&'static str>,
}

impl Candidate {
    /// Writes a text in place of columns.
    pub(crate) fn write(card: u32, from: usize, to: usize, text: Vec<u8>) -> Self {
        Candidate {
            card: card as usize,
            from,
            to,
            text,
            title: None,
        }
    }

    /// Writes a text in place of columns, for a reason.
    fn called(
        alloc: Global,
        title: &'static str,
        card: usize,
        from: usize,
        to: usize,
        text: &[u8],
    ) -> Result<Self, AllocError> {
        Ok(Candidate {
            card,
            from,
            to,
            text: text.to_vec(alloc)?,
            title: Some(title),
        })
    }
}

/// The changes that may mend a finding, the likeliest first. `next` is the line of the card after its card.
///
/// # Errors
///
/// Memory ran out.
pub(crate) fn candidates_of(
    alloc: Global,
    finding: &Finding<'_>,
    next: &[u8],
) -> Result<Vec<Candidate>, AllocError> {
    let mut list = Vec::new(alloc);
    add_for_reason(alloc, &mut list, finding, next)?;
    add_for_column_1(alloc, &mut list, finding)?;
    Ok(list)
}

/// Adds the changes that the reason of a finding tells of.
fn add_for_reason(
    alloc: Global,
    list: &mut Vec<Candidate>,
    finding: &Finding<'_>,
    next: &[u8],
) -> Result<(), AllocError> {
    let card = finding.card as usize;
    match finding.reason {
        Reason::NoLabel(
            MissingLabel {
                near: Some(near),
                ..
            },
        ) => {
            let text = characters_of(&near).to_vec(alloc)?;
            let (from, to) = (finding.span.from, finding.span.to);
            list.push(Candidate::write(finding.card, from, to, text))?;
        }
        Reason::Form(FormReason::NoOperation(_))
        | Reason::Form(FormReason::NoTest(_))
        | Reason::Warning(WarningReason::UndefinedField(_)) => {
            add_for_group(alloc, list, finding)?;
        }
        Reason::Form(FormReason::UnfinishedBeforeThen)
        | Reason::Warning(WarningReason::DecidesNothing) => {
            if next.first() == Some(&b' ') {
                let after = card.saturating_add(1);
                list.push(Candidate::called(alloc, PLUS, after, 0, 1, b"+")?)?;
            }
        }
        Reason::Warning(WarningReason::PastColumns) => {
            let at = item_before(finding.line);
            list.push(Candidate::called(alloc, REST, card, at, at, b"\n+      ")?)?;
        }
        Reason::Form(FormReason::AfterExit)
        | Reason::Form(FormReason::NoCondition)
        | Reason::Form(FormReason::NoExit)
        | Reason::Form(FormReason::NoThen) => add_for_words(alloc, list, finding)?,
        _ => {}
    }
    Ok(())
}

/// Adds the changes of a card that has something in column 1.
fn add_for_column_1(
    alloc: Global,
    list: &mut Vec<Candidate>,
    finding: &Finding<'_>,
) -> Result<(), AllocError> {
    let card = finding.card as usize;
    let first = finding.line.first().copied().unwrap_or(b' ');
    if first != b' ' {
        list.push(Candidate::called(alloc, BLANK, card, 0, 0, b" ")?)?;
        if !first.is_ascii_alphanumeric() {
            list.push(Candidate::called(alloc, STAR, card, 0, 1, b"*")?)?;
        }
    }
    Ok(())
}

/// Adds the changes of words that stand where none may stand.
fn add_for_words(
    alloc: Global,
    list: &mut Vec<Candidate>,
    finding: &Finding<'_>,
) -> Result<(), AllocError> {
    let (card, from, to) = (finding.card, finding.span.from, finding.span.to);
    let text = finding.text;
    if let Some((last, front)) = text.split_last() {
        if SIGNS.contains(last) {
            let sign = from.saturating_add(front.len());
            list.push(Candidate::called(alloc, SIGN, card as usize, sign, to, b"")?)?;
        }
    }
    let object = object_of(text);
    if object.len() < text.len() {
        // (GOTO LAST; IF NOT, of which the condition is the last word; and CALL LAST, which comes back from there)
        let said = finding.said(alloc)?;
        let meant = match word_in(said.advice.as_bytes()) {
            Some(b"DO") => concat(alloc, &[b"(", object, b",DO)"])?,
            _ => object.to_vec(alloc)?,
        };
        let then = concat(alloc, &[b"THEN ", meant.as_slice()])?;
        list.push(Candidate::write(card, from, to, meant))?;
        list.push(Candidate::write(card, from, to, then))?;
    } else {
        list.push(Candidate::write(card, from, to, b"THEN".to_vec(alloc)?))?;
    }
    list.push(Candidate::write(card, from, to, with_parentheses(alloc, text)?))?;
    Ok(())
}

/// Texts, one after another.
pub(crate) fn concat(alloc: Global, texts: &[&[u8]]) -> Result<Vec<u8>, AllocError> {
    let mut whole = Vec::new(alloc);
    for text in texts {
        whole.extend_from_slice(text)?;
    }
    Ok(whole)
}

/// A text with parentheses in place of brackets and braces.
fn with_parentheses(alloc: Global, text: &[u8]) -> Result<Vec<u8>, AllocError> {
    let mut changed = Vec::new(alloc);
    for byte in text {
        changed.push(match byte {
            b'[' | b'{' => b'(',
            b']' | b'}' => b')',
            other => *other,
        })?;
    }
    Ok(changed)
}

/// What a statement of another language is about: what follows its word, which is one or GO TO, or stands after THEN.
fn object_of(text: &[u8]) -> &[u8] {
    let statement = without_front(text, b"THEN ");
    without_front(after_blank(statement), b"TO ")
}

/// A text without what it begins with; all of it where it begins otherwise.
fn without_front<'a>(text: &'a [u8], front: &[u8]) -> &'a [u8] {
    if text.starts_with(front) {
        text.get(front.len()..).unwrap_or(text)
    } else {
        text
    }
}

/// What follows the first blank of a text; all of it where there is none.
fn after_blank(text: &[u8]) -> &[u8] {
    match text.iter().position(|byte| *byte == b' ') {
        None => text,
        Some(at) => text.get(at + 1..).unwrap_or(text),
    }
}

/// Where the group or the word begins that does not end within the columns that count.
fn item_before(line: &[u8]) -> usize {
    let front = line.get(..WIDTH).unwrap_or(line);
    match front.iter().rposition(|byte| SEPARATORS.contains(byte)) {
        None => WIDTH,
        Some(at) if front.get(at) == Some(&b'(') => at,
        Some(at) => at.saturating_add(1),
    }
}

/// The characters of a label.
fn characters_of(label: &LabelText) -> &[u8] {
    label.characters.get(..label.count).unwrap_or(b"")
}
