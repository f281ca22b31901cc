//! The texts of findings, in one table.

use crate::advice::{is_statement, label_advice};
use crate::finding::{Finding, Severity};
use crate::form_words::form_words;
use crate::forms::plain_word_advice;
use crate::reason::{LabelText, LimitReason, MissingLabel, Reason, WarningReason};
use crate::scan::{after_last, has, letter_count};
use crate::spelling_advice::known_operation;
use crate::warning_words::warning_words;
use l6_group::label_of;
use l6_prog::{DIGITS, NAMES};
use std::{fmt, str};

/// The sentence of a finding, in front of what was read and after it; and advice, or nothing.
#[derive(Clone, Copy, Debug)]
pub(crate) struct Words {
    front: &'static str,
    back: &'static str,
    advice: &'static str,
    is_quoted: bool,
}

/// A row of the table.
pub(crate) fn row(front: &'static str, back: &'static str, advice: &'static str) -> Words {
    Words {
        front,
        back,
        advice,
        is_quoted: true,
    }
}

/// A row whose sentence does not have what was read.
pub(crate) fn unquoted(sentence: &'static str, advice: &'static str) -> Words {
    Words {
        front: sentence,
        back: "",
        advice,
        is_quoted: false,
    }
}

impl fmt::Display for Severity {
    fn fmt<W: fmt::Write>(&self, f: &mut fmt::Formatter<W>) -> fmt::Result {
        match self {
            Severity::Error => f.write_str("error"),
            Severity::Warning => f.write_str("warning"),
        }
    }
}

/// The card and the column, both from 1 on; how bad it is; what is wrong; and, on a line of its own,
/// advice, if there is any.
impl fmt::Display for Finding<'_> {
    fn fmt<W: fmt::Write>(&self, f: &mut fmt::Formatter<W>) -> fmt::Result {
        let words = words_of(self);
        write_place(f, self)?;
        write_sentence(f, self, words)?;
        write_hint(f, self, words, "\n    ")
    }
}

/// A finding with its card, on lines of their own before the advice, and signs under its columns.
#[derive(Clone, Copy, Debug)]
pub(crate) struct WithCard<'a>(pub(crate) Finding<'a>);

impl fmt::Display for WithCard<'_> {
    fn fmt<W: fmt::Write>(&self, f: &mut fmt::Formatter<W>) -> fmt::Result {
        let words = words_of(&self.0);
        write_place(f, &self.0)?;
        write_sentence(f, &self.0, words)?;
        write_card(f, &self.0)?;
        write_hint(f, &self.0, words, "\n      = ")
    }
}

/// What is wrong, without where.
#[derive(Clone, Copy, Debug)]
pub(crate) struct Sentence<'a>(pub(crate) Finding<'a>);

impl fmt::Display for Sentence<'_> {
    fn fmt<W: fmt::Write>(&self, f: &mut fmt::Formatter<W>) -> fmt::Result {
        write_sentence(f, &self.0, words_of(&self.0))
    }
}

/// The advice on a finding, or nothing.
#[derive(Clone, Copy, Debug)]
pub(crate) struct Advice<'a>(pub(crate) Finding<'a>);

impl fmt::Display for Advice<'_> {
    fn fmt<W: fmt::Write>(&self, f: &mut fmt::Formatter<W>) -> fmt::Result {
        write_hint(f, &self.0, words_of(&self.0), "")
    }
}

/// Writes the card and the column, both from 1 on, and how bad it is.
fn write_place<W: fmt::Write>(f: &mut fmt::Formatter<W>, finding: &Finding<'_>) -> fmt::Result {
    let card = finding.card;
    let column = finding.span.from.saturating_add(1);
    let severity = finding.severity();
    write!(f, "{card}:{column}: {severity}: ")
}

/// Writes what is wrong.
fn write_sentence<W: fmt::Write>(
    f: &mut fmt::Formatter<W>,
    finding: &Finding<'_>,
    words: Words,
) -> fmt::Result {
    let text = if words.is_quoted {
        shown(finding.text)
    } else {
        ""
    };
    let front = words.front;
    let back = words.back;
    write!(f, "{front}{text}{back}")?;
    match finding.reason {
        Reason::TwiceLabelled(first) => write!(f, "{first}, too"),
        Reason::Warning(WarningReason::UndefinedField(field)) => {
            let name = char::from(character_of(field));
            write!(f, "{name}, which nothing defines")
        }
        Reason::Form(_) | Reason::Limit(_) | Reason::NoLabel(_) | Reason::Warning(_) => Ok(()),
    }
}

/// Writes a card as it is, and signs under the columns of a finding, if it is text that can be shown.
fn write_card<W: fmt::Write>(f: &mut fmt::Formatter<W>, finding: &Finding<'_>) -> fmt::Result {
    let line = finding.line;
    let from = finding.span.from.min(line.len());
    let to = finding.span.to.min(line.len());
    let text = shown(line);
    if text.len() != line.len() || from >= to {
        return Ok(());
    }
    let card = finding.card;
    write!(f, "\n{card:>5} | {text}\n      | ")?;
    write_signs(f, &line[..from], " ")?;
    write_signs(f, &line[from..to], "^")
}

/// Writes a sign for each character of a text, and a tab for each tab before it.
fn write_signs<W: fmt::Write>(f: &mut fmt::Formatter<W>, text: &[u8], sign: &str) -> fmt::Result {
    for byte in text {
        if *byte == b'\t' {
            f.write_str("\t")?;
        } else if *byte < 0x80 || *byte >= 0xC0 {
            f.write_str(sign)?;
        }
    }
    Ok(())
}

/// Writes advice on a finding, or the label that is nearly the one that was read, after these signs, if there is any.
fn write_hint<W: fmt::Write>(
    f: &mut fmt::Formatter<W>,
    finding: &Finding<'_>,
    words: Words,
    signs: &str,
) -> fmt::Result {
    match &finding.reason {
        Reason::NoLabel(missing) => write_nearest(
            f,
            &nearest_for(finding, missing),
            words.advice,
            signs,
        ),
        Reason::Warning(WarningReason::UndefinedField(_)) => {
            write_field_advice(f, words.advice, word_form(finding.text), signs)
        }
        Reason::Form(_) | Reason::Limit(_) | Reason::TwiceLabelled(_) | Reason::Warning(_) => {
            write_advice(f, words.advice, signs)
        }
    }
}

/// What is nearly a label that is missing: no exit, where an operation names it.
fn nearest_for(finding: &Finding<'_>, missing: &MissingLabel) -> Option<LabelText> {
    let near = missing.near?;
    let is_named_in_group = has(after_last(finding.before(), b')'), b'(');
    if is_named_in_group && label_of(characters_of(&near)).is_none() {
        return None;
    }
    Some(near)
}

/// How an operation is written that a chain is the word of, here or in other languages.
fn word_form(chain: &[u8]) -> &'static str {
    let form = plain_word_advice(chain);
    if form.is_empty() && letter_count(chain) > 1 {
        return known_operation(chain);
    }
    form
}

/// Writes advice after these signs, if there is any.
fn write_advice<W: fmt::Write>(
    f: &mut fmt::Formatter<W>,
    advice: &str,
    signs: &str,
) -> fmt::Result {
    if advice.is_empty() {
        return Ok(());
    }
    write!(f, "{signs}{advice}")
}

/// Writes advice on a chain with a field that nothing defines; if the chain is spelled as an operation,
/// how that is written.
fn write_field_advice<W: fmt::Write>(
    f: &mut fmt::Formatter<W>,
    advice: &str,
    form: &str,
    signs: &str,
) -> fmt::Result {
    if form.is_empty() {
        return write_advice(f, advice, signs);
    }
    write!(f, "{signs}the word of an operation stands second: {form}")
}

/// Writes the label that is nearly the one that was read, or else advice.
fn write_nearest<W: fmt::Write>(
    f: &mut fmt::Formatter<W>,
    near: &Option<LabelText>,
    advice: &str,
    signs: &str,
) -> fmt::Result {
    match near {
        None => write_advice(f, advice, signs),
        Some(near) => {
            let label = shown(characters_of(near));
            write!(f, "{signs}is it `{label}`?")
        }
    }
}

/// The character of the name of this number.
fn character_of(number: u8) -> u8 {
    if number < DIGITS {
        b'0' + number
    } else if number < NAMES {
        b'A' + (number - DIGITS)
    } else {
        b'?'
    }
}

/// The characters of a label.
fn characters_of(label: &LabelText) -> &[u8] {
    let count = label.count.min(label.characters.len());
    &label.characters[..count]
}

/// What was read, as text, if it is text that can be shown.
fn shown(text: &[u8]) -> &str {
    if text
        .iter()
        .any(|byte| byte.is_ascii_control() && *byte != b'\t')
    {
        return "?";
    }
    match str::from_utf8(text) {
        Ok(text) => text,
        Err(_) => "?",
    }
}

/// The words of a finding.
fn words_of(finding: &Finding<'_>) -> Words {
    let text = finding.text;
    match finding.reason {
        Reason::Form(reason) => form_words(reason, finding),
        Reason::Limit(reason) => limit_words(reason),
        Reason::TwiceLabelled(_) => row("the label `", "` is given by card ", ""),
        Reason::NoLabel(missing) => missing_words(finding, missing.near.is_some()),
        Reason::Warning(reason) => warning_words(reason),
    }
}

/// The words of a label that no card gives.
fn missing_words(finding: &Finding<'_>, is_near: bool) -> Words {
    let text = finding.text;
    let advice = label_advice(text, finding.line);
    if !is_near && is_statement(text) {
        return row(
            "`",
            "` is read as an exit to a label, and no card gives it",
            advice,
        );
    }
    row("no card gives the label `", "`", advice)
}

/// The words of what there is too much of.
fn limit_words(reason: LimitReason) -> Words {
    match reason {
        LimitReason::Statements => {
            row(
                "the statement `",
                "` is one too many: a deck has at most 65534",
                "",
            )
        }
        LimitReason::Continuations => {
            row(
                "this `",
                "` is one too many: a statement has at most 15 such cards",
                "",
            )
        }
        LimitReason::Groups => {
            row(
                "`",
                "` is one too many: a statement has at most 63 tests and 63 operations",
                "",
            )
        }
    }
}
