//! What is no deck: what follows a line that separates the parts of a job, and images.

ghost use Rattle.std.specs.Prelude.{◌≡◌, ◌≤◌, false, length, Some, IfOk};
ghost use Rattle.l6_word.specs.Lines.{lines_of};
ghost use Rattle.l6_group.specs.Character.{spelled};
ghost use Rattle.l6_check.specs.Kept.{Say};
ghost use Rattle.l6_check.specs.JobText as spec;

use crate::finding::{Finding, Span};
use crate::findings::Findings;
use crate::reason::{Reason, WarningReason};
use l6_card::columns_of;
use l6_group::{Spelling, is_blank, spelled};
use l6_word::{OCTALS, first_line, read_octal12, split_line, without_return};
use std::alloc::{AllocError, Global};

/// How many characters the longest mark has.
pub(crate) const MAX_MARK: usize = 9;

/// Whether a line reads as one that separates the parts of a job.
pub(crate) fn is_mark(line: &[u8]) -> bool
    ensures { result ≡ spec.is_mark line.now }
{
    let columns = columns_of(line);
    if !may_be_mark(columns) {
        return false;
    }
    let characters: Option<Spelling<'_, MAX_MARK>> = spelled(columns);
    match characters {
        None => false,
        Some(characters) => are_mark(characters.as_slice()),
    }
}

/// Whether columns may be those of a mark, by the first of them that is not blank.
fn may_be_mark(columns: &[u8]) -> bool
    ensures { result ≡ false → spec.are_mark (spelled columns.now) ≡ false }
{
    let mut rest = columns;
    while let Some((first, following)) = rest.split_first() {
        if !is_blank(*first) {
            return *first == b'$';
        }
        rest = following;
    }
    false
}

/// Whether characters are those of a mark.
fn are_mark(characters: &[u8]) -> bool
    ensures { result ≡ spec.are_mark characters.now }
{
    match characters {
        b"$INPUT" => true,
        b"$COMMANDS" => true,
        _ => false,
    }
}

/// A deck up to its first line that reads so, with it: what follows was not meant to be of the deck.
pub(crate) fn up_to_mark(deck: &[u8]) -> &[u8]
    ensures lines { lines_of result.now ≡ spec.lines_to_mark (lines_of deck.now) }
    ensures shorter { length result.now ≤ length deck.now }
{
    let mut rest = deck;
    let mut count = 0;
    while let Some((line, following)) = split_line(rest) {
        count += line.len() + 1;
        if is_mark(line) {
            return &deck[..count];
        }
        rest = following;
    }
    deck
}

/// The warning of a deck that begins as the text of an image does, if it does.
pub(crate) fn image_text<'a>(alloc: Global, deck: &'a [u8]) -> Result<Findings<'a>, AllocError>
    ensures { IfOk result (Say spec.image_card (spec.image_cards deck.now)) }
{
    let mut found = Findings::new(alloc);
    if let Some((line, _)) = first_line(deck) {
        if is_image_line(line) {
            found.add(image_on(line))?;
        }
    }
    Ok(found)
}

/// Whether a line looks like one of an image.
fn is_image_line(line: &[u8]) -> bool
    ensures { result ≡ spec.is_image_line line.now }
{
    read_octal12(without_return(line)).is_some()
}

/// The warning of a first line that looks so.
fn image_on(line: &[u8]) -> Finding<'_>
    ensures { spec.image_card result ≡ Some 1 }
{
    Finding {
        card: 1,
        span: Span::on_card(0, OCTALS),
        text: without_return(line),
        line: without_return(line),
        reason: Reason::Warning(WarningReason::ImageText),
    }
}
