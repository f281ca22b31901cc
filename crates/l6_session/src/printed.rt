//! What has been printed since a session stopped before.

ghost use Rattle.std.specs.Prelude.{◌≡◌, ◌++◌, OnOk};
ghost use Rattle.std.specs.List.{flat_map};
ghost use Rattle.l6_session.specs.Changes as spec;
ghost use Rattle.l6_word.specs.Lines.{lines_of};

use crate::text::push_counted;
use l6_word::first_line;
use std::alloc::AllocError;

/// How many characters are shown at a stop of what has been printed since the one before.
pub(crate) const MOST_PRINTED: usize = 400;

/// Adds the last of some characters that have been printed, line by line.
pub(crate) fn push_printed(text: &mut Vec<u8>, characters: &[u8]) -> Result<(), AllocError>
    ensures { OnOk result (text.new.items ≡ text.old.items ++ spec.printed_lines characters.now) }
{
    let earlier = characters.len().saturating_sub(MOST_PRINTED);
    push_earlier(text, earlier)?;
    push_lines(text, &characters[earlier..])
}

/// Adds how many characters were printed before those that are shown, if some were.
fn push_earlier(text: &mut Vec<u8>, count: usize) -> Result<(), AllocError>
    ensures { OnOk result (text.new.items ≡ text.old.items ++ spec.earlier_text count) }
{
    if count == 0 {
        return Ok(());
    }
    push_more(text, count)
}

/// Adds how many more characters were printed.
fn push_more(text: &mut Vec<u8>, count: usize) -> Result<(), AllocError>
    ensures { OnOk result (text.new.items ≡ text.old.items ++ spec.more_text count) }
{
    push_counted(text, b"      printed ", count)?;
    text.extend_from_slice(b" more, see out\n")
}

/// Adds lines that have been printed.
fn push_lines(text: &mut Vec<u8>, characters: &[u8]) -> Result<(), AllocError>
    ensures { OnOk result (text.new.items
        ≡ text.old.items ++ flat_map spec.printed_line (lines_of characters.now)) }
{
    let mut rest = characters;
    while let Some((line, following)) = first_line(rest) {
        push_line(text, line)?;
        rest = following;
    }
    Ok(())
}

/// Adds a line that has been printed.
fn push_line(text: &mut Vec<u8>, line: &[u8]) -> Result<(), AllocError>
    ensures { OnOk result (text.new.items ≡ text.old.items ++ spec.printed_line line.now) }
{
    match line.split_first() {
        Some(_) => push_shown(text, line),
        None => text.extend_from_slice(b"      printed a line feed\n"),
    }
}

/// Adds a line with some characters that has been printed.
fn push_shown(text: &mut Vec<u8>, line: &[u8]) -> Result<(), AllocError>
    ensures { OnOk result (text.new.items ≡ text.old.items ++ spec.shown_line line.now) }
{
    text.extend_from_slice(b"      printed ")?;
    text.extend_from_slice(line)?;
    text.extend_from_slice(b"\n")
}
