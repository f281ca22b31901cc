//! What stands in for a group without a reading, so that what follows it is read.

ghost use Rattle.std.specs.Prelude.{◌≡◌, ◌+◌, ◌≤◌, ◌<◌, ◌^◌, ◌++◌, true, length, IfOk, MatchOption, OnOk, IfSome, Some, None};
ghost use Rattle.std.specs.Str.{byte};
ghost use Rattle.l6_word.specs.Lines.{lines_of};
ghost use Rattle.l6_word.specs.Split.{lacks};
ghost use Rattle.l6_check.specs.Statements as spec;
ghost use Rattle.l6_check.specs.inner.Parts.{lines_in};
ghost use Rattle.l6_check.specs.inner.Mending.{AreMended};

use crate::parts::Part;
use l6_card::{Objection, Reason};
use l6_word::split_line;
use std::alloc::{AllocError, Global};

/// The columns that stand in for a group that objects, if what follows it is to be read: a right operation for one
/// that is none, and a right test for one that is none, if it is wide enough.
fn stand_in(alloc: Global, objection: Objection) -> Result<Option<Vec<u8>>, AllocError>
    ensures value { IfOk result (λ made. MatchOption made
        (spec.stand_in objection ≡ None)
        (λ columns. spec.stand_in objection ≡ Some columns.items)) }
    ensures plain { IfOk result (λ made. IfSome made (λ columns. lacks (byte "\n") columns.items ≡ true)) }
{
    let width = objection.to.saturating_sub(objection.from);
    match objection.reason {
        Reason::NoOperation => with_blanks(alloc, b"(PL)", width),
        Reason::NoTest | Reason::OperationForTest => with_blanks(alloc, b"(A,E,0)", width),
        _ => Ok(None),
    }
}

/// A group with blanks after it, so many columns wide, if it has room.
fn with_blanks(alloc: Global, group: &[u8], width: usize) -> Result<Option<Vec<u8>>, AllocError>
    requires { lacks (byte "\n") group.now ≡ true }
    ensures value { IfOk result (λ made. MatchOption made
        (spec.with_blanks group.now width ≡ None)
        (λ columns. spec.with_blanks group.now width ≡ Some columns.items)) }
    ensures plain { IfOk result (λ made. IfSome made (λ columns. lacks (byte "\n") columns.items ≡ true)) }
{
    if width < group.len() {
        return Ok(None);
    }
    let mut columns = Vec::new(alloc);
    columns.extend_from_slice(group)?;
    let blanks = vec![in alloc; b' '; width - group.len()]?;
    columns.extend_from_slice(&blanks)?;
    Ok(Some(columns))
}

/// The text of a part with a stand-in for what objects, if something can stand in for it.
pub(crate) fn mended(
    alloc: Global,
    objection: Objection,
    part: Part<'_>,
) -> Result<Option<Vec<u8>>, AllocError>
    requires { part.before + part.count < 2 ^ 32 }
    ensures { IfOk result (λ made. MatchOption made
        (spec.stand_in objection ≡ None)
        (λ text. AreMended objection part.entry text.items)) }
{
    match stand_in(alloc, objection)? {
        None => Ok(None),
        Some(columns) => Ok(Some(with_columns(alloc, objection, &columns, part)?)),
    }
}

/// The text of a part with these columns in place of what objects.
fn with_columns(
    alloc: Global,
    objection: Objection,
    columns: &[u8],
    part: Part<'_>,
) -> Result<Vec<u8>, AllocError>
    requires numbers { part.before + part.count < 2 ^ 32 }
    requires line { lacks (byte "\n") columns.now ≡ true }
    ensures lines { IfOk result (λ text. lines_of text.items
        ≡ spec.mended objection columns.now (part.entry.before + 1) (lines_in part.entry)) }
    ensures fewer { IfOk result (λ text. length text.items ≤ length part.entry.text.now) }
{
    let mut text = Vec::new(alloc);
    let mut rest = part.text;
    let mut card = part.before;
    let mut left = part.count;
    while left > 0 {
        card += 1;
        match split_line(rest) {
            None => {
                push_line(&mut text, objection, columns, card, rest)?;
                return Ok(text);
            }
            Some((line, following)) => {
                push_line(&mut text, objection, columns, card, line)?;
                text.push(b'\n')?;
                rest = following;
            }
        }
        left -= 1;
    }
    Ok(text)
}

/// Adds the line of a card, with these columns in place of what objects on it.
fn push_line(
    text: &mut Vec<u8>,
    objection: Objection,
    columns: &[u8],
    card: u32,
    line: &[u8],
) -> Result<(), AllocError>
    ensures { let mended = spec.mended_line objection columns.now card line.now in
        OnOk result (text.new.items ≡ text.old.items ++ mended) }
{
    if card != objection.card {
        return text.extend_from_slice(line);
    }
    let from = objection.from.min(line.len());
    let width = columns.len().min(line.len() - from);
    text.extend_from_slice(&line[..from])?;
    text.extend_from_slice(&columns[..width])?;
    text.extend_from_slice(&line[from + width..])
}
