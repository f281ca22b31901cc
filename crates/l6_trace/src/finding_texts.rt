//! The texts of findings, and of the summary of a judged trace.

use crate::call::{Call, Line, Reply};
use crate::ending::{End, Ending};
use crate::finding::Finding;
use crate::judge::Pool;
use crate::report::{Form, Past};
use crate::summary::Summary;
use crate::tally::words_of;
use crate::texts::{push_counted, push_name};
use indexmap::IndexSet;
use itoa::Buffer;
use l6_places::Hindrance;
use std::alloc::AllocError;

/// The largest level of which a text speaks.
const MOST_LEVEL: u8 = 31;

/// What a finding is about: the line, and the name that is concerned beside the line's, with its past.
#[derive(Clone, Copy, Debug)]
pub(crate) struct About<'a> {
    pub(crate) line: &'a Line,
    pub(crate) pool: Pool,
    pub(crate) concerned: Option<(usize, Past)>,
}

/// Adds a finding.
pub(crate) fn push_finding(
    text: &mut Vec<u8>,
    form: Form,
    names: &IndexSet<&[u8]>,
    about: About<'_>,
    finding: Finding,
) -> Result<(), AllocError> {
    match form {
        Form::Text => push_words(text, names, about, finding),
        Form::Json => push_object(text, about, finding),
    }
}

/// Adds a finding in words.
fn push_words(
    text: &mut Vec<u8>,
    names: &IndexSet<&[u8]>,
    about: About<'_>,
    finding: Finding,
) -> Result<(), AllocError> {
    push_counted(text, b"line ", about.line.number)?;
    text.extend_from_slice(b": ")?;
    match finding {
        Finding::Held | Finding::NotHeld => push_holding(text, names, about, finding)?,
        Finding::Unanswered => text.extend_from_slice(b"the get has no answer")?,
        Finding::TooLarge => {
            text.extend_from_slice(b"too large: no block has so many words")?;
        }
        Finding::Between => text.extend_from_slice(b"misaligned: the place is between pieces")?,
        Finding::Hindered(Hindrance::Misaligned) => {
            text.extend_from_slice(b"misaligned: the place is no multiple of the block's size")?;
        }
        Finding::Hindered(Hindrance::Outside) => {
            push_counted(text, b"outside: the places begin at ", about.pool.first)?;
            push_counted(text, b" and end before ", end_of(about.pool))?;
        }
        Finding::Hindered(Hindrance::Overlaps(place)) => push_overlap(text, names, about, place)?,
        Finding::Refused(place) => {
            push_counted(text, b"refused though place ", place)?;
            text.extend_from_slice(b" is open")?;
        }
        Finding::WrongSize(size) => push_counted(text, b"the size of the block is ", size)?,
        Finding::NotJoined(joined) => {
            push_said_joined(text, about.line.reply)?;
            push_counted(text, b", where free halves were ", joined)?;
        }
    }
    Ok(text.extend_from_slice(b"\n")?)
}

/// Adds that a name holds a block already, or none, and why.
fn push_holding(
    text: &mut Vec<u8>,
    names: &IndexSet<&[u8]>,
    about: About<'_>,
    finding: Finding,
) -> Result<(), AllocError> {
    let Some((block, past)) = about.concerned else {
        return Ok(());
    };
    push_name(text, names, block)?;
    if finding == Finding::Held {
        push_counted(text, b" holds a block already, got at line ", past.got)
    } else if past.freed == 0 {
        Ok(text.extend_from_slice(b" never held a block")?)
    } else {
        push_counted(
            text,
            b" holds no block: freed twice, first at line ",
            past.freed,
        )
    }
}

/// Adds which block a place is in.
fn push_overlap(
    text: &mut Vec<u8>,
    names: &IndexSet<&[u8]>,
    about: About<'_>,
    place: u32,
) -> Result<(), AllocError> {
    push_counted(text, b"overlaps the block at ", place)?;
    if let Some((block, past)) = about.concerned {
        text.extend_from_slice(b": ")?;
        push_name(text, names, block)?;
        push_counted(text, b", got at line ", past.got)?;
    }
    Ok(())
}

/// Adds how often another allocator joined a piece.
fn push_said_joined(text: &mut Vec<u8>, reply: Option<Reply>) -> Result<(), AllocError> {
    match reply {
        Some(Reply::Joined(joined)) => push_counted(text, b"joined ", joined),
        _ => Ok(()),
    }
}

/// The place after the last one of a pool.
fn end_of(pool: Pool) -> u32 {
    let places = pool.units.saturating_mul(words_of(pool.largest));
    pool.first.saturating_add(places)
}

/// Adds a finding as a JSON object.
fn push_object(text: &mut Vec<u8>, about: About<'_>, finding: Finding) -> Result<(), AllocError> {
    push_counted(text, b"{\"line\":", about.line.number)?;
    text.extend_from_slice(b",\"finding\":\"")?;
    text.extend_from_slice(kind_of(finding))?;
    text.extend_from_slice(b"\"")?;
    match finding {
        Finding::Hindered(Hindrance::Overlaps(place)) | Finding::Refused(place) => {
            push_counted(text, b",\"place\":", place)?;
        }
        Finding::WrongSize(size) => push_counted(text, b",\"size\":", size)?,
        Finding::NotJoined(joined) => push_counted(text, b",\"joined\":", joined)?,
        _ => {}
    }
    if let Some((_, past)) = about.concerned {
        if past.got != 0 {
            push_counted(text, b",\"got\":", past.got)?;
        }
        if past.freed != 0 {
            push_counted(text, b",\"freed\":", past.freed)?;
        }
    }
    Ok(text.extend_from_slice(b"}\n")?)
}

/// The word of a finding's kind.
fn kind_of(finding: Finding) -> &'static [u8] {
    match finding {
        Finding::Held => b"held",
        Finding::NotHeld => b"not held",
        Finding::Unanswered => b"unanswered",
        Finding::TooLarge => b"too large",
        Finding::Between | Finding::Hindered(Hindrance::Misaligned) => b"misaligned",
        Finding::Hindered(Hindrance::Outside) => b"outside",
        Finding::Hindered(Hindrance::Overlaps(_)) => b"overlaps",
        Finding::Refused(_) => b"refused",
        Finding::WrongSize(_) => b"size",
        Finding::NotJoined(_) => b"not joined",
    }
}

/// Adds what is found of the end of a trace, if anything is.
pub(crate) fn push_ending(
    text: &mut Vec<u8>,
    form: Form,
    ending: Ending,
    end: Option<End>,
) -> Result<(), AllocError> {
    match form {
        _ if ending == Ending::Right => Ok(()),
        Form::Text => push_ending_words(text, ending, end),
        Form::Json => Ok(text.extend_from_slice(b"{\"finding\":\"end\"}\n")?),
    }
}

/// Adds what is wrong with the end of a trace.
pub(crate) fn push_ending_words(
    text: &mut Vec<u8>,
    ending: Ending,
    end: Option<End>,
) -> Result<(), AllocError> {
    if let Some(end) = end {
        push_counted(text, b"line ", end.line)?;
        text.extend_from_slice(b": ")?;
    }
    match ending {
        Ending::Right => {}
        Ending::Empty => text.extend_from_slice(b"the trace has no get and no free")?,
        Ending::Missing => {
            text.extend_from_slice(b"the trace may be cut off: it has no line end")?;
        }
        Ending::Wrong(answers) => {
            text.extend_from_slice(
                b"the trace is cut off, or has lines too many: its gets and frees are ",
            )?;
            push_size(text, answers)?;
        }
        Ending::NotLast => text.extend_from_slice(b"calls follow the line end")?,
    }
    Ok(text.extend_from_slice(b"\n")?)
}

/// Adds the summary.
pub(crate) fn push_summary(
    text: &mut Vec<u8>,
    form: Form,
    summary: &Summary,
    findings: usize,
) -> Result<(), AllocError> {
    match form {
        Form::Text => push_summary_words(text, summary, findings),
        Form::Json => push_summary_object(text, summary, findings),
    }
}

/// Adds the summary in words.
fn push_summary_words(
    text: &mut Vec<u8>,
    summary: &Summary,
    findings: usize,
) -> Result<(), AllocError> {
    text.extend_from_slice(b"findings ")?;
    push_size(text, findings)?;
    push_counted(text, b"\ngets ", summary.gets)?;
    push_counted(text, b", refused ", summary.refused)?;
    if let Some(level) = summary.largest_refused {
        push_counted(text, b", the largest of level ", u32::from(level))?;
    }
    push_counted(text, b"\nfrees ", summary.frees)?;
    push_counted(text, b"\nplaces used at most ", summary.most_used)?;
    push_counted(text, b", lost to rounding at most ", summary.most_lost)?;
    if let Some((free, largest)) = summary.scattered {
        push_counted(text, b"\nat a refused get free places ", free)?;
        push_counted(text, b", in the largest piece ", largest)?;
    }
    text.extend_from_slice(b"\nlevels that were split:")?;
    push_levels(text, &summary.split, b" ", b" ")?;
    text.extend_from_slice(b"\nlevels that were joined:")?;
    push_levels(text, &summary.joined, b" ", b" ")?;
    Ok(text.extend_from_slice(b"\n")?)
}

/// Adds the levels that are marked, with these texts before the first one and between two.
fn push_levels(
    text: &mut Vec<u8>,
    levels: &[bool; 32],
    first: &[u8],
    between: &[u8],
) -> Result<(), AllocError> {
    let mut before = first;
    for level in 0..=MOST_LEVEL {
        if levels[usize::from(level)] {
            push_counted(text, before, u32::from(level))?;
            before = between;
        }
    }
    Ok(())
}

/// Adds the summary as a JSON object.
fn push_summary_object(
    text: &mut Vec<u8>,
    summary: &Summary,
    findings: usize,
) -> Result<(), AllocError> {
    text.extend_from_slice(b"{\"findings\":")?;
    push_size(text, findings)?;
    push_counted(text, b",\"gets\":", summary.gets)?;
    push_counted(text, b",\"frees\":", summary.frees)?;
    push_counted(text, b",\"refused\":", summary.refused)?;
    if let Some(level) = summary.largest_refused {
        push_counted(text, b",\"largest_refused\":", u32::from(level))?;
    }
    push_counted(text, b",\"most_used\":", summary.most_used)?;
    push_counted(text, b",\"most_lost\":", summary.most_lost)?;
    if let Some((free, largest)) = summary.scattered {
        push_counted(text, b",\"free_places\":", free)?;
        push_counted(text, b",\"largest_piece\":", largest)?;
    }
    text.extend_from_slice(b",\"split\":[")?;
    push_levels(text, &summary.split, b"", b",")?;
    text.extend_from_slice(b"],\"joined\":[")?;
    push_levels(text, &summary.joined, b"", b",")?;
    Ok(text.extend_from_slice(b"]}\n")?)
}

/// Adds a number of lines.
fn push_size(text: &mut Vec<u8>, size: usize) -> Result<(), AllocError> {
    let mut buffer = Buffer::new();
    Ok(text.extend_from_slice(buffer.format(size).as_bytes())?)
}
