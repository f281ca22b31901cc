//! The texts of answers.

ghost use Rattle.std.specs.Prelude.{◌≤◌};
ghost use Rattle.l6_word.specs.Numerals.{largest_level};

use crate::call::{Answer, Call, Line, Reply};
use crate::map::push_map;
use crate::tally::Tally;
use crate::tracer::Tracer;
use indexmap::IndexSet;
use itoa::Buffer;
use l6_store::{Buddy, Level, Place};
use l6_word::LARGEST_LEVEL;
use std::alloc::{AllocError, Global};

/// Adds a number.
pub(crate) fn push_number(text: &mut Vec<u8>, number: u32) -> Result<(), AllocError> {
    let mut buffer = Buffer::new();
    Ok(text.extend_from_slice(buffer.format(number).as_bytes())?)
}

/// Adds words and then a number.
pub(crate) fn push_counted(
    text: &mut Vec<u8>,
    words: &[u8],
    number: u32,
) -> Result<(), AllocError> {
    text.extend_from_slice(words)?;
    push_number(text, number)
}

/// Adds what is answered to a call: a line, or those that show what was asked for.
pub(crate) fn push_answer(
    alloc: Global,
    text: &mut Vec<u8>,
    names: &IndexSet<&[u8]>,
    line: &Line,
    answer: Answer,
    tracer: &Tracer,
    tally: &Tally,
) -> Result<(), AllocError> {
    match line.call {
        Call::Get { .. } | Call::Free { .. } => {
            push_call(text, names, line.call)?;
            push_result(text, answer)
        }
        Call::Lists => push_lists(text, tracer.store()),
        Call::Map => push_map(alloc, text, names, tracer),
        Call::Stats => push_stats(text, tracer.store(), tally),
    }
}

/// Adds a call that has an answer, and a colon.
pub(crate) fn push_call(
    text: &mut Vec<u8>,
    names: &IndexSet<&[u8]>,
    call: Call,
) -> Result<(), AllocError> {
    match call {
        Call::Get { block, words } => {
            text.extend_from_slice(b"get ")?;
            push_name(text, names, block)?;
            push_counted(text, b" ", words)?;
        }
        Call::Free { block } => {
            text.extend_from_slice(b"free ")?;
            push_name(text, names, block)?;
        }
        Call::Lists | Call::Map | Call::Stats => {}
    }
    Ok(text.extend_from_slice(b":")?)
}

/// Adds a name.
pub(crate) fn push_name(
    text: &mut Vec<u8>,
    names: &IndexSet<&[u8]>,
    block: usize,
) -> Result<(), AllocError> {
    if let Some(name) = names.get_index(block) {
        text.extend_from_slice(name)?;
    }
    Ok(())
}

/// Adds an answer, and ends the line.
pub(crate) fn push_result(text: &mut Vec<u8>, answer: Answer) -> Result<(), AllocError> {
    match answer {
        Answer::Given {
            place,
            level,
            halved,
        } => {
            push_counted(text, b" ", place)?;
            push_counted(text, b", level ", u32::from(level))?;
            push_counted(text, b", halved ", halved)?;
        }
        Answer::Refused => text.extend_from_slice(b" none")?,
        Answer::Freed { joined } => push_counted(text, b" joined ", joined)?,
        Answer::Shown => {}
    }
    Ok(text.extend_from_slice(b"\n")?)
}

/// Adds what another allocator answered, and ends the line.
pub(crate) fn push_reply(text: &mut Vec<u8>, reply: Reply) -> Result<(), AllocError> {
    match reply {
        Reply::At { place, size } => push_place(text, place, size)?,
        Reply::Between => text.extend_from_slice(b"a place between pieces")?,
        Reply::Nothing => text.extend_from_slice(b"none")?,
        Reply::Joined(joined) => push_counted(text, b"joined ", joined)?,
    }
    Ok(text.extend_from_slice(b"\n")?)
}

/// Adds a place, and the size of the block there if it was said.
fn push_place(text: &mut Vec<u8>, place: Place, size: Option<u32>) -> Result<(), AllocError> {
    push_number(text, place)?;
    match size {
        Some(size) => push_counted(text, b", words ", size),
        None => Ok(()),
    }
}

/// Adds the free lists, a line for each level that has a free piece.
pub(crate) fn push_lists(text: &mut Vec<u8>, store: &Buddy) -> Result<(), AllocError> {
    if store.largest_free_level().is_none() {
        return Ok(text.extend_from_slice(b"no free piece\n")?);
    }
    for level in 0..=LARGEST_LEVEL {
        if let Some(first) = store.first_free(level) {
            push_counted(text, b"level ", u32::from(level))?;
            text.extend_from_slice(b":")?;
            push_list(text, store, level, first)?;
        }
    }
    Ok(())
}

/// Adds the places of a list, from the first on, and ends the line.
fn push_list(
    text: &mut Vec<u8>,
    store: &Buddy,
    level: Level,
    first: Place,
) -> Result<(), AllocError>
    requires { level ≤ largest_level }
{
    let mut place = first;
    for _ in 0..store.pieces(level) {
        push_counted(text, b" ", place)?;
        match store.next_free(level, place) {
            Some(next) => place = next,
            None => break,
        }
    }
    Ok(text.extend_from_slice(b"\n")?)
}

/// Adds how much of the store is used.
fn push_stats(text: &mut Vec<u8>, store: &Buddy, tally: &Tally) -> Result<(), AllocError> {
    push_counted(text, b"words in blocks ", tally.given)?;
    push_counted(text, b", asked for ", tally.wanted)?;
    push_counted(text, b", wasted ", tally.given.saturating_sub(tally.wanted))?;
    push_counted(text, b"\nfree words ", store.free_words())?;
    for level in 0..=LARGEST_LEVEL {
        let pieces = store.pieces(level);
        if pieces != 0 {
            push_counted(text, b"\nlevel ", u32::from(level))?;
            push_counted(text, b": free pieces ", pieces)?;
        }
    }
    if let Some(level) = store.largest_free_level() {
        push_counted(text, b"\nlargest free level ", u32::from(level))?;
    }
    push_counted(text, b"\ngets refused ", tally.refused)?;
    push_counted(text, b", because of fragmentation ", tally.fragmented)?;
    Ok(text.extend_from_slice(b"\n")?)
}
