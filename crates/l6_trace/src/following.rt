//! The calls of a trace, one after another, until an answer differs from another allocator's.

ghost use Rattle.std.specs.Prelude.{◌≡◌, ◌==◌, ◌^◌};
ghost use Rattle.l6_trace.specs.Following as spec;
ghost use Rattle.l6_trace.specs.Following.{IsFollowed};

use crate::call::{Answer, Call, Line, Reply};
use crate::fault::TraceFault;
use crate::tally::Tally;
use crate::texts::push_answer;
use crate::tracer::Tracer;
use indexmap::IndexSet;
use l6_store::{Level, Places};
use l6_word::Word;
use std::alloc::Global;

/// The first line of a trace at which another allocator answered otherwise.
#[derive(Clone, Copy, Debug, PartialEq, Eq)]
pub struct Difference {
    /// Which of the lines it is, from 0 on.
    pub index: usize,
    /// What the store answers.
    pub answer: Answer,
}

/// Does the calls of a trace, one after another, and adds what is answered to each to a text; until an
/// answer differs from what another allocator answered.
///
/// # Errors
///
/// Memory ran out; or `Held`, with the line of the first call that the trace may not make.
pub fn follow(
    alloc: Global,
    tracer: &mut Tracer,
    lines: &[Line],
    names: &IndexSet<&[u8]>,
    tally: &mut Tally,
    text: &mut Vec<u8>,
) -> Result<Option<Difference>, TraceFault>
    // Each answer is the one that the rule has, and the first that differs is reported.
    ensures followed { IsFollowed tracer.old lines.now result }
{
    for index in 0..lines.len() {
        let line = lines[index];
        let freed = level_freed(tracer, line.call);
        let Some(answer) = tracer.answer(line.call) else {
            return Err(TraceFault::Held(line.number));
        };
        if !agrees(answer, line.reply) {
            return Ok(Some(Difference { index, answer }));
        }
        tally.count(&line, answer, freed);
        push_answer(alloc, text, names, &line, answer, tracer, tally)?;
    }
    Ok(None)
}

/// The level of the block that a call frees, if it frees one.
fn level_freed(tracer: &Tracer, call: Call) -> Option<Level> {
    match call {
        Call::Free { block } => tracer.store().live(Word::from(tracer.holder(block)?)),
        Call::Get { .. } | Call::Lists | Call::Map | Call::Stats => None,
    }
}

/// Whether another allocator gave this answer, or its answer is not known.
fn agrees(answer: Answer, reply: Option<Reply>) -> bool
    ensures { result ≡ spec.agrees answer reply }
{
    match (answer, reply) {
        (_, None) => true,
        (Answer::Given { place, level, .. }, Some(Reply::At { place: other, size })) => {
            place == other && is_size(level, size)
        }
        (Answer::Refused, Some(Reply::Nothing)) => true,
        (Answer::Freed { joined }, Some(Reply::Joined(other))) => joined == other,
        _ => false,
    }
}

/// Whether a block of a level has this size, or the size is not known.
fn is_size(level: Level, size: Option<u32>) -> bool
    ensures { result ≡ spec.is_size level size }
{
    match size {
        Some(size) => has_size(level, size),
        None => true,
    }
}

/// Whether a block of a level has this size.
fn has_size(level: Level, size: u32) -> bool
    ensures { result ≡ (size == 2 ^ level) }
{
    level < 32 && size == 1 << level
}
