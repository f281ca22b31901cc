//! Traces as text, and the answers to them.

ghost use Rattle.std.specs.Prelude.{◌≡◌, ◌+◌, ◌≤◌, length, take, IfErr, IfOk, OnOk};
ghost use Rattle.l6_trace.specs.Following.{Replays};
ghost use Rattle.l6_trace.specs.Limits.{IsPastLimit};
ghost use Rattle.l6_trace.specs.Tracing.{empty};

use crate::call::{Call, Line};
use crate::ending::{End, Ending, ending_of};
use crate::fault::TraceFault;
use crate::finding_texts::push_ending_words;
use crate::following::{Difference, follow};
use crate::judge::Pool;
use crate::judging::{Judgement, judge_trace};
use crate::line::{Asked, asked_by};
use crate::pieces::{in_pieces, pieces_for};
use crate::report::Form;
use crate::tally::Tally;
use crate::texts::{push_call, push_counted, push_lists, push_reply, push_result};
use crate::tracer::Tracer;
use indexmap::IndexSet;
use l6_store::StoreFault;
use l6_word::{UNIT_SIZE, first_line};
use std::alloc::{AllocError, Global};

/// The most calls that a trace may have.
pub const MAX_CALLS: usize = 1_000_000;

/// A trace: its calls, the names of its blocks, each once, and its line `end`.
#[derive(Drop)]
struct Trace<'a> {
    lines: Vec<Line>,
    names: IndexSet<&'a [u8]>,
    end: Option<End>,
}

/// What is answered to a trace.
#[derive(Debug, Drop)]
pub struct Answers {
    /// The text of the answers, to the end or to the first difference, which it reports.
    pub text: Vec<u8>,
    /// What is to be said beside them: why not all of another allocator's answers may have been compared.
    pub notes: Vec<u8>,
    /// Whether an answer differs from another allocator's, a name may not make its call, or calls are missing.
    pub fails: bool,
}

/// What is answered to the trace of a text by an empty store of so many units, 1 to 255.
///
/// # Errors
///
/// Why the trace has no answers.
pub fn answers_to(alloc: Global, units: u32, text: &[u8]) -> Result<Answers, TraceFault>
    ensures too_many { IfErr result IsPastLimit }
{
    let trace = read_trace(alloc, text, 1)?;
    let lines = trace.lines.as_slice();
    let names = trace.names.len();
    let mut tracer = Tracer::new(alloc, units, names)?;
    let mut tally = Tally::new(alloc, units.saturating_mul(u32::from(UNIT_SIZE)), names)?;
    let mut answers = Vec::new(alloc);
    let followed = follow(
        alloc,
        &mut tracer,
        lines,
        &trace.names,
        &mut tally,
        &mut answers,
    );
    let fails = match followed {
        Ok(None) => false,
        Ok(Some(difference)) => {
            let before = replayed(alloc, units, names, lines, difference.index)?;
            push_difference(&mut answers, &trace, difference, &before)?;
            true
        }
        Err(TraceFault::Held(number)) => {
            push_counted(&mut answers, b"line ", number)?;
            answers.extend_from_slice(b": the name holds a block already, or none\n")?;
            true
        }
        Err(fault) => return Err(fault),
    };
    let mut notes = Vec::new(alloc);
    let is_short = push_notes(&mut notes, &trace, is_cut(text))?;
    Ok(Answers {
        text: answers,
        notes,
        fails: fails || is_short,
    })
}

/// What is found of the trace of a text whose answers are judged, whatever the allocator's rule of choice. Its words and
/// places are in bytes if its smallest piece has more than one; a piece of 0 bytes counts as one of 1.
///
/// # Errors
///
/// Why it can't be judged.
pub fn judgement_of(
    alloc: Global,
    pool: Pool,
    piece: u32,
    form: Form,
    text: &[u8],
) -> Result<Judgement, TraceFault>
    ensures too_many { IfErr result IsPastLimit }
{
    let trace = read_trace(alloc, text, piece)?;
    judge_trace(
        alloc,
        pool,
        form,
        trace.lines.as_slice(),
        &trace.names,
        trace.end,
    )
}

/// Adds why not all answers of another allocator may have been compared. Says whether calls are missing, or nothing
/// was compared though the trace says where it ends.
fn push_notes(notes: &mut Vec<u8>, trace: &Trace<'_>, is_cut: bool) -> Result<bool, AllocError> {
    let lines = trace.lines.as_slice();
    let is_compared = lines.iter().any(|line| line.reply.is_some());
    let ending = ending_of(lines, trace.end);
    if is_cut && is_compared {
        notes.extend_from_slice(b"the last line has no line feed: it may be cut off\n")?;
    }
    match ending {
        Ending::Empty if !lines.is_empty() && trace.end.is_none() => Ok(false),
        Ending::Missing if !is_compared => Ok(false),
        Ending::Missing => {
            push_ending_words(notes, ending, trace.end)?;
            Ok(false)
        }
        Ending::Right if is_compared => Ok(false),
        Ending::Right => {
            notes.extend_from_slice(b"no answer was compared\n")?;
            Ok(true)
        }
        Ending::Empty | Ending::Wrong(_) | Ending::NotLast => {
            push_ending_words(notes, ending, trace.end)?;
            Ok(true)
        }
    }
}

/// Whether a text ends within a line.
fn is_cut(text: &[u8]) -> bool {
    text.last().is_some_and(|byte| *byte != b'\n')
}

/// The store before a line, from an empty one on.
fn replayed(
    alloc: Global,
    units: u32,
    names: usize,
    lines: &[Line],
    count: usize,
) -> Result<Tracer, StoreFault>
    requires { count ≤ length lines.now }
    ensures { IfOk result (λ tracer. Replays (empty units names) (take count lines.now) tracer) }
{
    let mut tracer = Tracer::new(alloc, units, names)?;
    for index in 0..count {
        tracer.answer(lines[index].call);
    }
    Ok(tracer)
}

/// Adds the report of a difference: the line, both answers, and the free lists before it.
fn push_difference(
    text: &mut Vec<u8>,
    trace: &Trace<'_>,
    difference: Difference,
    before: &Tracer,
) -> Result<(), AllocError> {
    if let Some(line) = trace.lines.get(difference.index) {
        push_counted(text, b"line ", line.number)?;
        text.extend_from_slice(b" differs: ")?;
        push_call(text, &trace.names, line.call)?;
        push_result(text, difference.answer)?;
        if let Some(reply) = line.reply {
            text.extend_from_slice(b"the other allocator: ")?;
            push_reply(text, reply)?;
        }
    }
    text.extend_from_slice(b"the free lists before it:\n")?;
    push_lists(text, before.store())
}

/// The calls of a text.
fn read_trace(alloc: Global, text: &[u8], piece: u32) -> Result<Trace<'_>, TraceFault>
    ensures { IfErr result IsPastLimit }
{
    let mut lines = Vec::new(alloc);
    let mut names = IndexSet::new(alloc);
    let mut end = None;
    let mut number: u32 = 0;
    let mut rest = text;
    while let Some((line, following)) = first_line(rest) {
        number = number.saturating_add(1);
        let Some(asked) = asked_by(line) else {
            return Err(no_call(number, is_cut(rest) && following.is_empty()));
        };
        if let Asked::End { answers } = asked {
            end = end.or(Some(End {
                line: number,
                answers,
                calls: lines.len(),
            }));
        }
        if let Some(line) = numbered(&mut names, number, asked, piece)? {
            if lines.len() >= MAX_CALLS {
                return Err(TraceFault::TooMany(number));
            }
            push_line(&mut lines, line)?;
        }
        rest = following;
    }
    Ok(Trace { lines, names, end })
}

/// The fault of a line that is no call.
fn no_call(number: u32, is_cut: bool) -> TraceFault
    ensures { IsPastLimit result }
{
    if is_cut {
        TraceFault::CutOff(number)
    } else {
        TraceFault::NotACall(number)
    }
}

/// Adds a call.
fn push_line(lines: &mut Vec<Line>, line: Line) -> Result<(), AllocError>
    ensures { OnOk result (length lines.new.items ≡ length lines.old.items + 1) }
{
    Ok(lines.push(line)?)
}

/// The call that is asked for on a line, if one is, its words and places in pieces of so many of theirs. A new name gets
/// the next number.
fn numbered<'a>(
    names: &mut IndexSet<&'a [u8]>,
    number: u32,
    asked: Asked<'a>,
    piece: u32,
) -> Result<Option<Line>, AllocError> {
    let (call, reply) = match asked {
        Asked::Nothing | Asked::End { .. } => return Ok(None),
        Asked::Get { name, words, reply } => {
            let (block, _) = names.insert_full(name)?;
            let words = pieces_for(words, piece);
            (
                Call::Get { block, words },
                reply.map(|reply| in_pieces(reply, piece)),
            )
        }
        Asked::Free { name, reply } => {
            let (block, _) = names.insert_full(name)?;
            (Call::Free { block }, reply)
        }
        Asked::Lists => (Call::Lists, None),
        Asked::Map => (Call::Map, None),
        Asked::Stats => (Call::Stats, None),
    };
    Ok(Some(Line {
        number,
        call,
        reply,
    }))
}
