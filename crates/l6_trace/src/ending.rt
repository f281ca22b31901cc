//! The end of a trace: whether it has all the calls that it says.

ghost use Rattle.std.specs.Prelude.{◌≡◌, ◌≤◌};
ghost use Rattle.l6_trace.specs.Ending as spec;

use crate::call::{Call, Line};

/// A line `end` of a trace.
#[derive(Clone, Copy, Debug, PartialEq, Eq)]
pub struct End {
    /// Its number, from 1 on.
    pub line: u32,
    /// How many gets and frees the trace has, by this line.
    pub answers: usize,
    /// How many calls stand before it.
    pub calls: usize,
}

/// What is known of the end of a trace.
#[derive(Clone, Copy, Debug, PartialEq, Eq)]
pub enum Ending {
    /// It has no get and no free.
    Empty,
    /// It has no line `end`.
    Missing,
    /// It has as many gets and frees as that line says.
    Right,
    /// It has so many, and the line says another number.
    Wrong(usize),
    /// Calls follow the line.
    NotLast,
}

/// What is known of the end of a trace with these calls.
pub fn ending_of(lines: &[Line], end: Option<End>) -> Ending
    ensures { result ≡ spec.ending_of lines.now end }
{
    let answers = answers_in(lines);
    if answers == 0 {
        return Ending::Empty;
    }
    let Some(end) = end else {
        return Ending::Missing;
    };
    if end.calls < lines.len() {
        return Ending::NotLast;
    }
    if end.answers == answers {
        Ending::Right
    } else {
        Ending::Wrong(answers)
    }
}

/// How many findings an ending is: one, but for the right one.
pub(crate) fn ending_findings(ending: Ending) -> usize
    ensures { result ≡ spec.ending_findings ending }
{
    match ending {
        Ending::Right => 0,
        Ending::Empty | Ending::Missing | Ending::Wrong(_) | Ending::NotLast => 1,
    }
}

/// How many gets and frees these lines have.
pub fn answers_in(lines: &[Line]) -> usize
    ensures { result ≡ spec.answers_in lines.now }
{
    let mut answers = 0;
    for index in 0..lines.len() {
        answers += answers_of(lines[index].call);
    }
    answers
}

/// 1 for a call that changes the store, and so has an answer to compare; 0 for another one.
fn answers_of(call: Call) -> usize
    ensures value { result ≡ spec.answers_of call }
    ensures few { result ≤ 1 }
{
    match call {
        Call::Get { .. } | Call::Free { .. } => 1,
        Call::Lists | Call::Map | Call::Stats => 0,
    }
}
