//! The first lines of drawings.

ghost use Rattle.std.specs.Prelude.{◌≡◌, ◌++◌, OnOk};
ghost use Rattle.l6_session.specs.Drawn as spec;
ghost use Rattle.l6_word.specs.Lines.{lines_of};

use crate::blocks::push_drawing;
use l6_machine::{Machine, push_decimal};
use l6_store::Places;
use l6_word::first_line;
use std::alloc::{AllocError, Global};

/// How many lines of a drawing are shown.
const MOST_DRAWN: usize = 40;

/// Adds the first lines of the drawing of what is reached, and how many more there are.
pub(crate) fn push_some_drawn<S: Places>(
    alloc: Global,
    text: &mut Vec<u8>,
    machine: &Machine<S>,
) -> Result<(), AllocError>
    ensures { OnOk result (text.new.items ≡ text.old.items ++ spec.some_drawn
        machine.now.context.parameters.units machine.now.configuration.state.memory) }
{
    let mut drawing = Vec::new(alloc);
    push_drawing(alloc, &mut drawing, machine)?;
    push_first(text, drawing.as_slice())
}

/// Adds the first lines of a text, and how many more there are.
fn push_first(text: &mut Vec<u8>, whole: &[u8]) -> Result<(), AllocError>
    ensures { OnOk result (text.new.items
        ≡ text.old.items ++ spec.drawn_from 0 (lines_of whole.now)) }
{
    let mut rest = whole;
    let mut count: usize = 0;
    while let Some((line, following)) = first_line(rest) {
        push_line(text, count, line)?;
        count += 1;
        rest = following;
    }
    push_further(text, count.saturating_sub(MOST_DRAWN))
}

/// Adds a line, if fewer came before it than are shown.
fn push_line(text: &mut Vec<u8>, count: usize, line: &[u8]) -> Result<(), AllocError>
    ensures { OnOk result (text.new.items ≡ text.old.items ++ spec.drawn_line count line.now) }
{
    if MOST_DRAWN <= count {
        return Ok(());
    }
    text.extend_from_slice(line)?;
    text.extend_from_slice(b"\n")
}

/// Adds how many more lines there are, if any.
fn push_further(text: &mut Vec<u8>, further: usize) -> Result<(), AllocError>
    ensures { OnOk result (text.new.items ≡ text.old.items ++ spec.further_drawn further) }
{
    if further == 0 {
        return Ok(());
    }
    push_more(text, further)
}

/// Adds that there are so many more lines.
fn push_more(text: &mut Vec<u8>, further: usize) -> Result<(), AllocError>
    ensures { OnOk result (text.new.items ≡ text.old.items ++ spec.more_drawn further) }
{
    text.extend_from_slice(b"and ")?;
    push_decimal(text, further)?;
    text.extend_from_slice(b" more lines: draw all shows them\n")
}
