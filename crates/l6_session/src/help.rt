//! What help says of commands.

ghost use Rattle.std.specs.Prelude.{◌≡◌, ◌++◌, IfOk, OnOk, replicate};
ghost use Rattle.std.specs.Str.{byte};
ghost use Rattle.l6_session.specs.Help as spec;

use crate::command::Verb;
use crate::table::{row_of, verbs};
use l6_marks::push_blanks;
use std::alloc::{AllocError, Global};

/// In how many columns help has how a command is written.
pub(crate) const USAGE_PLACES: usize = 22;

/// In how many columns it has the first command of a line.
pub(crate) const CELL_PLACES: usize = 40;

/// What is said before the list.
const BEGIN: &[u8] = b"Commands may be abbreviated as shown. An empty line repeats the last one.\n";

/// What is said after it.
const END: &[u8] = b"PLACE is a label, the number of a statement, or : and the number of a card.\n";

/// These words, and then how a command is written and what it does.
///
/// # Errors
///
/// Memory ran out.
pub(crate) fn sentence_after(alloc: Global, words: &[u8], verb: Verb) -> Result<Vec<u8>, AllocError>
    ensures { IfOk result (λ text. text.items ≡ words.now ++ spec.sentence_text verb) }
{
    let row = row_of(verb);
    let mut text = Vec::new(alloc);
    text.extend_from_slice(words)?;
    text.extend_from_slice(row.usage())?;
    text.extend_from_slice(b": ")?;
    text.extend_from_slice(row.sentence())?;
    text.extend_from_slice(b".\n")?;
    Ok(text)
}

/// Adds the list of commands.
///
/// # Errors
///
/// Memory ran out.
pub(crate) fn push_help(text: &mut Vec<u8>) -> Result<(), AllocError>
    ensures { OnOk result (text.new.items ≡ text.old.items ++ spec.help_text) }
{
    text.extend_from_slice(BEGIN)?;
    push_listed(text, verbs())?;
    text.extend_from_slice(END)
}

/// Adds these commands, two on a line.
fn push_listed(text: &mut Vec<u8>, verbs: &[Verb]) -> Result<(), AllocError>
    ensures { OnOk result (text.new.items ≡ text.old.items ++ spec.listed verbs.now) }
{
    let mut rest = verbs;
    while let Some((one, following)) = rest.split_first() {
        let Some((other, others)) = following.split_first() else {
            text.extend_from_slice(b" ")?;
            push_cell(text, *one)?;
            return text.extend_from_slice(b"\n");
        };
        push_line(text, *one, *other)?;
        rest = others;
    }
    Ok(())
}

/// Adds a line of two commands.
fn push_line(text: &mut Vec<u8>, one: Verb, other: Verb) -> Result<(), AllocError>
    ensures { OnOk result (text.new.items ≡ text.old.items ++ spec.line_text one other) }
{
    text.extend_from_slice(b" ")?;
    push_first(text, one)?;
    push_cell(text, other)?;
    text.extend_from_slice(b"\n")
}

/// Adds the first command of a line, and blanks up to the second one.
fn push_first(text: &mut Vec<u8>, verb: Verb) -> Result<(), AllocError>
    ensures { OnOk result (text.new.items ≡ text.old.items ++ spec.first_text verb) }
{
    let begin = text.len();
    push_cell(text, verb)?;
    push_blanks(text, CELL_PLACES.saturating_sub(text.len() - begin))
}

/// Adds a command in the list.
fn push_cell(text: &mut Vec<u8>, verb: Verb) -> Result<(), AllocError>
    ensures { OnOk result (text.new.items ≡ text.old.items ++ spec.cell_text verb) }
{
    let row = row_of(verb);
    text.extend_from_slice(row.usage())?;
    push_blanks(text, USAGE_PLACES.saturating_sub(row.usage().len()))?;
    text.extend_from_slice(row.line())
}
