//! The details of a state: the cards of its statement, with the action marked, and why it has trapped.

ghost use Rattle.std.specs.Prelude.{◌≡◌, ◌++◌, OnOk};
ghost use Rattle.l6_marks.specs.Details as spec;

use crate::ahead::ahead_of;
use crate::card::push_added;
use crate::reason::push_reason;
use crate::statement::push_statement;
use l6_prog::Program;
use l6_steps::{Halt, Position};
use std::alloc::AllocError;

/// Adds the cards of the statement of a position in a deck that spells this program, with the action marked
/// there, and, if the run has ended there by a trap, why. The statement that is added to each deck has no card,
/// and that is said.
///
/// # Errors
///
/// Memory ran out.
pub fn push_details(
    text: &mut Vec<u8>,
    deck: &[u8],
    program: &Program,
    at: Position,
    ending: Option<Halt>,
) -> Result<(), AllocError>
    ensures { OnOk result (text.new.items
        ≡ text.old.items ++ spec.details_text deck.now program.now at ending) }
{
    let statement = u64::from(at.statement);
    push_statement(text, deck, statement, ahead_of(program, at))?;
    push_added(text, program.statements().len(), statement)?;
    push_why(text, ending)
}

/// Adds the details of a trap, if the run has ended by one, and otherwise nothing.
///
/// # Errors
///
/// Memory ran out.
pub fn push_explanation(
    text: &mut Vec<u8>,
    deck: &[u8],
    program: &Program,
    at: Position,
    ending: Option<Halt>,
) -> Result<(), AllocError>
    ensures { OnOk result (text.new.items
        ≡ text.old.items ++ spec.explanation deck.now program.now at ending) }
{
    match ending {
        Some(Halt::Trap(_)) => push_details(text, deck, program, at, ending),
        _ => Ok(()),
    }
}

/// Adds why a run has ended, if it was by a trap.
fn push_why(text: &mut Vec<u8>, ending: Option<Halt>) -> Result<(), AllocError>
    ensures { OnOk result (text.new.items ≡ text.old.items ++ spec.why_text ending) }
{
    match ending {
        Some(Halt::Trap(trap)) => push_reason(text, trap),
        _ => Ok(()),
    }
}
