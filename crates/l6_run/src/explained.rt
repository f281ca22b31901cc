//! The run of a deck, with what is said of a trap.

ghost use Rattle.std.specs.Prelude.{◌≡◌, ◌≤◌, length, IfOk, IfErr};
ghost use Rattle.l6_steps.specs.Numerals.{most_input};
ghost use Rattle.l6_machine.specs.Options.{context_under, store_rule};
ghost use Rattle.l6_card.specs.Numerals.{most_deck_bytes};
ghost use Rattle.l6_device.specs.Patience.{WriterRetries};
ghost use Rattle.l6_run.specs.Explains.{Explains, RunExplains};
ghost use Rattle.l6_run.specs.Prints.{RefusesDeck};
ghost use Rattle.l6_run.specs.inner.Running.{HasNoText};
ghost use Rattle.l6_run.specs.Serves.{IsUnwritten, Serves};

use l6_asm::assemble;
use l6_device::{Part, Patience, RunFault, Sink, write_text};
use l6_machine::{Ending, Options, ending_of, into_printout, machine_under};
use l6_marks::push_explanation;
use l6_prog::Program;
use std::alloc::Global;

/// How a run has ended, and what is said of that if it was by a trap.
#[derive(Debug, Drop, PartialEq, Eq)]
pub struct Explained {
    /// How the run has ended.
    pub ending: Ending,
    /// The cards of the statement that trapped, with its action marked, and the reason; of another ending nothing.
    pub why: Vec<u8>,
}

/// Runs a deck with an input, and writes the printout. Answers how the run has ended, and what is said of a trap.
///
/// # Errors
///
/// Why the deck was not run. Nothing went out then, unless it is a `Write`.
pub fn explain_deck<W: Sink>(
    alloc: Global,
    deck: &[u8],
    input: &[u8],
    writer: &mut W,
    options: Options,
    patience: &mut Patience,
) -> Result<Explained, RunFault>
    ensures done { Serves (Explains options deck.now input.now) (RefusesDeck deck.now input.now)
        (W.taken writer.old) (W.taken writer.new) result }
    ensures unwritten { IsUnwritten result → writer.new ≡ writer.old }
    ensures retries { WriterRetries (W.health writer.old) (W.health writer.new)
        patience.old patience.new result }
{
    Part::Deck.check(deck)?;
    Part::Input.check(input)?;
    let (explained, text) = explained_run(alloc, deck, input, options)?;
    write_text(writer, text.as_slice(), 0, patience)?;
    Ok(explained)
}

/// How the run of a deck ends, and what it prints.
fn explained_run(
    alloc: Global,
    deck: &[u8],
    input: &[u8],
    options: Options,
) -> Result<(Explained, Vec<u8>), RunFault>
    requires deck { length deck.now ≤ most_deck_bytes }
    requires input { length input.now ≤ most_input }
    ensures explains { IfOk result
        (λ found. Explains options deck.now input.now found.0 found.1.items) }
    ensures refuses { IfErr result (HasNoText (RefusesDeck deck.now input.now)) }
{
    let program = assemble(alloc, deck)?.into_program();
    explained_under(alloc, deck, program, input, options)
}

/// How the run of a deck's program under these options ends, and what it prints.
fn explained_under(
    alloc: Global,
    deck: &[u8],
    program: Program,
    input: &[u8],
    options: Options,
) -> Result<(Explained, Vec<u8>), RunFault>
    requires input { length input.now ≤ most_input }
    ensures explains { IfOk result (λ found. RunExplains store_rule deck.now
        (context_under options input.now program) found.0 found.1.items) }
    ensures refuses { IfErr result (λ fault. fault ≡ RunFault.NoMemory) }
{
    let mut machine = machine_under(alloc, program, input, options)?;
    machine.run();
    let ending = ending_of(&machine);
    let mut why = Vec::new(alloc);
    push_explanation(
        &mut why,
        deck,
        machine.program(),
        machine.at(),
        machine.ending(),
    )?;
    let text = into_printout(alloc, machine)?;
    Ok((Explained { ending, why }, text))
}
