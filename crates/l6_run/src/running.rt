//! The run of a deck.

ghost use Rattle.std.specs.Prelude.{◌≡◌, ◌≤◌, length, IfOk, IfErr};
ghost use Rattle.l6_steps.specs.Numerals.{most_input};
ghost use Rattle.l6_machine.specs.Options.{context_under, store_rule};
ghost use Rattle.l6_card.specs.Numerals.{most_deck_bytes};
ghost use Rattle.l6_device.specs.Patience.{WriterRetries};
ghost use Rattle.l6_run.specs.Prints.{Prints, RefusesDeck, RunPrints};
ghost use Rattle.l6_run.specs.inner.Running.{HasNoText};
ghost use Rattle.l6_run.specs.Serves.{IsUnwritten, Serves};

use l6_asm::assemble;
use l6_device::{Part, Patience, RunFault, Sink, write_text};
use l6_machine::{Ending, Options, ending_of, into_printout, machine_under};
use l6_prog::Program;
use std::alloc::Global;

/// Runs a deck with an input, and writes the printout. Answers how the run has ended.
///
/// # Errors
///
/// Why the deck was not run. Nothing went out then, unless it is a `Write`.
pub fn run_deck<W: Sink>(
    alloc: Global,
    deck: &[u8],
    input: &[u8],
    writer: &mut W,
    options: Options,
    patience: &mut Patience,
) -> Result<Ending, RunFault>
    ensures done { Serves (Prints options deck.now input.now) (RefusesDeck deck.now input.now)
        (W.taken writer.old) (W.taken writer.new) result }
    ensures unwritten { IsUnwritten result → writer.new ≡ writer.old }
    ensures retries { WriterRetries (W.health writer.old) (W.health writer.new)
        patience.old patience.new result }
{
    Part::Deck.check(deck)?;
    Part::Input.check(input)?;
    let (ending, text) = printout_of(alloc, deck, input, options)?;
    write_text(writer, text.as_slice(), 0, patience)?;
    Ok(ending)
}

/// How the run of a deck ends, and what it prints.
fn printout_of(
    alloc: Global,
    deck: &[u8],
    input: &[u8],
    options: Options,
) -> Result<(Ending, Vec<u8>), RunFault>
    requires deck { length deck.now ≤ most_deck_bytes }
    requires input { length input.now ≤ most_input }
    ensures prints { IfOk result
        (λ found. Prints options deck.now input.now found.0 found.1.items) }
    ensures refuses { IfErr result (HasNoText (RefusesDeck deck.now input.now)) }
{
    let program = assemble(alloc, deck)?.into_program();
    printout_under(alloc, program, input, options)
}

/// How the run of a program under these options ends, and what it prints.
pub(crate) fn printout_under(
    alloc: Global,
    program: Program,
    input: &[u8],
    options: Options,
) -> Result<(Ending, Vec<u8>), RunFault>
    requires input { length input.now ≤ most_input }
    ensures prints { IfOk result (λ found. RunPrints store_rule
        (context_under options input.now program) found.0 found.1.items) }
    ensures refuses { IfErr result (λ fault. fault ≡ RunFault.NoMemory) }
{
    let mut machine = machine_under(alloc, program, input, options)?;
    machine.run();
    let ending = ending_of(&machine);
    let text = into_printout(alloc, machine)?;
    Ok((ending, text))
}
