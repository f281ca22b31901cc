//! Sessions with the run of a deck.

ghost use Rattle.std.specs.Prelude.{◌≡◌, ◌+◌, [], ◌∷◌};
ghost use Rattle.l6_steps.specs.Configuration.{first_configuration};
ghost use Rattle.l6_steps.specs.Numerals.{most_input};
ghost use Rattle.l6_card.specs.Numerals.{most_deck_bytes};
ghost use Rattle.l6_device.specs.Numerals.{most_command_bytes};
ghost use Rattle.l6_device.specs.Patience.{RetriesAccounted, WriterRetries, reader_use, writer_use};
ghost use Rattle.l6_device.specs.Transfer.{GivesAtMost, IsOfPart};
ghost use Rattle.l6_device.specs.declared.fault.Part.TheVariants.{Deck, Input, Commands};
ghost use Rattle.l6_debug.specs.Serving.{DebugsFrom, GoOut, IsRefused, ServesSession};
ghost use Rattle.l6_debug.specs.Transcript.{answers_to};

use crate::debugger::Debugger;
use crate::obeying::obey_all;
use l6_asm::assemble;
use l6_device::{Part, Patience, RunFault, Sink, Source, read_part};
use l6_machine::{Machine, Options, machine_under};
use l6_store::Places;
use std::alloc::Global;

/// Reads a deck whole, then an input whole and then commands whole, and obeys the commands with the
/// run of the deck with the input: each answer is of a state of that run, and is written before the
/// next command is obeyed.
///
/// # Errors
///
/// Why there was no session, or not all answers went out. After a `Write` the first bytes of the
/// answers went out, after `NoMemory` the first answers, each whole, and after any other fault nothing.
pub fn debug<D: Source, I: Source, C: Source, W: Sink>(
    alloc: Global,
    deck: &mut D,
    input: &mut I,
    commands: &mut C,
    writer: &mut W,
    options: Options,
) -> Result<(), RunFault>
    // What the readers gave, and what went out for it.
    ensures done { DebugsFrom options (D.left deck.old) (D.left deck.new)
        (I.left input.old) (I.left input.new) (C.left commands.old) (C.left commands.new)
        (W.taken writer.old) (W.taken writer.new) result }
    ensures refused { IsRefused result → writer.new ≡ writer.old }
    ensures unasked { IsOfPart Deck result
        → (input.new ≡ input.old) × (commands.new ≡ commands.old) }
    ensures commands_unasked { IsOfPart Input result → commands.new ≡ commands.old }
    ensures deck_at_most { GivesAtMost (most_deck_bytes + 1) (D.left deck.old) (D.left deck.new) }
    ensures input_at_most { GivesAtMost (most_input + 1) (I.left input.old) (I.left input.new) }
    ensures commands_at_most { GivesAtMost (most_command_bytes + 1)
        (C.left commands.old) (C.left commands.new) }

    // The retries of the devices are accounted for.
    ensures retries { RetriesAccounted (
        reader_use Deck (D.health deck.old) (D.health deck.new) result ∷
        reader_use Input (I.health input.old) (I.health input.new) result ∷
        reader_use Commands (C.health commands.old) (C.health commands.new) result ∷
        writer_use (W.health writer.old) (W.health writer.new) result ∷ []) }
{
    let mut patience = Patience::new();
    let cards = read_part(alloc, deck, Part::Deck, &mut patience)?;
    let lines = read_part(alloc, input, Part::Input, &mut patience)?;
    let asked = read_part(alloc, commands, Part::Commands, &mut patience)?;
    debug_deck(
        alloc,
        cards.as_slice(),
        lines.as_slice(),
        asked.as_slice(),
        writer,
        options,
        &mut patience,
    )
}

/// Obeys commands with the run of a deck with an input.
///
/// # Errors
///
/// Those of `debug`, except the readers' troubles.
pub fn debug_deck<W: Sink>(
    alloc: Global,
    deck: &[u8],
    input: &[u8],
    commands: &[u8],
    writer: &mut W,
    options: Options,
    patience: &mut Patience,
) -> Result<(), RunFault>
    ensures done { ServesSession options deck.now input.now commands.now
        (W.taken writer.old) (W.taken writer.new) result }
    ensures refused { IsRefused result → writer.new ≡ writer.old }
    ensures retries { WriterRetries (W.health writer.old) (W.health writer.new)
        patience.old patience.new result }
{
    Part::Deck.check(deck)?;
    Part::Input.check(input)?;
    Part::Commands.check(commands)?;
    let program = assemble(alloc, deck)?.into_program();
    let machine = machine_under(alloc, program, input, options)?;
    debug_run(alloc, machine, commands, writer, patience)
}

/// Obeys commands with the run of a machine. The caller owes one that is at the start.
fn debug_run<S: Places, W: Sink>(
    alloc: Global,
    machine: Machine<S>,
    commands: &[u8],
    writer: &mut W,
    patience: &mut Patience,
) -> Result<(), RunFault>
where
    S: Drop,
    requires { machine.configuration ≡ first_configuration S.rule machine.context }
    ensures answers { GoOut (answers_to S.rule machine.context commands.now) 0
        (W.taken writer.old) (W.taken writer.new) result }
    ensures retries { WriterRetries (W.health writer.old) (W.health writer.new)
        patience.old patience.new result }
{
    let mut debugger = Debugger::new(alloc, machine)?;
    obey_all(alloc, &mut debugger, commands, writer, patience)
}
