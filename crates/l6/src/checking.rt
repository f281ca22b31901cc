//! What is wrong with a deck, in words.

ghost use Rattle.std.specs.Prelude.{◌≡◌, ◌≤◌, string_bytes, length, IfOk, IfErr};
ghost use Rattle.l6_card.specs.Numerals.{most_deck_bytes};
ghost use Rattle.l6_device.specs.Patience.{WriterRetries};
ghost use Rattle.l6_run.specs.Serves.{IsUnwritten, Serves};
ghost use Rattle.l6.specs.Checks as spec;

use l6_check::{Layout, checked_text_of};
use l6_run::{Part, Patience, RunFault, Sink, write_text};
use std::alloc::Global;

/// How what is wrong with a deck is shown.
#[derive(Clone, Copy, Debug, PartialEq, Eq, Hash)]
pub struct Shown<'a> {
    /// The layout.
    pub layout: Layout,
    /// The name of the deck's file, for the beginning of each line, or nothing.
    pub name: &'a str,
}

/// Writes what is wrong with a deck, shown so, and answers how many errors it has.
///
/// # Errors
///
/// Why nothing can be said of it. Nothing went out then, unless it is a `Write`.
#[inline(never)] // so that the verbs that run programs do not share its frame
pub(crate) fn write_deck_check<W: Sink>(
    alloc: Global,
    deck: &[u8],
    shown: Shown<'_>,
    writer: &mut W,
    patience: &mut Patience,
) -> Result<u32, RunFault>
    ensures done { Serves (spec.ChecksDeck deck.now) (spec.RefusesCheck deck.now)
        (W.taken writer.old) (W.taken writer.new) result }
    ensures unwritten { IsUnwritten result → writer.new ≡ writer.old }
    ensures retries { WriterRetries (W.health writer.old) (W.health writer.new)
        patience.old patience.new result }
{
    Part::Deck.check(deck)?;
    let checked = checked_text_of(alloc, deck, shown.name, shown.layout).map_err(
        |_| RunFault::NoMemory,
    )?;
    write_text(writer, checked.text.as_bytes(), 0, patience)?;
    Ok(checked.errors)
}
