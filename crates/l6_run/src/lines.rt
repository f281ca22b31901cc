//! Writing the lines of an image or of a listing, some at a time.

ghost use Rattle.std.specs.Prelude.{◌≡◌, ◌*◌, ◌≤◌, vec_capacity, true, length, min, OnOk, IfOk, IfErr};
ghost use Rattle.std.specs.Io.KnownBytes.{Appends};
ghost use Rattle.std.specs.List.{list_all};
ghost use Rattle.l6_word.specs.Word.{is_word};
ghost use Rattle.l6_image.specs.Text.{text_of_words};
ghost use Rattle.l6_device.specs.Numerals.{most_counted};
ghost use Rattle.l6_device.specs.Patience.{WriterRetries};
ghost use Rattle.l6_device.specs.Transfer.{EndsWriting};

use l6_asm::{CardLines, MAX_LINE_BYTES};
use l6_device::{Patience, RunFault, Sink, write_text};
use l6_image::{LINE_BYTES, push_lines};
use std::alloc::{AllocError, Global};

/// The most lines that are made at once.
const LINES_AT_ONCE: usize = 1024;

/// A list with room for the lines that are made at once.
pub(crate) fn room_for_lines(alloc: Global) -> Result<Vec<u8>, AllocError>
    ensures words { IfOk result (λ lines. LINES_AT_ONCE * LINE_BYTES ≤ vec_capacity lines) }
    ensures cards { IfOk result (λ lines. MAX_LINE_BYTES ≤ vec_capacity lines) }
{
    Vec::with_capacity(alloc, LINES_AT_ONCE * LINE_BYTES)
}

/// Writes the text of an image that has these words. The caller owes that each is below 2^36, and a
/// list with room for the lines that are made at once.
///
/// # Errors
///
/// `Write` if the writer has failed or was interrupted when no retry was left, with how many bytes
/// went out.
// Memory that is touched for the first time takes longer than the digits, so the lines of all words
// are never there at once. Nothing is allocated here, since some of them may have gone out.
pub(crate) fn write_words<W: Sink>(
    writer: &mut W,
    words: &[u64],
    lines: &mut Vec<u8>,
    patience: &mut Patience,
) -> Result<(), RunFault>
    requires known { list_all is_word words.now ≡ true }
    requires room { LINES_AT_ONCE * LINE_BYTES ≤ vec_capacity lines.old }
    ensures ok { OnOk result
        (Appends (W.taken writer.old) (W.taken writer.new) (text_of_words words.now)) }
    ensures err { IfErr result
        (EndsWriting (text_of_words words.now) 0 (W.taken writer.old) (W.taken writer.new)) }
    ensures retries { WriterRetries (W.health writer.old) (W.health writer.new)
        patience.old patience.new result }
{
    let mut rest = words;
    let mut before = 0;
    while !rest.is_empty() {
        let (first, later) = rest.split_at(rest.len().min(LINES_AT_ONCE));
        lines.clear();
        push_lines(lines, first).unwrap();
        write_text(writer, lines.as_slice(), before, patience)?;
        before = before.saturating_add(lines.len() as u64);
        rest = later;
    }
    Ok(())
}

/// Writes the lines of a deck's cards, and answers how many bytes that was. The caller owes a list
/// with room for a line.
///
/// # Errors
///
/// `Write` if the writer has failed or was interrupted when no retry was left, with how many bytes
/// went out.
// Nothing is allocated here either.
pub(crate) fn write_card_lines<W: Sink>(
    writer: &mut W,
    cards: CardLines<'_>,
    lines: &mut Vec<u8>,
    patience: &mut Patience,
) -> Result<u64, RunFault>
    requires room { MAX_LINE_BYTES ≤ vec_capacity lines.old }
    ensures ok { OnOk result
        (Appends (W.taken writer.old) (W.taken writer.new) cards.entry) }
    ensures count { IfOk result (λ count. count ≡ min (length cards.entry) most_counted) }
    ensures err { IfErr result
        (EndsWriting cards.entry 0 (W.taken writer.old) (W.taken writer.new)) }
    ensures retries { WriterRetries (W.health writer.old) (W.health writer.new)
        patience.old patience.new result }
{
    let mut cards = cards;
    let mut sent = 0;
    let mut is_over = false;
    while !is_over {
        lines.clear();
        is_over = !cards.fill(lines);
        write_text(writer, lines.as_slice(), sent, patience)?;
        sent = sent.saturating_add(lines.len() as u64);
    }
    Ok(sent)
}
