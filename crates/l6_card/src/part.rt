//! Parts of a deck, each read as a deck of its own.

ghost use Rattle.std.specs.Prelude.{◌≡◌, ◌+◌, ◌≤◌, Some, None, length, take, IfOk, MatchResult, IfSome};
ghost use Rattle.l6_word.specs.Lines.{lines_of};
ghost use Rattle.l6_card.specs.Numerals.{most_deck_bytes};
ghost use Rattle.l6_card.specs.Objection.{objection_in};
ghost use Rattle.l6_card.specs.Card.{cards_from};
ghost use Rattle.l6_card.specs.Pieces.{pieces_of_cards};
ghost use Rattle.l6_card.specs.inner.Pass.{after_pieces};
ghost use Rattle.l6_card.specs.inner.Reader.{stage_of, Follows};
ghost use Rattle.l6_card.specs.ReadAlone.{objection_to_lines, LinesReadAs};

use crate::card::columns_of;
use crate::cards::Cards;
use crate::objection::ReadError;
use crate::reader::Reader;
use l6_word::first_line;
use std::alloc::Global;

/// The statements that the first cards of a text say, so many of them, read as a deck of their own.
/// So many cards are before them in their deck, in which cards are numbered from 1. The spans of
/// groups are those in the text.
///
/// # Errors
///
/// The first objection to these cards, with its columns and its reason; or out of memory.
pub fn read_part(alloc: Global, before: u32, text: &[u8], count: u32) -> Result<Cards, ReadError>
    requires { before + length text.now ≤ most_deck_bytes }
    ensures reads { let lines = take count (lines_of text.now) in
        IfOk result (λ cards. LinesReadAs (before + 1) lines cards) }
    ensures objection { let first = objection_to_lines (before + 1) (take count (lines_of text.now)) in
        MatchResult result
        (λ _. first ≡ None)
        (λ error. IfSome (objection_in error) (λ met. first ≡ Some met)) }
{
    let mut reader = Reader::new(alloc);
    take_lines(&mut reader, before, text, count)?;
    Ok(Cards::new(reader.into_statements()))
}

/// The reader takes the first cards of a text, so many of them, and the end of their last statement.
/// So many cards are before them.
fn take_lines<'a>(
    reader: &mut Reader<'a>,
    before: u32,
    text: &'a [u8],
    count: u32,
) -> Result<(), ReadError>
    requires { before + length text.now ≤ most_deck_bytes }
    ensures { let cards = cards_from (before + 1) 0 (take count (lines_of text.now)) in
        let pass = after_pieces (stage_of reader.old) (pieces_of_cards cards) in
        Follows result (stage_of reader.new) pass }
{
    let mut rest = text;
    let mut card = before;
    let mut offset = 0;
    let mut left = count;
    while left > 0 {
        match first_line(rest) {
            None => return reader.end(),
            Some((line, following)) => {
                card += 1;
                reader.take_card(card, offset, columns_of(line))?;
                // A line feed ends each line, but perhaps the last.
                offset += line.len() + 1;
                rest = following;
                left -= 1;
            }
        }
    }
    reader.end()
}
