//! Cards: what a line of a deck is, by its column 1.

ghost use Rattle.std.specs.Prelude.{◌≡◌, ◌+◌, ◌≤◌, ◌++◌, length, take};
ghost use Rattle.l6_group.specs.Character as spec;
ghost use Rattle.l6_card.specs.Card.{card_of, columns_of, run_of, following_run};
ghost use Rattle.l6_card.specs.Numerals.{card_width, most_deck_bytes};
ghost use Rattle.l6_card.specs.inner.Kinds.{card_seen, KindEndsBy};

use crate::limits::CARD_WIDTH;
use l6_group::{are_blank, is_blank, is_letter};
use l6_word::without_return;

/// What is on a card after its column 1 or its label.
#[derive(Clone, Copy)]
pub(crate) struct Body<'a> {
    /// The card's number, from 1 on.
    pub(crate) card: u32,
    /// How many bytes of the deck are before the first column.
    pub(crate) offset: usize,
    /// What is in front of the columns: column 1, or the label.
    pub(crate) front: &'a [u8],
    /// The columns.
    pub(crate) columns: &'a [u8],
}

/// What a card is.
pub(crate) enum Kind<'a> {
    /// A comment, or blank: it says nothing.
    Skipped,
    /// A statement without a label, with this body.
    Plain(Body<'a>),
    /// A statement with this body, and what is in front of it as its label.
    Labelled(Body<'a>),
    /// It continues the latest statement with this body.
    Continued(Body<'a>),
    /// A card with a column 1 that is not allowed.
    Unknown,
}

/// The columns of a line that count: the first 72, once a carriage return at the line's end is off.
#[tactic(auto, unfolding(crate::specs::Numerals::card_width))]
pub fn columns_of(line: &[u8]) -> &[u8]
    ensures value { result.now ≡ columns_of line.now }
    ensures count { length result.now ≤ card_width }
{
    first_bytes(without_return(line), CARD_WIDTH)
}

/// So many bytes of a line, from its front.
fn first_bytes(line: &[u8], count: usize) -> &[u8]
    ensures value { result.now ≡ take count line.now }
    ensures count { length result.now ≤ count }
{
    if line.len() > count {
        &line[..count]
    } else {
        line
    }
}

/// What the card with this number is, whose column 1 has this offset in the deck, and which has
/// these columns.
pub(crate) fn kind_of(card: u32, offset: usize, columns: &[u8]) -> Kind<'_>
    requires { offset + length columns.now ≤ most_deck_bytes }
    ensures kind { card_seen card result ≡ card_of card offset columns.now }
    ensures ends { KindEndsBy (offset + length columns.now) result }
{
    match columns.split_first() {
        None => Kind::Skipped,
        Some((column, following)) => {
            let body = Body {
                card,
                offset: offset + 1,
                front: &columns[..1],
                columns: following,
            };
            if *column == b'*' || are_blank(columns) {
                Kind::Skipped
            } else if is_blank(*column) {
                Kind::Plain(body)
            } else if *column == b'+' {
                Kind::Continued(body)
            } else if is_letter(*column) {
                let (label, following) = split_label(columns);
                Kind::Labelled(Body {
                    card,
                    offset: offset + label.len(),
                    front: label,
                    columns: following,
                })
            } else {
                Kind::Unknown
            }
        }
    }
}

/// The longest run of letters and digits that columns begin with, and what follows it.
pub fn split_label(columns: &[u8]) -> (&[u8], &[u8])
    ensures label { result.0.now ≡ run_of columns.now }
    ensures body { result.1.now ≡ following_run columns.now }
    ensures whole { columns.now ≡ result.0.now ++ result.1.now }
{
    for (place, column) in columns.iter().enumerate() {
        if !is_alphanumeric(*column) {
            return (&columns[..place], &columns[place..]);
        }
    }
    (columns, &columns[columns.len()..])
}

/// Whether a byte is read as a letter or a digit.
fn is_alphanumeric(byte: u8) -> bool
    ensures { result ≡ spec.is_letter_or_digit byte }
{
    matches!(byte, b'A'..=b'Z' | b'a'..=b'z' | b'0'..=b'9')
}
