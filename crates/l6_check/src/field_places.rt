//! Where a deck uses fields first.

ghost use Rattle.std.specs.Prelude.{◌≡◌, None, get_or, is_some};
ghost use Rattle.l6_check.specs.inner.Places as spec;

use crate::columns::is_comment;
use crate::element::nth_element;
use crate::label_places::body_start;
use crate::scan::columns_from;
use l6_card::{Token, columns_of, first_item};
use l6_group::{Shape, chain_of, shapes_as_operation, shapes_as_test};
use l6_prog::NAMES;
use l6_word::{first_line, without_return};

/// Columns of a card.
#[derive(Clone, Copy, Debug)]
pub(crate) struct Place<'a> {
    /// The card's number, from 1 on.
    pub(crate) card: u32,
    /// How many columns are before it.
    pub(crate) from: usize,
    /// How many are before what follows it.
    pub(crate) to: usize,
    /// What these columns have.
    pub(crate) text: &'a [u8],
    /// The line of the card, without a return.
    pub(crate) line: &'a [u8],
}

/// The first place of each field, by the number of its name.
#[derive(Clone, Copy, Debug)]
pub(crate) struct FieldPlaces<'a> {
    places: [Option<Place<'a>>; NAMES as usize],
}

impl<'a> FieldPlaces<'a> {
    /// No places.
    pub(crate) fn none() -> Self {
        FieldPlaces {
            places: [None; NAMES as usize],
        }
    }

    /// The first place of the field of this number; if there is none, all of card 1.
    pub(crate) fn of(&self, number: u8) -> Place<'a> {
        match self.places.get(usize::from(number)) {
            Some(Some(place)) => *place,
            _ => Place {
                card: 1,
                from: 0,
                to: usize::MAX,
                text: b"",
                line: b"",
            },
        }
    }

    /// Adds the place of a chain's fields, if this is the place of a chain.
    fn add_chain(&mut self, place: Place<'a>) {
        let Some(chain) = chain_of(place.text) else {
            return;
        };
        if let Some((_, fields)) = chain.names().split_first() {
            for field in fields {
                keep_first(&mut self.places, usize::from(field.number()), place);
            }
        }
    }

    /// Adds the places of fields in a group, which has these columns between its parentheses. So many
    /// columns of the card are before them.
    fn add_group(&mut self, card: u32, line: &'a [u8], start: usize, inside: &'a [u8]) {
        let shapes = shapes_of(inside);
        for number in 0..shapes.len() {
            if may_be_chain(shapes[number]) {
                if let Some(element) = nth_element(inside, number) {
                    let from = start.saturating_add(element.start);
                    self.add_chain(Place {
                        card,
                        from,
                        to: from.saturating_add(element.text.len()),
                        text: element.text,
                        line,
                    });
                }
            }
        }
    }

    /// Adds the places of fields on a card with this line.
    fn add_card(&mut self, card: u32, line: &'a [u8]) {
        let columns = columns_of(line);
        let mut rest = columns_from(columns, body_start(columns));
        loop {
            match first_item(rest) {
                Token::End | Token::Unclosed(_) | Token::Unopened(_) => return,
                Token::Word(_, following) => rest = following,
                Token::Group(inside, following) => {
                    let end = columns.len().saturating_sub(following.len());
                    let start = end.saturating_sub(inside.len()).saturating_sub(1);
                    self.add_group(card, line, start, inside);
                    rest = following;
                }
            }
        }
    }
}

/// Keeps the place of the field of this number, unless it has an earlier one.
fn keep_first<'a>(places: &mut [Option<Place<'a>>], number: usize, place: Place<'a>)
    ensures { places.new ≡ spec.with_place places.old number place.entry }
{
    if has(places, number) {
        return;
    }
    if number < places.len() {
        places[number] = Some(place);
    }
}

/// Whether the field of this number has a place.
fn has(places: &[Option<Place<'_>>], number: usize) -> bool
    ensures { result ≡ is_some (get_or places.now number None) }
{
    match places.get(number) {
        None => false,
        Some(place) => place.is_some(),
    }
}

/// What the elements of a group have to be, as an operation or else as a test; nothing if it is spelled
/// as neither is.
fn shapes_of(inside: &[u8]) -> &'static [Shape] {
    match shapes_as_operation(inside) {
        Some(shapes) => shapes,
        None => match shapes_as_test(inside) {
            Some(shapes) => shapes,
            None => &[],
        },
    }
}

/// Whether an element of this shape may be a chain.
fn may_be_chain(shape: Shape) -> bool {
    matches!(shape, Shape::Chain | Shape::Operand | Shape::OptionalChain)
}

/// Where a deck uses each field first.
pub(crate) fn field_places(deck: &[u8]) -> FieldPlaces<'_> {
    let mut places = FieldPlaces::none();
    let mut rest = deck;
    let mut card: u32 = 0;
    while let Some((line, following)) = first_line(rest) {
        card = card.saturating_add(1);
        if !is_comment(columns_of(line)) {
            places.add_card(card, without_return(line));
        }
        rest = following;
    }
    places
}
