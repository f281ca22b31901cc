//! Which cards are listed, and the cards of statements.

ghost use Rattle.std.specs.Prelude.{◌≡◌, ◌<◌, ◌^◌, ◌++◌, length, OnOk, Some};
ghost use Rattle.l6_session.specs.Listing as spec;
ghost use Rattle.l6_word.specs.Lines.{lines_of};

use crate::cards::is_near;
use crate::command::{Cards, Command, View};
use crate::names::Names;
use l6_card::role_of;
use l6_marks::{begun_with, is_of, push_added, push_card};
use l6_word::first_line;
use std::alloc::AllocError;

/// How many cards follow those that were listed last, or are before them, that are listed then.
pub(crate) const LISTED_CARDS: u64 = 10;

/// What is said where no card is listed.
const NO_CARD: &[u8] = b"No card is there\n";

/// The cards that were listed last, after a command at a statement, where these were before it.
pub(crate) fn listed_after(
    deck: &[u8],
    statement: u64,
    listed: Option<Cards>,
    command: &Command,
) -> Option<Cards>
    ensures { result ≡ spec.listed_after deck.now statement listed command.now }
{
    match command {
        Command::Move(_) => None,
        Command::View(View::ListHere) => cards_here(deck, statement, listed).or(listed),
        Command::View(View::ListBefore) => cards_back(deck, statement, listed).or(listed),
        Command::View(View::ListNear(near)) => cards_near(deck, *near).or(listed),
        Command::View(View::ListCards(cards)) => Some(*cards),
        _ => listed,
    }
}

/// The cards that are listed at a statement, where these were listed last.
pub(crate) fn cards_here(deck: &[u8], statement: u64, listed: Option<Cards>) -> Option<Cards>
    ensures { result ≡ spec.cards_here deck.now statement listed }
{
    match listed {
        Some(cards) => cards_after(count_of(deck), cards),
        None => cards_near(deck, statement),
    }
}

/// The cards before those that were listed last, or before those near a statement.
pub(crate) fn cards_back(deck: &[u8], statement: u64, listed: Option<Cards>) -> Option<Cards>
    ensures { result ≡ spec.cards_back deck.now statement listed }
{
    match listed {
        Some(cards) => cards_before(cards),
        None => cards_before(cards_near(deck, statement)?),
    }
}

/// The cards that follow these in a deck of so many, if one does.
fn cards_after(count: usize, cards: Cards) -> Option<Cards>
    requires { count < 2 ^ 63 }
    ensures { result ≡ spec.cards_after count cards }
{
    if count as u64 <= cards.last {
        return None;
    }
    Some(Cards {
        first: cards.last + 1,
        last: cards.last + LISTED_CARDS,
    })
}

/// The cards before these, if one is.
fn cards_before(cards: Cards) -> Option<Cards>
    ensures { result ≡ spec.cards_before cards }
{
    if cards.first <= 1 {
        return None;
    }
    Some(Cards {
        first: cards.first.saturating_sub(LISTED_CARDS),
        last: cards.first - 1,
    })
}

/// How many cards a deck has.
fn count_of(deck: &[u8]) -> usize
    ensures count { result ≡ length (lines_of deck.now) }
    ensures bound { result < 2 ^ 63 }
{
    let mut rest = deck;
    let mut count: usize = 0;
    while let Some((_, following)) = first_line(rest) {
        count += 1;
        rest = following;
    }
    count
}

/// From which card to which one those near a statement are.
fn cards_near(deck: &[u8], statement: u64) -> Option<Cards>
    ensures { result ≡ spec.cards_near deck.now statement }
{
    let mut rest = deck;
    let mut card: usize = 0;
    let mut begun: usize = 0;
    let mut found: Option<Cards> = None;
    while let Some((line, following)) = first_line(rest) {
        card += 1;
        begun = begun_with(role_of(line), begun);
        if is_near(statement, begun as u64) {
            found = Some(extended(found, card as u64));
        }
        rest = following;
    }
    found
}

/// The cards so far, and one that follows them.
fn extended(found: Option<Cards>, card: u64) -> Cards
    ensures { Some result ≡ spec.extended found card }
{
    match found {
        Some(cards) => Cards {
            first: cards.first,
            last: card,
        },
        None => Cards {
            first: card,
            last: card,
        },
    }
}

/// Adds the lines of these cards, or that none is there.
pub(crate) fn push_listed(
    text: &mut Vec<u8>,
    deck: &[u8],
    listed: Option<Cards>,
) -> Result<(), AllocError>
    ensures { OnOk result (text.new.items ≡ text.old.items ++ spec.listed_text deck.now listed) }
{
    let Some(cards) = listed else {
        return text.extend_from_slice(NO_CARD);
    };
    push_cards_or_none(text, deck, cards)
}

/// Adds the lines of these cards, or that none is there.
fn push_cards_or_none(text: &mut Vec<u8>, deck: &[u8], cards: Cards) -> Result<(), AllocError>
    ensures { OnOk result (text.new.items
        ≡ text.old.items ++ spec.or_no_card (spec.cards_from cards 0 (lines_of deck.now))) }
{
    let begin = text.len();
    push_cards(text, deck, cards)?;
    if text.len() == begin {
        return text.extend_from_slice(NO_CARD);
    }
    Ok(())
}

/// Adds the lines of these cards.
fn push_cards(text: &mut Vec<u8>, deck: &[u8], cards: Cards) -> Result<(), AllocError>
    ensures { OnOk result (text.new.items
        ≡ text.old.items ++ spec.cards_from cards 0 (lines_of deck.now)) }
{
    let mut rest = deck;
    let mut card: usize = 0;
    while let Some((line, following)) = first_line(rest) {
        card += 1;
        if is_among(cards, card as u64) {
            push_card(text, card, line)?;
        }
        rest = following;
    }
    Ok(())
}

/// Whether a card is one of these.
fn is_among(cards: Cards, card: u64) -> bool
    ensures { result ≡ spec.is_among cards card }
{
    cards.first <= card && card <= cards.last
}

/// Adds the cards of a statement, or that it is the one that has none.
pub(crate) fn push_own(text: &mut Vec<u8>, names: &Names, statement: u64) -> Result<(), AllocError>
    ensures { OnOk result (text.new.items ≡ text.old.items ++ spec.own_text names.now statement) }
{
    push_own_cards(text, names.deck(), statement)?;
    push_added(text, names.statements(), statement)
}

/// Adds the lines of the cards of a statement.
fn push_own_cards(text: &mut Vec<u8>, deck: &[u8], statement: u64) -> Result<(), AllocError>
    ensures { OnOk result (text.new.items
        ≡ text.old.items ++ spec.own_from statement 0 0 (lines_of deck.now)) }
{
    let mut rest = deck;
    let mut card: usize = 0;
    let mut begun: usize = 0;
    while let Some((line, following)) = first_line(rest) {
        card += 1;
        let role = role_of(line);
        begun = begun_with(role, begun);
        if is_of(statement, role, begun) {
            push_card(text, card, line)?;
        }
        rest = following;
    }
    Ok(())
}
