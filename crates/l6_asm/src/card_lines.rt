//! The lines of a deck's cards, one after another.

ghost use Rattle.std.specs.Prelude.{◌≡◌, ◌+◌, ◌<◌, ◌≤◌, ◌++◌, List, [], true, false, length, map, vec_capacity, IsOk, IfOk, OnOk};
ghost use Rattle.l6_prog.specs.Statement.{Parts};
ghost use Rattle.l6_image.specs.Image.{statement_words};
ghost use Rattle.l6_word.specs.Lines.{lines_of};
ghost use Rattle.l6_asm.specs.Listing as spec;

use crate::line::{MAX_LINE_BYTES, push_card, push_word};
use crate::statement_words::StatementWords;
use l6_card::{Role, columns_of, role_of};
use l6_word::{Word, first_line};
use std::alloc::AllocError;
use std::marker::Model;

/// The lines of a deck that are not listed yet: one for each card, and those of the words of each
/// statement after its last card. A contract sees their text.
#[derive(Drop)]
pub struct CardLines<'a> {
    /// The cards that are not listed.
    cards: &'a [u8],
    /// How many cards are listed.
    card: usize,
    /// The words of the statements that are not complete.
    statements: &'a [Vec<u64>],
    /// How many statements are complete.
    over: usize,
    /// The words that are not listed of the statement that was complete last.
    words: &'a [u64],
}

impl<'a> Model for CardLines<'a> {
    ghost use Rattle.std.specs.Prelude.{◌≡◌, ◌+◌, ◌≤◌, ℕ, List, true, length, map};
    ghost use Rattle.std.specs.List.{list_all};
    ghost use Rattle.l6_word.specs.Lines.{lines_of};
    ghost use Rattle.l6_word.specs.Word.{is_word};
    ghost use Rattle.l6_asm.specs.inner.CardsLeft.{most_cards, text_left, are_words};

    ghost Value = { List ℕ };

    ghost view = { λ lines. text_left lines.words.now (map (λ v. v.items) lines.statements.now)
        lines.card lines.over (lines_of lines.cards.now) };

    ghost invariant = { λ lines. (list_all is_word lines.words.now ≡ true)
        × (list_all are_words (map (λ v. v.items) lines.statements.now) ≡ true)
        × (lines.card + length lines.cards.now ≤ most_cards) × (lines.over ≤ lines.card) };
}

impl<'a> CardLines<'a> {
    /// The lines of a deck, with the words of its program's statements.
    pub fn new(deck: &'a [u8], words: &'a StatementWords) -> Self
        ensures { (program : List Parts) → words.now ≡ map statement_words program →
            result ≡ spec.cards_listed program 1 0 (lines_of deck.now) }
    {
        CardLines {
            cards: deck,
            card: 0,
            statements: words.as_slice(),
            over: 0,
            words: &[],
        }
    }

    /// Adds the next line to a text; false if there is none.
    ///
    /// # Errors
    ///
    /// Memory ran out, which it can't if there is room for a line, `MAX_LINE_BYTES`.
    pub fn add_line(&mut self, text: &mut Vec<u8>) -> Result<bool, AllocError>
        ensures line { OnOk result (text.old.items ++ self.old ≡ text.new.items ++ self.new) }
        ensures fewer { IfOk result (λ more. more ≡ true → length self.new < length self.old) }
        ensures over { IfOk result (λ more. more ≡ false → self.new ≡ []) }
        ensures capacity { vec_capacity text.old ≤ vec_capacity text.new }
        ensures succeeds { length text.old.items + MAX_LINE_BYTES ≤ vec_capacity text.old
            → IsOk result }
    {
        if let Some((word, following)) = self.words.split_first() {
            push_word(text, Word::from_value(*word))?;
            self.words = following;
            return Ok(true);
        }
        let Some((line, following)) = first_line(self.cards) else {
            return Ok(false);
        };
        let role = role_of(line);
        let number = number_on(role, self.over);
        push_card(text, Some(self.card + 1), number, columns_of(line))?;
        self.card += 1;
        self.cards = following;
        if is_last(role, following) {
            self.over += 1;
            if let Some((words, others)) = self.statements.split_first() {
                self.words = words;
                self.statements = others;
            }
        }
        Ok(true)
    }

    /// Adds lines to a text while there is room for one more; false once there is none left. The
    /// caller owes room for one.
    pub fn fill(&mut self, text: &mut Vec<u8>) -> bool
        requires room { length text.old.items + MAX_LINE_BYTES ≤ vec_capacity text.old }
        ensures lines { text.old.items ++ self.old ≡ text.new.items ++ self.new }
        ensures fewer { result ≡ true → length self.new < length self.old }
        ensures over { result ≡ false → self.new ≡ [] }
        ensures capacity { vec_capacity text.old ≤ vec_capacity text.new }
    {
        loop {
            if !self.add_line(text).unwrap() {
                return false;
            }
            if text.capacity() - text.len() < MAX_LINE_BYTES {
                return true;
            }
        }
    }
}

/// The number of the statement that begins on a card, which shows it.
fn number_on(role: Role, number: usize) -> Option<usize>
    ensures { result ≡ spec.number_on role number }
{
    match role {
        Role::First => Some(number),
        _ => None,
    }
}

/// Whether a card is the last of its statement, with this text after it.
fn is_last(role: Role, following: &[u8]) -> bool
    ensures { result ≡ spec.is_last role (spec.goes_on (lines_of following.now)) }
{
    match role {
        Role::First | Role::Further => !goes_on(following),
        _ => false,
    }
}

/// Whether a statement goes on in a text: the first of its cards that is not skipped continues it.
fn goes_on(text: &[u8]) -> bool
    ensures { result ≡ spec.goes_on (lines_of text.now) }
{
    let mut rest = text;
    while let Some((line, following)) = first_line(rest) {
        match role_of(line) {
            Role::Skipped => rest = following,
            Role::Further => return true,
            _ => return false,
        }
    }
    false
}
