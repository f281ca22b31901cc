//! The reader of a deck's cards.

ghost use Rattle.std.specs.Prelude.{◌≡◌, ◌+◌, ◌-◌, ◌≤◌, [], ◌∷◌, length, Some, OnOk};
ghost use Rattle.l6_card.specs.Objection as spec;
ghost use Rattle.l6_card.specs.Objection.{count_solid, objection_in};
ghost use Rattle.l6_card.specs.Numerals.{most_deck_bytes};
ghost use Rattle.l6_card.specs.Items.{group, word};
ghost use Rattle.l6_card.specs.Card.{card_of};
ghost use Rattle.l6_card.specs.Pieces.{ends, begins, continues, label, item, items_on, pieces_of_card};
ghost use Rattle.l6_card.specs.inner.Pass.{first_stage, after_piece, after_pieces};
ghost use Rattle.l6_card.specs.inner.Token.{letters_of};
ghost use Rattle.l6_card.specs.inner.Kinds.{body_seen, EndsByOffset};
ghost use Rattle.l6_card.specs.inner.Reader.{stage_of, Follows};

use crate::builder::StatementBuilder;
use crate::card::{Body, Kind, kind_of};
use crate::cards::{DeckStatement, PlacedLabel};
use crate::fault::CardFault;
use crate::item::{Token, first_item};
use crate::limits::{MAX_CONTINUATIONS, MAX_DECK_STATEMENTS};
use crate::objection::{Objection, ReadError, Reason};
use crate::solid::{count_solid, first_solid, past_solid};
use l6_group::{MAX_LABEL_CHARACTERS, label_of};
use std::alloc::Global;
use std::mem;

/// The statements that are complete, and what is known of the one that has begun since. Once a call
/// has answered an error, nothing more is read.
#[derive(Drop)]
pub(crate) struct Reader<'a> {
    alloc: Global,
    statements: Vec<DeckStatement>,
    is_open: bool,
    label: Option<PlacedLabel>,
    builder: StatementBuilder,
    body: Body<'a>,
    continuations: usize,
}

impl<'a> Reader<'a> {
    /// A reader before the first card.
    pub(crate) fn new(alloc: Global) -> Self
        ensures { stage_of result ≡ first_stage }
    {
        Reader {
            alloc,
            statements: Vec::new(alloc),
            is_open: false,
            label: None,
            builder: StatementBuilder::new(alloc),
            body: Body {
                card: 0,
                offset: 0,
                front: b"",
                columns: b"",
            },
            continuations: 0,
        }
    }

    /// The statements that are complete, in order.
    pub(crate) fn into_statements(self) -> Vec<DeckStatement>
        ensures { result.items ≡ (stage_of self.entry).statements }
    {
        self.statements
    }

    /// Ends the statement that has begun, if one has.
    pub(crate) fn end(&mut self) -> Result<(), ReadError>
        ensures { Follows result (stage_of self.new) (after_piece (stage_of self.old) ends) }
    {
        let builder = self
            .builder
            .take(self.alloc)
            .map_err(|_| ReadError::NoMemory)?;
        let label = mem::replace(&mut self.label, None);
        if !self.is_open {
            return Ok(());
        }
        if !builder.is_whole() {
            return Err(card_objects(self.body, Reason::Unfinished));
        }
        self.is_open = false;
        self.statements
            .push(DeckStatement::new(builder.into_parts(label)))
            .map_err(|_| ReadError::NoMemory)
    }

    /// Begins a statement with the card of this body.
    fn begin(&mut self, body: Body<'a>) -> Result<(), ReadError>
        ensures taken { let pieces = ends ∷ begins (body_seen body.entry) ∷ [] in
            Follows result (stage_of self.new) (after_pieces (stage_of self.old) pieces) }
        ensures placed { OnOk result (self.new.body ≡ body.entry) }
    {
        self.end()?;
        if self.statements.len() >= MAX_DECK_STATEMENTS {
            return Err(card_objects(body, Reason::TooManyStatements));
        }
        self.is_open = true;
        self.body = body;
        self.continuations = 0;
        Ok(())
    }

    /// Goes on with the statement that has begun, which the card of this body continues.
    fn go_on(&mut self, body: Body<'a>) -> Result<(), ReadError>
        ensures taken { let piece = continues (body_seen body.entry) in
            Follows result (stage_of self.new) (after_piece (stage_of self.old) piece) }
        ensures placed { OnOk result (self.new.body ≡ body.entry) }
    {
        if !self.is_open {
            return Err(objects(body.card, 0, 1, Reason::ContinuesNothing));
        }
        if self.continuations >= MAX_CONTINUATIONS {
            return Err(objects(body.card, 0, 1, Reason::TooManyContinuations));
        }
        self.body = body;
        self.continuations += 1;
        Ok(())
    }

    /// The card gives its statement the label of these columns.
    fn take_label(&mut self, card: u32, columns: &[u8]) -> Result<(), ReadError>
        ensures taken { let piece = label card columns.now in
            Follows result (stage_of self.new) (after_piece (stage_of self.old) piece) }
        ensures stays { self.new.body ≡ self.old.body }
    {
        match label_of(columns) {
            None => Err(objects(card, 0, columns.len(), label_reason(columns))),
            Some(label) => {
                self.label = Some(PlacedLabel { label, card });
                Ok(())
            }
        }
    }

    /// The card of the body has a group, whose `(` has this offset in the deck, with these columns between
    /// its parentheses.
    fn take_group(&mut self, offset: usize, columns: &[u8]) -> Result<(), ReadError>
        requires end { offset + length columns.now + 2 ≤ most_deck_bytes }
        requires begin { length self.old.body.front.now ≤ self.old.body.offset }
        requires after { self.old.body.offset ≤ offset }
        ensures taken { let piece = item self.old.body.card (group offset columns.now) in
            Follows result (stage_of self.new) (after_piece (stage_of self.old) piece) }
        ensures stays { self.new.body ≡ self.old.body }
    {
        match self.builder.take_group(self.body.card, offset, columns) {
            Ok(()) => Ok(()),
            Err(CardFault::Form(_)) => {
                let reason = self.builder.group_reason(columns);
                Err(self.group_objects(offset, columns, reason))
            }
            Err(CardFault::Limit(_)) => {
                Err(self.group_objects(offset, columns, Reason::TooManyGroups))
            }
            Err(CardFault::NoMemory) => Err(ReadError::NoMemory),
        }
    }

    /// The card of the body has a word of the letters of these columns, the first of which has this offset
    /// in the deck.
    fn take_word(&mut self, offset: usize, columns: &[u8]) -> Result<(), ReadError>
        requires end { offset + length columns.now ≤ most_deck_bytes }
        requires begin { length self.old.body.front.now ≤ self.old.body.offset }
        requires after { self.old.body.offset ≤ offset }
        ensures taken { let past = offset + count_solid columns.now in
            let piece = item self.old.body.card (word offset past (letters_of columns.now)) in
            Follows result (stage_of self.new) (after_piece (stage_of self.old) piece) }
        ensures stays { self.new.body ≡ self.old.body }
    {
        match self.builder.take_word(self.body.card, columns) {
            Ok(()) => Ok(()),
            Err(CardFault::Form(_)) => {
                let reason = self.builder.word_reason(columns);
                Err(self.word_objects(offset, columns, reason))
            }
            Err(CardFault::Limit(_)) => {
                Err(self.word_objects(offset, columns, Reason::TooManyGroups))
            }
            Err(CardFault::NoMemory) => Err(ReadError::NoMemory),
        }
    }

    /// A group objects, whose `(` has this offset, with these columns between its parentheses.
    #[inline(never)] // so that items that are taken pay nothing for it
    fn group_objects(&self, offset: usize, columns: &[u8], reason: Reason) -> ReadError
        requires end { offset + length columns.now + 2 ≤ most_deck_bytes }
        requires begin { length self.now.body.front.now ≤ self.now.body.offset }
        requires after { self.now.body.offset ≤ offset }
        ensures { let item = group offset columns.now in
            objection_in result ≡ Some (spec.item_objects (body_seen self.now.body) item reason) }
    {
        let from = offset - self.start();
        objects(self.body.card, from, from + columns.len() + 2, reason)
    }

    /// A word of the letters of these columns objects, the first of which has this offset.
    #[inline(never)] // so that items that are taken pay nothing for it
    fn word_objects(&self, offset: usize, columns: &[u8], reason: Reason) -> ReadError
        requires end { offset + length columns.now ≤ most_deck_bytes }
        requires begin { length self.now.body.front.now ≤ self.now.body.offset }
        requires after { self.now.body.offset ≤ offset }
        ensures { let past = offset + count_solid columns.now in
            let item = word offset past (letters_of columns.now) in
            objection_in result ≡ Some (spec.item_objects (body_seen self.now.body) item reason) }
    {
        let from = offset - self.start();
        objects(self.body.card, from, from + count_solid(columns), reason)
    }

    /// How many bytes of the deck are before the card of the body.
    fn start(&self) -> usize
        requires { length self.now.body.front.now ≤ self.now.body.offset }
        ensures { result ≡ self.now.body.offset - length self.now.body.front.now }
    {
        self.body.offset - self.body.front.len()
    }

    /// The card of the body has its items.
    fn take_items(&mut self) -> Result<(), ReadError>
        requires { EndsByOffset most_deck_bytes self.old.body }
        ensures { let pieces = items_on (body_seen self.old.body) in
            Follows result (stage_of self.new) (after_pieces (stage_of self.old) pieces) }
    {
        let card = self.body.card;
        let end = self.body.offset + self.body.columns.len();
        let mut rest = self.body.columns;
        loop {
            match first_item(rest) {
                Token::End => return Ok(()),
                Token::Group(columns, following) => {
                    // A `)` is between the columns and what is left.
                    let opening = end - following.len() - columns.len() - 2;
                    self.take_group(opening, columns)?;
                    rest = following;
                }
                Token::Word(columns, following) => {
                    let opening = end - following.len() - columns.len();
                    self.take_word(opening, columns)?;
                    rest = following;
                }
                Token::Unclosed(from) => {
                    let width = end - self.start();
                    return Err(objects(card, width - from.len(), width, Reason::Unclosed));
                }
                Token::Unopened(from) => {
                    let column = end - self.start() - from.len();
                    return Err(objects(card, column, column + 1, Reason::Unopened));
                }
            }
        }
    }

    /// The card of the body has its label and its items.
    fn take_labelled(&mut self) -> Result<(), ReadError>
        requires { EndsByOffset most_deck_bytes self.old.body }
        ensures { let body = body_seen self.old.body in
            let pieces = label body.card body.front ∷ items_on body in
            Follows result (stage_of self.new) (after_pieces (stage_of self.old) pieces) }
    {
        self.take_label(self.body.card, self.body.front)?;
        self.take_items()
    }

    /// The card of this number, whose column 1 has this offset in the deck, has these columns.
    pub(crate) fn take_card(
        &mut self,
        card: u32,
        offset: usize,
        columns: &'a [u8],
    ) -> Result<(), ReadError>
        requires { offset + length columns.now ≤ most_deck_bytes }
        ensures { let pieces = pieces_of_card (card_of card offset columns.now) in
            Follows result (stage_of self.new) (after_pieces (stage_of self.old) pieces) }
    {
        match kind_of(card, offset, columns) {
            Kind::Skipped => Ok(()),
            Kind::Plain(body) => {
                self.begin(body)?;
                self.take_items()
            }
            Kind::Labelled(body) => {
                self.begin(body)?;
                self.take_labelled()
            }
            Kind::Continued(body) => {
                self.go_on(body)?;
                self.take_items()
            }
            Kind::Unknown => {
                self.end()?;
                Err(objects(card, 0, 1, Reason::Column))
            }
        }
    }
}

/// Columns of a card object: those from one on to the one before another.
#[inline(never)]
fn objects(card: u32, from: usize, to: usize, reason: Reason) -> ReadError
    ensures { objection_in result ≡ Some (spec.objects card from to reason) }
{
    ReadError::Objection(Objection {
        card,
        from,
        to,
        reason,
    })
}

/// The card of a body objects, but for the blanks at both ends.
#[inline(never)]
fn card_objects(body: Body<'_>, reason: Reason) -> ReadError
    ensures { objection_in result ≡ Some (spec.card_objects (body_seen body.entry) reason) }
{
    objects(
        body.card,
        first_solid(body.front, body.columns),
        past_solid(body.front, body.columns),
        reason,
    )
}

/// Why columns are no label.
#[inline(never)]
fn label_reason(columns: &[u8]) -> Reason
    ensures { result ≡ spec.label_reason columns.now }
{
    if columns.len() > MAX_LABEL_CHARACTERS {
        Reason::LabelTooLong
    } else {
        Reason::LabelBarred
    }
}
