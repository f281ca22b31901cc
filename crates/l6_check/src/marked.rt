//! Which columns are marked where a word objects, or a group that nothing closes.

ghost use Rattle.std.specs.Prelude.{◌≡◌, ◌+◌, ◌≤◌, ◌<◌, ◌^◌, length, take};
ghost use Rattle.l6_card.specs.Numerals.{card_width};
ghost use Rattle.l6_check.specs.Explains.{AreColumnsOf};
ghost use Rattle.l6_check.specs.Marked as spec;
ghost use Rattle.l6_check.specs.OnCard.{IsOnCard};
ghost use Rattle.l6_check.specs.Warnings.{blanks_before};

use crate::conditions::gives_condition;
use crate::finding::Span;
use crate::label_places::body_start;
use crate::parts::spell_then;
use crate::scan::{columns_from, without_blanks};
use l6_card::Reason;
use l6_group::{are_blank, is_blank};

/// The columns that are marked where a piece of these objects for a reason of this kind. Of a group that has no
/// reading it is all of them here.
pub(crate) fn marked_columns(kind: Reason, columns: &[u8], piece: Span) -> Span
    requires on_card { IsOnCard piece }
    requires width { length columns.now ≤ card_width }
    ensures place { IsOnCard result }
    ensures marked { AreColumnsOf kind columns.now piece result }
{
    match kind {
        Reason::NoCondition | Reason::AfterExit => word_before(columns, piece),
        Reason::Unclosed => unclosed_group(columns, piece),
        Reason::NoExit => condition_or(columns, piece),
        Reason::Column
        | Reason::ContinuesNothing
        | Reason::LabelTooLong
        | Reason::LabelBarred
        | Reason::Unopened
        | Reason::NoOperation
        | Reason::TestForOperation
        | Reason::NoTest
        | Reason::OperationForTest
        | Reason::ThenMissing
        | Reason::SecondTest
        | Reason::NoThen
        | Reason::Unfinished
        | Reason::TooManyStatements
        | Reason::TooManyContinuations
        | Reason::TooManyGroups => piece,
    }
}

/// The word in front of a piece of these columns, up to a group before it; the piece itself, if there is none.
#[tactic(auto, unfolding(l6_card::specs::Numerals::card_width))]
fn word_before(columns: &[u8], piece: Span) -> Span
    requires on_card { IsOnCard piece }
    requires width { length columns.now ≤ card_width }
    ensures place { IsOnCard result }
    ensures value { result ≡ spec.word_before columns.now piece }
{
    let front = first_columns(columns, piece.from);
    let start = past_groups(front, body_start(columns));
    let word = columns_from(front, start);
    if are_blank(word) {
        return piece;
    }
    Span::on_card(start + count_blanks(word), start + count_solid(word))
}

/// The group that begins at a piece of these columns, up to the next `(`.
#[tactic(auto, unfolding(l6_card::specs::Numerals::card_width))]
fn unclosed_group(columns: &[u8], piece: Span) -> Span
    requires on_card { IsOnCard piece }
    requires width { length columns.now ≤ card_width }
    ensures place { IsOnCard result }
    ensures value { result ≡ spec.unclosed_group columns.now piece }
{
    let inside = columns_from(columns, piece.from + 1);
    let group = first_columns(inside, next_open(inside));
    Span::on_card(piece.from, piece.from + 1 + count_solid(group))
}

/// The label of these columns, if it is spelled as a condition and THEN begins the piece; else the piece.
fn condition_or(columns: &[u8], piece: Span) -> Span
    requires on_card { IsOnCard piece }
    requires width { length columns.now ≤ card_width }
    ensures place { IsOnCard result }
    ensures value { result ≡ spec.condition_or columns.now piece }
{
    if gives_condition(columns) && spell_then(columns_from(columns, piece.from)) {
        return Span::on_card(0, body_start(columns));
    }
    piece
}

/// The first columns, so many of them, or all.
fn first_columns(columns: &[u8], count: usize) -> &[u8]
    ensures value { result.now ≡ take count columns.now }
    ensures few { length result.now ≤ length columns.now }
{
    if count < columns.len() {
        &columns[..count]
    } else {
        columns
    }
}

/// How many blanks columns begin with.
fn count_blanks(columns: &[u8]) -> usize
    ensures value { result ≡ blanks_before columns.now }
    ensures few { result ≤ length columns.now }
{
    columns.len() - without_blanks(columns).len()
}

/// How many columns there are up to the last `)`, with it; or so many, if there is none.
fn past_groups(columns: &[u8], start: usize) -> usize
    requires { start + length columns.now < 2 ^ 64 }
    ensures value { result ≡ spec.past_last spec.closes start 0 columns.now }
    ensures few { result ≤ start + length columns.now }
{
    let mut rest = columns;
    let mut at = 0;
    let mut past = start;
    while let Some((column, following)) = rest.split_first() {
        at += 1;
        if *column == b')' {
            past = at;
        }
        rest = following;
    }
    past
}

/// How many columns there are up to the last that is no blank, with it.
fn count_solid(columns: &[u8]) -> usize
    ensures value { result ≡ spec.past_last spec.is_solid 0 0 columns.now }
    ensures few { result ≤ length columns.now }
{
    let mut rest = columns;
    let mut at = 0;
    let mut past = 0;
    while let Some((column, following)) = rest.split_first() {
        at += 1;
        if !is_blank(*column) {
            past = at;
        }
        rest = following;
    }
    past
}

/// How many columns there are before the first `(`.
fn next_open(columns: &[u8]) -> usize
    ensures value { result ≡ spec.next_open columns.now }
    ensures few { result ≤ length columns.now }
{
    let mut rest = columns;
    let mut count = 0;
    while let Some((column, following)) = rest.split_first() {
        if *column == b'(' {
            return count;
        }
        count += 1;
        rest = following;
    }
    count
}
