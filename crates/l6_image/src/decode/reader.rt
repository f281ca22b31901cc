//! Rows, read from words. What follows them is handed on.

ghost use Rattle.l6_image.specs.inner.Heads.{kind_code};
ghost use Rattle.l6_image.specs.inner.decode.Reading as spec;
ghost use Rattle.l6_image.specs.inner.decode.Seen.{slot_seen, Finds};

use crate::encode::items::ITEMS_PER_WORD;
use crate::head::{Head, OperandKind};
use crate::version::Version;
use l6_prog::{MAX_CHARACTERS, Name};
use std::marker::Model;

/// An operand, as it is in words.
#[derive(Clone, Copy)]
pub(crate) enum Slot<'a> {
    /// There is none.
    Absent,
    /// The word of a chain's names.
    Chain(u64),
    /// A number.
    Number(u64),
    /// How many codes a text has, and their words.
    Text(usize, &'a [u64]),
}

/// A test or an operation, as it is in words.
#[derive(Drop)]
pub(crate) struct Row<'a> {
    pub(crate) code: u8,
    pub(crate) first: Slot<'a>,
    pub(crate) second: Slot<'a>,
    pub(crate) third: Slot<'a>,
    pub(crate) field: Option<Name>,
    pub(crate) label: Option<u16>,
}

impl<'a> Model for Row<'a> {
    ghost use Rattle.l6_image.specs.Row.{Row as Meaning};
    ghost use Rattle.l6_image.specs.inner.decode.Seen.{slot_seen};

    ghost Value = { Meaning };

    ghost view = { λ row. record {
      code = row.code;
      first = slot_seen row.first;
      second = slot_seen row.second;
      third = slot_seen row.third;
      field = row.field;
      label = row.label;
    } };
}

/// The first row of words in a version, and the words after it.
#[tactic(auto, unfolding(crate::specs::inner::decode::Reading::row_at))]
pub(crate) fn row_at(version: Version, words: &[u64]) -> Option<(Row<'_>, &[u64])>
    ensures { Finds (λ found. (found.0, found.1.now)) result (spec.row_at version words.now) }
{
    let (word, rest) = words.split_first()?;
    let head = Head::of(version, *word);
    let (first, rest) = slot_at(head.first, rest)?;
    let (second, rest) = slot_at(head.second, rest)?;
    let (third, rest) = slot_at(head.third, rest)?;
    let row = Row {
        code: head.code,
        first,
        second,
        third,
        field: head.field,
        label: head.label,
    };
    Some((row, rest))
}

/// The operand of a kind in front of words, and the words after it.
#[tactic(auto, unfolding(crate::specs::inner::decode::Reading::slot_at))]
fn slot_at(kind: OperandKind, words: &[u64]) -> Option<(Slot<'_>, &[u64])>
    ensures { Finds (λ found. (slot_seen found.0, found.1.now)) result
        (spec.slot_at (kind_code kind) words.now) }
{
    match kind {
        OperandKind::Absent => Some((Slot::Absent, words)),
        OperandKind::Chain => {
            let (word, rest) = words.split_first()?;
            Some((Slot::Chain(*word), rest))
        }
        OperandKind::Number => {
            let (word, rest) = words.split_first()?;
            Some((Slot::Number(*word), rest))
        }
        OperandKind::Text => {
            let (count, rest) = words.split_first()?;
            codes_at(*count, rest)
        }
    }
}

/// So many codes in front of words, and the words after theirs.
fn codes_at(count: u64, words: &[u64]) -> Option<(Slot<'_>, &[u64])>
    ensures { Finds (λ found. (slot_seen found.0, found.1.now)) result
        (spec.codes_at count words.now) }
{
    if count > MAX_CHARACTERS as u64 {
        return None;
    }
    let count = count as usize;
    let needed = count.div_ceil(ITEMS_PER_WORD);
    if words.len() < needed {
        return None;
    }
    let (codes, rest) = words.split_at(needed);
    Some((Slot::Text(count, codes), rest))
}
