//! The operands of rows, made from words.

ghost use Rattle.std.specs.Prelude.{◌≡◌, take};
ghost use Rattle.std.specs.List.{flat_map};
ghost use Rattle.l6_prog.specs.Numerals.{most_characters};
ghost use Rattle.l6_image.specs.inner.decode.Back as spec;
ghost use Rattle.l6_image.specs.inner.decode.Fields.{items_in, names_in};
ghost use Rattle.l6_image.specs.inner.decode.Reading.{codes_in};
ghost use Rattle.l6_image.specs.inner.decode.Seen.{slot_seen};

use crate::decode::reader::Slot;
use arrayvec::ArrayVec;
use l6_prog::{Chain, MAX_CHARACTERS, MAX_NAMES, Name, Operand, PrintText};
use l6_word::Word;

impl<'a> Slot<'a> {
    /// The operand as a chain.
    #[tactic(auto, unfolding(crate::specs::inner::decode::Back::chain_in))]
    pub(crate) fn chain(&self) -> Option<Chain>
        ensures { result ≡ spec.chain_in (slot_seen self.now) }
    {
        match self {
            Slot::Chain(word) => chain_in(*word),
            _ => None,
        }
    }

    /// The operand as a chain or a number.
    #[tactic(auto, unfolding(crate::specs::inner::decode::Back::operand_in))]
    pub(crate) fn operand(&self) -> Option<Operand>
        ensures { result ≡ spec.operand_in (slot_seen self.now) }
    {
        match self {
            Slot::Chain(word) => Some(Operand::Chain(chain_in(*word)?)),
            Slot::Number(number) => Some(Operand::Number(Word::new(*number)?)),
            _ => None,
        }
    }

    /// The operand as a chain, if there is one.
    #[tactic(auto, unfolding(crate::specs::inner::decode::Back::chain_if_given_in))]
    pub(crate) fn chain_if_given(&self) -> Option<Option<Chain>>
        ensures { result ≡ spec.chain_if_given_in (slot_seen self.now) }
    {
        match self {
            Slot::Absent => Some(None),
            Slot::Chain(word) => Some(Some(chain_in(*word)?)),
            _ => None,
        }
    }

    /// The operand as a chain or a number, if there is one.
    #[tactic(auto, unfolding(crate::specs::inner::decode::Back::operand_if_given_in))]
    pub(crate) fn operand_if_given(&self) -> Option<Option<Operand>>
        ensures { result ≡ spec.operand_if_given_in (slot_seen self.now) }
    {
        match self {
            Slot::Absent => Some(None),
            _ => Some(Some(self.operand()?)),
        }
    }

    /// The operand as the number of a statement.
    #[tactic(auto, unfolding(crate::specs::inner::decode::Back::statement_in))]
    pub(crate) fn statement(&self) -> Option<u16>
        ensures { result ≡ spec.statement_in (slot_seen self.now) }
    {
        match self {
            Slot::Number(number) if *number <= u64::from(u16::MAX) => Some(*number as u16),
            _ => None,
        }
    }

    /// The operand as a text.
    #[tactic(auto, unfolding(crate::specs::inner::decode::Back::text_in))]
    pub(crate) fn text(&self) -> Option<PrintText>
        ensures { result ≡ spec.text_in (slot_seen self.now) }
    {
        match self {
            Slot::Text(count, words) => text_in(*count, words),
            _ => None,
        }
    }
}

/// The chain of the names in a word, up to an item that is none.
fn chain_in(word: u64) -> Option<Chain>
    ensures { result ≡ spec.chain_from (names_in word) }
{
    let mut names: ArrayVec<Name, MAX_NAMES> = ArrayVec::new();
    for item in items_in(word) {
        match Name::new(item) {
            Some(name) => names.push(name),
            None => return Chain::new(names.as_slice()),
        }
    }
    Chain::new(names.as_slice())
}

/// The text of the first so many codes in words.
fn text_in(count: usize, words: &[u64]) -> Option<PrintText>
    ensures { result ≡ spec.text_from (codes_in count words.now) }
{
    let codes = codes_in(words);
    PrintText::new(&codes[..count.min(codes.len())])
}

/// The codes in words, at most those that a text may have.
fn codes_in(words: &[u64]) -> ArrayVec<u8, MAX_CHARACTERS>
    ensures { result.items ≡ take most_characters (flat_map items_in words.now) }
{
    let mut codes = ArrayVec::new();
    for word in words {
        if codes.try_extend_from_slice(&items_in(*word)).is_err() {
            return codes;
        }
    }
    codes
}

/// The six items of a word.
fn items_in(word: u64) -> [u8; 6]
    ensures { result ≡ items_in word }
{
    [
        (word / (1 << 30) % 64) as u8,
        (word / (1 << 24) % 64) as u8,
        (word / (1 << 18) % 64) as u8,
        (word / (1 << 12) % 64) as u8,
        (word / (1 << 6) % 64) as u8,
        (word % 64) as u8,
    ]
}
