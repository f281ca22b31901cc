//! Labels.

ghost use Rattle.std.specs.Prelude.{◌≡◌, ⊤, true};
ghost use Rattle.std.specs.List.{list_all};
ghost use Rattle.std.specs.Str.{bytes_eq};
ghost use Rattle.std.specs.Hash as fed;
ghost use Rattle.std.specs.Cmp.Rules.{comparing, hashing};
ghost use Rattle.std.proofs.Common.{rules};
ghost use Rattle.l6_group.specs.Character as spelling;
ghost use Rattle.l6_group.specs.Label as spec;

use crate::spelling::{Spelling, spelled};
use std::alloc::AllocError;
use std::hash::{Hash, Hasher};
use std::marker::Model;

/// How many characters a label may have.
pub const MAX_LABEL_CHARACTERS: usize = 6;

/// What names a statement in a deck: a capital letter, and up to 5 capital letters or digits after
/// it. `DONE` and `FAIL` are no labels.
// A deck keeps one for each operation that may name a label, so it is as small as can be.
#[derive(Debug, Drop)]
pub struct Label {
    /// The characters, and places that are not used.
    characters: [u8; MAX_LABEL_CHARACTERS],
    /// How many characters there are.
    count: u8,
}

impl Model for Label {
    ghost use Rattle.std.specs.Prelude.{◌≡◌, ◌≤◌, ℕ, List, length, take, true};
    ghost use Rattle.l6_group.specs.Label.{is_label};
    ghost use Rattle.l6_group.specs.Numerals.{most_label_characters};

    ghost Value = { List ℕ };

    ghost view = { λ label. take label.count label.characters };

    ghost invariant = { λ label. (label.count ≤ most_label_characters)
        × (length label.characters ≡ most_label_characters)
        × (is_label (take label.count label.characters) ≡ true) };
}

impl Label {
    /// The label of these characters, or `None` where they are none.
    pub fn new(characters: &[u8]) -> Option<Self>
        ensures { result ≡ spec.label_from characters.now }
    {
        if !are_label(characters) {
            return None;
        }
        let mut kept = [0; MAX_LABEL_CHARACTERS];
        kept[..characters.len()].copy_from_slice(characters);
        Some(Label {
            characters: kept,
            count: characters.len() as u8,
        })
    }

    /// The characters, in order.
    pub fn characters(&self) -> &[u8]
        ensures value { result.now ≡ self.now }
        ensures label { spec.is_label result.now ≡ true }
    {
        &self.characters[..usize::from(self.count)]
    }
}

impl PartialEq for Label {
    ghost eq = { bytes_eq };

    ghost laws = { Prim.search (comparing, rules) };

    fn eq(&self, other: &Self) -> bool {
        self.characters() == other.characters()
    }
}

impl Eq for Label {
    ghost laws = { Prim.search (comparing, rules) };
}

impl Hash for Label {
    ghost hash_input = { fed.slice fed.u8 };

    ghost respects_eq = { Prim.search (hashing, rules) };

    fn hash<H: Hasher>(&self, state: &mut H) {
        self.characters().hash(state);
    }
}

/// Whether characters are a label.
fn are_label(characters: &[u8]) -> bool
    ensures { result ≡ spec.is_label characters.now }
{
    if characters.len() > MAX_LABEL_CHARACTERS {
        return false;
    }
    match characters {
        b"DONE" | b"FAIL" => false,
        [first, ..] => is_capital(*first) && are_alphanumeric(characters),
        [] => false,
    }
}

/// Whether a character is a capital letter.
fn is_capital(character: u8) -> bool
    ensures { result ≡ spelling.is_capital character }
{
    matches!(character, b'A'..=b'Z')
}

/// Whether each character is a capital letter or a digit.
fn are_alphanumeric(characters: &[u8]) -> bool
    ensures { result ≡ list_all spelling.is_alphanumeric characters.now }
{
    characters.iter().all(|character| matches!(*character, b'A'..=b'Z' | b'0'..=b'9'))
}

/// The label that an element spells.
pub fn label_of(element: &[u8]) -> Option<Label>
    ensures { result ≡ spec.label_of element.now }
{
    let characters: Spelling<'_, MAX_LABEL_CHARACTERS> = spelled(element)?;
    Label::new(characters.as_slice())
}

/// A clone is the same label. It takes no memory.
impl Clone for Label {
    ghost is_clone = { λ label copy. copy ≡ label };

    ghost is_infallible = { λ _. ⊤ };

    fn clone(&self) -> Result<Self, AllocError> {
        Ok(Label {
            characters: self.characters,
            count: self.count,
        })
    }
}
