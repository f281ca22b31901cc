//! What elements spell, character by character.

ghost use Rattle.std.specs.Prelude.{◌≡◌, ◌<◌, true, length, MatchOption};
ghost use Rattle.l6_group.specs.Character as spec;

use arrayvec::ArrayVec;
use l6_word::{character_of, is_blank};
use std::marker::Model;

/// The characters of an element, its blanks left out, small letters as capitals.
#[derive(Drop)]
pub struct Spelling<'a, const ROOM: usize> {
    characters: Characters<'a, ROOM>,
}

/// Where the characters are. Most elements are spelled as they are on the card, and need no copy.
#[derive(Drop)]
enum Characters<'a, const ROOM: usize> {
    /// On the card.
    Borrowed(&'a [u8]),
    /// In a copy, without the card's blanks and small letters.
    Copied(ArrayVec<u8, ROOM>),
}

impl<'a, const ROOM: usize> Model for Spelling<'a, ROOM> {
    ghost use Rattle.std.specs.Prelude.{ℕ, List};
    ghost use Rattle.l6_group.specs.Spelled.{characters_of};

    ghost Value = { List ℕ };

    ghost view = { λ spelling. characters_of spelling.characters };
}

impl<'a, const ROOM: usize> Spelling<'a, ROOM> {
    /// The characters, in order.
    pub fn as_slice(&self) -> &[u8]
        ensures { result.now ≡ self.now }
    {
        match &self.characters {
            Characters::Borrowed(characters) => characters,
            Characters::Copied(characters) => characters.as_slice(),
        }
    }
}

/// The characters of an element, its blanks left out, small letters as capitals; `None` only where
/// they are more than there is room for.
pub fn spelled<const ROOM: usize>(element: &[u8]) -> Option<Spelling<'_, ROOM>>
    ensures { let characters = spec.spelled element.now in
        MatchOption result (ROOM < length characters) (λ given. given ≡ characters) }
{
    if needs_no_copy(element) {
        return Some(Spelling {
            characters: Characters::Borrowed(element),
        });
    }
    let characters = copied(element)?;
    Some(Spelling {
        characters: Characters::Copied(characters),
    })
}

/// Whether an element has neither blanks nor small letters.
fn needs_no_copy(element: &[u8]) -> bool
    ensures { result ≡ true → spec.spelled element.now ≡ element.now }
{
    element
        .iter()
        .all(|byte| !is_blank(*byte) && character_of(*byte) == *byte)
}

/// A copy of the characters of an element; `None` where they are more than there is room for.
fn copied<const ROOM: usize>(element: &[u8]) -> Option<ArrayVec<u8, ROOM>>
    ensures { let characters = spec.spelled element.now in
        MatchOption result (ROOM < length characters) (λ given. given.items ≡ characters) }
{
    let mut characters = ArrayVec::new();
    for byte in element {
        if !is_blank(*byte) {
            if characters.is_full() {
                return None;
            }
            characters.push(character_of(*byte));
        }
    }
    Some(characters)
}
