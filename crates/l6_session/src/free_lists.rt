//! The free pieces of a store, by their levels. What they look like is tested, and not proved.

use crate::text::push_counted;
use l6_store::{Buddy, Level, Place, Places};
use l6_word::{LARGEST_LEVEL, UNIT_SIZE};
use std::alloc::AllocError;

/// A store whose free lists can be shown.
pub trait FreeLists: Places {
    /// The first free piece of a level's list, if it has one.
    fn first_of(&self, level: Level) -> Option<Place>;

    /// The free piece after this one in a level's list, if there is one.
    fn next_of(&self, level: Level, place: Place) -> Option<Place>;
}

impl FreeLists for Buddy {
    fn first_of(&self, level: Level) -> Option<Place> {
        if level <= LARGEST_LEVEL {
            self.first_free(level)
        } else {
            None
        }
    }

    fn next_of(&self, level: Level, place: Place) -> Option<Place> {
        self.next_free(level, place)
    }
}

/// Adds the free lists, a line for each level that has a free piece.
pub(crate) fn push_lists<S: FreeLists>(text: &mut Vec<u8>, store: &S) -> Result<(), AllocError> {
    let begin = text.len();
    for level in 0..=LARGEST_LEVEL {
        if let Some(first) = store.first_of(level) {
            push_counted(text, b"LEVEL ", level)?;
            push_counted(text, b" SIZE ", 1u64.wrapping_shl(u32::from(level)))?;
            text.extend_from_slice(b":")?;
            push_list(text, store, level, first)?;
        }
    }
    if text.len() == begin {
        text.extend_from_slice(b"NO FREE PIECE\n")?;
    }
    Ok(())
}

/// Adds the places of a list, from the first on, and ends the line. A list has no more pieces than the
/// store has places.
fn push_list<S: FreeLists>(
    text: &mut Vec<u8>,
    store: &S,
    level: Level,
    first: Place,
) -> Result<(), AllocError> {
    let mut next = Some(first);
    for _ in 0..u64::from(store.units()) * u64::from(UNIT_SIZE) {
        let Some(place) = next else {
            break;
        };
        push_counted(text, b" ", place)?;
        next = store.next_of(level, place);
    }
    text.extend_from_slice(b"\n")
}
