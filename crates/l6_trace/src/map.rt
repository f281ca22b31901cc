//! The map of a store: its blocks and its free pieces, by their places.

ghost use Rattle.std.specs.Prelude.{◌≡◌, ◌≤◌, slice_set};
ghost use Rattle.l6_word.specs.Numerals.{largest_level};

use crate::tally::words_of;
use crate::texts::{push_counted, push_name, push_number};
use crate::tracer::Tracer;
use indexmap::IndexSet;
use l6_store::{Buddy, Level, Place, Places, end_of};
use l6_word::{LARGEST_LEVEL, UNIT_SIZE, Word};
use std::alloc::{AllocError, Global};

/// What begins at a place.
#[derive(Clone, Copy, Debug, PartialEq, Eq)]
enum Piece {
    /// Nothing.
    Inner,
    /// The block of a name.
    Block(usize),
    /// A free piece of a level.
    Free(Level),
}

/// Adds a line for each block and each free piece, places rising.
pub(crate) fn push_map(
    alloc: Global,
    text: &mut Vec<u8>,
    names: &IndexSet<&[u8]>,
    tracer: &Tracer,
) -> Result<(), AllocError> {
    let pieces = pieces_of(alloc, names.len(), tracer)?;
    for place in u32::from(UNIT_SIZE)..end_of(tracer.store().units()) {
        let piece = pieces.get(place as usize).copied();
        push_piece(
            text,
            names,
            place,
            piece.unwrap_or(Piece::Inner),
            tracer.store(),
        )?;
    }
    Ok(())
}

/// Adds a line for the piece that begins at a place, if one does.
fn push_piece(
    text: &mut Vec<u8>,
    names: &IndexSet<&[u8]>,
    place: Place,
    piece: Piece,
    store: &Buddy,
) -> Result<(), AllocError> {
    let level = match piece {
        Piece::Inner => return Ok(()),
        Piece::Block(block) => {
            push_number(text, place)?;
            text.extend_from_slice(b" ")?;
            push_name(text, names, block)?;
            store.live(Word::from(place)).unwrap_or(0)
        }
        Piece::Free(level) => {
            push_number(text, place)?;
            text.extend_from_slice(b" free")?;
            level
        }
    };
    push_counted(text, b", words ", words_of(level))?;
    Ok(text.extend_from_slice(b"\n")?)
}

/// What begins at each place.
fn pieces_of(alloc: Global, names: usize, tracer: &Tracer) -> Result<Vec<Piece>, AllocError> {
    let store = tracer.store();
    let end = end_of(store.units());
    let mut pieces = vec![in alloc; Piece::Inner; end as usize]?;
    for level in 0..=LARGEST_LEVEL {
        add_free_pieces(pieces.as_mut_slice(), store, level);
    }
    for block in 0..names {
        if let Some(place) = tracer.holder(block) {
            set_piece(pieces.as_mut_slice(), place as usize, Piece::Block(block));
        }
    }
    Ok(pieces)
}

/// Adds the free pieces of a level.
fn add_free_pieces(pieces: &mut [Piece], store: &Buddy, level: Level)
    requires { level ≤ largest_level }
{
    let mut next = store.first_free(level);
    for _ in 0..pieces.len() {
        let Some(place) = next else {
            return;
        };
        set_piece(pieces, place as usize, Piece::Free(level));
        next = store.next_free(level, place);
    }
}

/// Says what begins at a place.
fn set_piece(pieces: &mut [Piece], place: usize, piece: Piece)
    ensures { pieces.new ≡ slice_set pieces.old place piece }
{
    if place < pieces.len() {
        pieces[place] = piece;
    }
}
