//! Boards beside the plain store, which gives the lowest open place, too; and a small one by hand.

ghost use Rattle.std.specs.Prelude.{◌≡◌, ◌≤◌};
ghost use Rattle.l6_word.specs.Numerals.{largest_level};

use l6_places::{Board, BoardFault, Hindrance, Piece};
use l6_store::{Level, Place, Places, ScanStore, end_of};
use l6_word::{UNIT_SIZE, Word};
use std::test::Fail;

/// The number of a place, as a word.
fn word_of(place: Place) -> Word
    ensures { result ≡ place }
{
    Word::wrapping(u64::from(place))
}

/// Gets a block of a level from both, or frees the next one from a place on, and says whether they agree.
fn call(store: &mut ScanStore, board: &mut Board, level: Level, place: Place) -> bool
    requires { level ≤ largest_level }
{
    if level > board.top() || store.peek(level) != board.find(level) {
        return false;
    }
    if place % 2 == 0 {
        return store.get(level) == board.get(level);
    }
    let at = board.next_block(place / 2).unwrap_or(place / 2);
    if store.live(word_of(at)) != board.level_at(at) {
        return false;
    }
    if store.live(word_of(at)).is_none() {
        return !board.try_free(at);
    }
    store.free(at);
    board.try_free(at)
}

/// What is in the way of a block of a level at a place.
fn hindrance(board: &Board, level: Level, place: Place) -> Option<Hindrance> {
    if level > board.top() {
        return None;
    }
    board.hindrance(level, place)
}

/// Puts a block of a level at a place, if it is open.
fn reserve(board: &mut Board, level: Level, place: Place) -> bool {
    level <= board.top() && board.try_reserve(level, place)
}

#[test]
fn a_board_agrees_with_the_plain_store(rt: HostRuntime) -> Result<(), Fail> {
    let units = 2;
    let mut store = ScanStore::new(rt.alloc(), units)?;
    let mut board = Board::new(rt.alloc(), 18, u32::from(UNIT_SIZE), end_of(units))?;
    let mut number: u64 = 1;
    for count in 0..4_000 {
        number = number.wrapping_mul(1_103_515_245).wrapping_add(12_345) % (1 << 31);
        let place = (number / 65_536 % 6_200) as Place;
        let level = (number / 16 % 11) as Level;
        assert!(rt;
            level > 10 || call(&mut store, &mut board, level, place),
            "call {count}"
        );
    }
    let copy = board.duplicate()?;
    assert_eq!(rt; copy.next_block(0), board.next_block(0));
    board.reset();
    assert_eq!(rt; board.free_places(), 2_048);
    assert!(rt; copy.free_places() < 2_048);
    Ok(())
}

#[test]
fn thirteen_places_by_hand(rt: HostRuntime) -> Result<(), Fail> {
    let mut board = Board::new(rt.alloc(), 4, 2, 15)?;
    assert_eq!(rt; board.largest_open(), Some(Piece { place: 4, level: 2 }));
    assert!(rt; reserve(&mut board, 2, 4) && reserve(&mut board, 0, 9));
    for (level, place, expected) in [
        (1, 2, None),
        (1, 3, Some(Hindrance::Misaligned)),
        (1, 0, Some(Hindrance::Outside)),
        (1, 14, Some(Hindrance::Outside)),
        (0, 14, None),
        (1, 6, Some(Hindrance::Overlaps(4))),
        (2, 8, Some(Hindrance::Overlaps(9))),
        (2, 12, Some(Hindrance::Outside)),
    ] {
        assert_eq!(rt;
            hindrance(&board, level, place),
            expected,
            "{level} at {place}"
        );
    }
    assert_eq!(rt; board.next_block(5), Some(9));
    assert_eq!(rt; board.next_block(10), None);
    assert_eq!(rt; board.level_at(4), Some(2));
    assert_eq!(rt; board.free_places(), 8);
    assert_eq!(rt; board.largest_open(), Some(Piece { place: 2, level: 1 }));
    assert!(rt; board.try_free(9) && !board.try_free(9));
    assert_eq!(rt; board.largest_open(), Some(Piece { place: 8, level: 2 }));
    assert_eq!(rt;
        Board::new(rt.alloc(), 4, 2, 17).err(),
        Some(BoardFault::BadPlaces)
    );
    Ok(())
}
