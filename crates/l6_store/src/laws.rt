//! That the numbers of the code are those of the language, and the laws of the two rules of choice.

ghost use Rattle.std.specs.Prelude.{◌≡◌, ◌≤◌, ◌^◌};
ghost use Rattle.l6_store.specs.Numerals.{most_units, place_bits};
ghost use Rattle.l6_store.specs.Blocks.{end_of};
ghost use Rattle.l6_store.specs.Laws.{ScanChooses, ScanPicksTheLowest};
ghost use Rattle.l6_store.specs.BuddyLaws.{BuddyChooses, FreesKeepTiles, GetsKeepTiles, MovesAreFew, NewStoresAreTiled, UnitsAreWhole};

use crate::link::PLACE_BITS;
use crate::units::MAX_UNITS;

/// A store has as many units as the language says.
pub fn stores_have_their_limit()
    ensures { MAX_UNITS ≡ most_units }
{}

/// The number of each place of the largest store fits a field of a word that holds a place.
pub fn places_fit_their_bits()
    ensures bits { PLACE_BITS ≡ place_bits }
    ensures fit { end_of most_units ≤ 2 ^ place_bits }
{}

/// Whatever the blocks, the plain rule picks an open place for each level, and none exactly where
/// no place is open.
pub fn scan_chooses()
    ensures { ScanChooses }
{}

/// The plain rule picks the lowest open place.
pub fn scan_picks_the_lowest()
    ensures { ScanPicksTheLowest }
{}

/// Where blocks and free pieces fill a store, the buddy rule picks an open place for each level, and
/// none exactly where no place is open.
pub fn buddy_chooses()
    ensures { BuddyChooses }
{}

/// By the buddy rule blocks and free pieces fill a new store, and they still do after a get and after
/// a free.
pub fn buddies_stay_tiled()
    ensures first { NewStoresAreTiled }
    ensures got { GetsKeepTiles }
    ensures freed { FreesKeepTiles }
{}

/// By the buddy rule, once all blocks are freed, each unit is one free piece again.
pub fn units_are_whole()
    ensures { UnitsAreWhole }
{}

/// By the buddy rule a get halves, and a free joins, at most as often as the largest level says.
pub fn moves_are_few()
    ensures { MovesAreFew }
{}
