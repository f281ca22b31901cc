//! Units: how many a store may have, where they end, and lists with an entry for each of their places.

ghost use Rattle.std.specs.Prelude.{◌≡◌, ◌+◌, ◌-◌, ◌≤◌, length, min};
ghost use Rattle.l6_word.specs.Numerals.{unit_size};
ghost use Rattle.l6_store.specs.Blocks.{end_of};
ghost use Rattle.l6_store.specs.Numerals.{most_units};
ghost use Rattle.l6_store.specs.inner.Units.{AreAlike, AreCopied};

use crate::places::Place;
use l6_word::UNIT_SIZE;

/// The most units that a store may have.
pub const MAX_UNITS: u32 = 255;

/// How many places a unit has.
pub(crate) const UNIT_PLACES: usize = UNIT_SIZE as usize;

/// How many units the places of the largest store make, with those below the first unit.
pub(crate) const UNITS: usize = MAX_UNITS as usize + 1;

/// The place after a store of so many units, of which the caller owes that a store may have them.
pub fn end_of(units: u32) -> Place
    requires { units ≤ most_units }
    ensures { result ≡ end_of units }
{
    (units + 1) * Place::from(UNIT_SIZE)
}

/// Overwrites all entries with as many others. Of a unit that is used in neither only the first
/// entry is copied, or none: the others are the same already.
pub(crate) fn take_units<T: Copy>(
    entries: &mut [T],
    others: &[T],
    used: &[bool],
    other_used: &[bool],
    first_too: bool,
)
    requires long { length entries.old ≡ length others.now }
    requires most { length others.now ≤ end_of most_units }
    requires units { (length used.now ≡ most_units + 1) × (length other_used.now ≡ most_units + 1) }
    requires alike { AreAlike entries.old others.now used.now other_used.now first_too }
    ensures { entries.new ≡ others.now }
{
    for unit in 0..others.len().div_ceil(UNIT_PLACES) {
        let place = unit * UNIT_PLACES;
        if used[unit] || other_used[unit] {
            copy_unit(entries, others, place);
        } else if first_too {
            entries[place] = others[place];
        }
    }
}

/// Copies the entries of the unit that begins at a place, as far as there are any. It is a function of its
/// own so that the loop over units, most of which are unused, is short.
#[inline(never)]
fn copy_unit<T: Copy>(entries: &mut [T], others: &[T], place: usize)
    requires long { length entries.old ≡ length others.now }
    requires within { place ≤ length others.now }
    ensures { AreCopied others.now entries.old entries.new place
        (min unit_size (length others.now - place)) }
{
    let end = place + UNIT_PLACES.min(others.len() - place);
    entries[place..end].copy_from_slice(&others[place..end]);
}
