//! Worked examples of the definitions: theorems about them alone, of steps worked by hand.

ghost use Rattle.l6_steps.specs.Worked.{BugsExchange, ChainLeads, DifferenceWraps, FailGoesToItsLabel, FailWithoutLabelTraps, GetKeepsTheOld, NotAllStops, UseAfterFreeTraps};

/// A difference below 0 wraps.
pub fn difference_wraps()
    ensures { DifferenceWraps }
{}

/// An exchange of two bugs.
pub fn bugs_exchange()
    ensures { BugsExchange }
{}

/// A chain of two fields leads through two blocks.
pub fn chain_leads()
    ensures { ChainLeads }
{}

/// A get whose second chain is a field of the new block keeps the old place there.
pub fn get_keeps_the_old()
    ensures { GetKeepsTheOld }
{}

/// A field of a block that was freed is no field of a block.
pub fn use_after_free_traps()
    ensures { UseAfterFreeTraps }
{}

/// A condition takes no test after the one that decides it.
pub fn not_all_stops()
    ensures { NotAllStops }
{}

/// The exit FAIL goes to the fail label of the latest call, or traps where that has none.
pub fn fail_goes_to_its_label()
    ensures label { FailGoesToItsLabel }
    ensures none { FailWithoutLabelTraps }
{}
