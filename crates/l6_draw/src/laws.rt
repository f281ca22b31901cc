//! The laws of what is reached, and of the map of a store.

ghost use Rattle.l6_draw.specs.Laws.{MapIsWhole, ReachIsDecided, ReachIsSettled};

/// A path ends at a place exactly where the test says so, and the places at which one ends are a
/// rising list, which is the only one.
pub fn reach_is_settled()
    ensures decided { ReachIsDecided }
    ensures settled { ReachIsSettled }
{}

/// The map of a store shows whole blocks and longest runs of free words, side by side from the
/// store's first place to its end.
pub fn map_is_whole()
    ensures { MapIsWhole }
{}
