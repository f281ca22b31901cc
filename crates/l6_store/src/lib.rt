//! Stores of blocks: where blocks are, how they are got and freed, and what their words are.
#![tactic(auto)]

mod arena;
mod buddy;
mod fault;
mod laws;
mod level;
mod link;
mod piece;
mod place_tag;
mod places;
mod scan_store;
mod tag;
mod units;

pub use buddy::Buddy;
pub use fault::StoreFault;
pub use laws::{
    buddies_stay_tiled, buddy_chooses, moves_are_few, places_fit_their_bits, scan_chooses,
    scan_picks_the_lowest, stores_have_their_limit, units_are_whole,
};
pub use level::level_for;
pub use places::{Level, Place, Places};
pub use scan_store::ScanStore;
pub use units::{MAX_UNITS, end_of};
