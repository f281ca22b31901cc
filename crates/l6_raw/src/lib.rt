//! A region of words in one piece of raw memory. Its callers see a list of words.
#![tactic(auto)]

mod laws;
mod memory;
mod region;

pub use laws::regions_have_their_limit;
pub use region::Region;
