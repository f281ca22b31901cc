//! What a machine's memory looks like: which blocks its program can still reach, a drawing of them,
//! and a map of the store.
#![tactic(auto)]

mod blocks;
mod drawings;
mod laws;
mod line;
mod reach;
mod store_maps;
mod walk;

pub use drawings::drawing;
pub use laws::{map_is_whole, reach_is_settled};
pub use line::character_of;
pub use reach::reachable;
pub use store_maps::store_map;
