//! Places in decks, as editors count them: and what stands there.
#![tactic(auto)]

mod changing;
mod groups;
mod here;
mod occurrence;
mod spot;
mod starts;
mod statements;
mod testing;

pub use changing::changed;
pub use groups::{Group, Groups};
pub use here::{Here, Item, here_on};
pub use occurrence::{Occurrence, Use, occurrences_of, use_of, without_blanks};
pub use spot::{Spot, offset_of};
pub use starts::CardStarts;
pub use statements::first_cards;
pub use testing::is_in_test;
