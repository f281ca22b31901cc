//! The assembler: from a deck of cards to the program that it spells.
#![tactic(auto)]

mod assembler;
mod assembly;
mod card_lines;
mod fault;
mod label;
mod laws;
mod line;
mod listings;
mod resolution;
mod statement_words;
mod worked;

pub use assembler::assemble;
pub use assembly::{Assembly, Labels};
pub use card_lines::CardLines;
pub use fault::AsmFault;
pub use l6_group::Label;
pub use laws::{
    decks_have_images, each_statement_is_listed, images_of_decks_fit, spelling_is_settled,
};
pub use line::MAX_LINE_BYTES;
pub use listings::{listing, listing_end};
pub use statement_words::StatementWords;
pub use worked::{missing_is_refused, twice_is_refused};
