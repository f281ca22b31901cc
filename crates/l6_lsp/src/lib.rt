//! A language server for decks: the decks that an editor has open, and what it may ask of them.
#![tactic(auto)]

mod asked;
mod candidates;
mod card_list;
mod chains;
mod completion;
mod decks;
mod diagnostics;
mod document;
mod edits;
mod fixes;
mod group_candidates;
mod hover;
mod labels;
mod meaning;
mod numbers;
mod parameters;
mod place;
mod programs;
mod ranges;
mod renaming;
mod serving;

pub use decks::Decks;
pub use document::Document;
pub use serving::serve_decks;
