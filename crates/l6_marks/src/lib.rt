//! The cards of statements, as texts show them: with the action of a state marked on them, and why a run has
//! trapped there.
#![tactic(auto)]

mod ahead;
mod card;
mod details;
mod marks;
mod reason;
mod statement;

pub use card::{begun_with, is_of, push_added, push_blanks, push_card, statement_with};
pub use details::{push_details, push_explanation};
