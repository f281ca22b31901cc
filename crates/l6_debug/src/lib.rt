//! The debugger: it shows the states of a run, forward and back.
#![tactic(auto)]

mod command;
mod debugger;
mod debugging;
mod laws;
mod obeying;
mod reading;
mod showing;
mod worked;

pub use command::Command;
pub use debugging::{debug, debug_deck};
pub use l6_history::History;
pub use laws::numbers_have_their_limit;
pub use reading::{first_word, number_of};
pub use showing::push_answer;
pub use worked::{others_are_wrong, words_are_separated};
