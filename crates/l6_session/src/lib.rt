//! Sessions: lines are read at a console, and each is answered before the next one is read.
#![tactic(auto)]

mod answering;
mod answers;
mod before;
mod blocks;
mod calls;
mod cards;
mod chains;
mod command;
mod console;
mod conversation;
mod drawn;
mod free_lists;
mod help;
mod laws;
mod listing;
mod names;
mod near;
mod parted;
mod printed;
mod reading;
mod repeating;
mod reports;
mod saved;
mod seen;
mod session;
mod stops;
mod table;
mod text;
mod topics;
mod values;
mod watching;
mod who;

pub use answering::DeckSession;
pub use command::{Cards, Command, Move, Reading, Setting, Verb, View};
pub use console::{Console, ConsoleFault};
pub use conversation::{Answerer, converse};
pub use free_lists::FreeLists;
pub use laws::{saved_commands_lead_back, sessions_have_their_limits};
pub use names::Names;
pub use reading::{file_of, given_test_of};
pub use session::{MAX_DISPLAYED, MAX_REPEATS, Session};
pub use text::nearest_label;
