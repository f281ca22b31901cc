//! Histories: a run's states by their numbers, forward and back, and to where one stops.
#![tactic(auto)]

mod block_watch;
mod changing;
mod history;
mod laws;
mod life;
mod numbered_machine;
mod ring;
mod seeker;
mod seeking;
mod stop;
mod testing;
mod values;
mod watched;
mod watches;

pub use history::History;
pub use laws::histories_have_their_limits;
pub use life::Life;
pub use ring::MAX_KEPT;
pub use stop::{MAX_WATCHED, Stop};
pub use values::{differ, values_of};
pub use watched::{BlockWord, Watched};
