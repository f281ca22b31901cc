//! Frames: messages with their length in front, as the protocols of editors have them.
#![tactic(auto)]

mod field;
mod frame;
mod inbox;
mod laws;

pub use frame::{MAX_BODY, MAX_HEAD, Next, next_frame, push_frame};
pub use inbox::{Found, Inbox};
pub use laws::{frames_are_one, streams_have_one_reading};
