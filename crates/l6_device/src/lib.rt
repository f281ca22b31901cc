//! Devices: readers and writers, what is read from them and written to them whole, and what can go wrong.
#![tactic(auto)]

mod device;
mod fault;
mod laws;
mod parts;
mod patience;
mod retrying;
mod script;
mod transfer;

pub use device::{Host, Sink, Source, Trouble};
pub use fault::{MAX_COMMAND_BYTES, MAX_JOB_BYTES, Part, RunFault};
pub use laws::{commands_have_their_limit, jobs_have_their_limit, retries_have_their_limit};
pub use parts::{HeadParts, JobParts, head_parts_of, parts_of};
pub use patience::{MAX_RETRIES, Patience};
pub use script::Script;
pub use transfer::{read_part, write_text};
