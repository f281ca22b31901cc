//! Runs, from a deck to the writer of its printout, and the images and listings of decks.
#![tactic(auto)]

mod explained;
mod laws;
mod lines;
mod loaded;
mod runner;
mod running;
mod texts;
mod writer;

pub use explained::{Explained, explain_deck};
pub use l6_device::{
    HeadParts, Host, JobParts, MAX_COMMAND_BYTES, MAX_JOB_BYTES, MAX_RETRIES, Part, Patience,
    RunFault, Script, Sink, Source, Trouble, commands_have_their_limit, head_parts_of,
    jobs_have_their_limit, parts_of, read_part, retries_have_their_limit, write_text,
};
pub use l6_machine::{Ending, Options, ending_line, ending_of, printout, push_whole_lines};
pub use laws::{images_print_as_decks, printouts_are_determined};
pub use loaded::run_image_text;
pub use runner::{run, run_image};
pub use running::run_deck;
pub use texts::{rewrite_image_text, write_deck_image, write_deck_listing};
pub use writer::{rewrite_image, write_image, write_listing};
