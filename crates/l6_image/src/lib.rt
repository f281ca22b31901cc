//! Images: programs as machine words, and those words as lines of octal digits.
#![tactic(auto)]

mod decode;
mod encode;
mod fault;
mod head;
mod laws;
mod text;
mod version;

pub use decode::loading::{MAX_BYTES, load};
pub use encode::writing::{statement_words, words_of};
pub use fault::LoadFault;
pub use laws::{images_are_of_one_program, images_have_their_numbers};
pub use text::{LINE_BYTES, push_lines, text_of};
pub use version::Version;
