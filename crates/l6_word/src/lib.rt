//! Machine words of 36 bits, windows on their bits, the codes of characters, and lines of text.
#![tactic(auto)]

mod code;
mod laws;
mod line;
mod octal;
mod split;
mod unit;
mod window;
mod word;

pub use code::{CODE_COUNT, char_of, character_of, code_of, input_code, is_blank};
pub use laws::{
    codes_are_read_again, codes_have_their_number, inputs_are_their_lines, octals_are_read_again,
    units_have_their_size, words_have_their_bits,
};
pub use line::{first_line, without_return};
pub use octal::{OCTALS, octal12, read_octal12};
pub use split::{split_line, split_once};
pub use unit::{LARGEST_LEVEL, UNIT_SIZE};
pub use window::Window;
pub use word::Word;
