//! From the words of images to programs.

mod listed;
pub(crate) mod loading;
mod operands;
mod reader;
mod reading;
mod statements;
