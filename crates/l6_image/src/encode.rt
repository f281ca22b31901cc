//! From programs to the words of their images.

pub(crate) mod comparing;
pub(crate) mod items;
mod rows;
mod table;
pub(crate) mod writing;
