//! Variables, as an editor lists them.

use l6_word::Word;
use std::marker::Model;

/// A variable: its name, and what is shown of it.
#[derive(Drop)]
pub(crate) struct Variable {
    pub(crate) name: Vec<u8>,
    pub(crate) shown: Shown,
}

/// What is shown of a variable.
#[derive(Drop)]
pub(crate) enum Shown {
    /// A word, and the names of the chain that reads it, or none where no chain is known.
    Word(Word, Vec<u8>),
    /// A text.
    Text(Vec<u8>),
}

impl Model for Variable {
    ghost use Rattle.l6_dap.specs.Variables as spec;
    ghost use Rattle.l6_dap.specs.inner.Shown.{shown_of};

    ghost Value = { spec.Variable };

    ghost view = { λ it. record { name = it.name.items; shown = shown_of it.shown } };
}
