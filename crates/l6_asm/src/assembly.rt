//! Assemblies: programs with the labels of their statements.

ghost use Rattle.std.specs.Prelude.{◌≡◌};

use indexmap::IndexMap;
use l6_group::Label;
use l6_prog::Program;
use std::marker::Model;

/// The number of the statement that each label names, in the order of the cards.
pub type Labels = IndexMap<Label, u16>;

/// What a deck spells: its program, and its labels.
#[derive(Drop)]
pub struct Assembly {
    program: Program,
    labels: Labels,
}

impl Model for Assembly {
    ghost use Rattle.l6_asm.specs.Assembled.{Assembled};

    ghost Value = { Assembled };

    ghost view = { λ a. record { program = a.program; labels = a.labels.entries } };
}

impl Assembly {
    /// The assembly of this program and these labels.
    pub(crate) fn new(program: Program, labels: Labels) -> Self
        ensures { result ≡ record { program = program; labels = labels.entries } }
    {
        Assembly { program, labels }
    }

    /// The program.
    pub fn program(&self) -> &Program
        ensures { result.now ≡ self.now.program }
    {
        &self.program
    }

    /// The program. The labels are dropped.
    pub fn into_program(self) -> Program
        ensures { result ≡ self.program }
    {
        let Assembly { program, labels: _ } = self;
        program
    }

    /// The program, and the labels.
    pub fn into_parts(self) -> (Program, Labels)
        ensures program { result.0 ≡ self.program }
        ensures labels { result.1.entries ≡ self.labels }
    {
        let Assembly { program, labels } = self;
        (program, labels)
    }

    /// The number of the statement that each label names, in the order of the cards.
    pub fn labels(&self) -> &Labels
        ensures { result.now.entries ≡ self.now.labels }
    {
        &self.labels
    }
}
