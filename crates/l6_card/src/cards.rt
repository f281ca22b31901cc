//! What a deck says.

ghost use Rattle.std.specs.Prelude.{◌≡◌};

use crate::span::Span;
use l6_group::Label;
use l6_prog::{Cond, Exit, Op, Test};
use std::marker::Model;

/// A label, given to a statement or named by one, and the card that it is on, numbered from 1.
#[derive(Debug, Drop)]
pub struct PlacedLabel {
    /// The label.
    pub label: Label,
    /// The card's number.
    pub card: u32,
}

/// A test or an operation, and where its group is.
#[derive(Debug, Drop)]
pub struct Placed<T> {
    /// The test or the operation.
    pub reading: T,
    /// The number of the group's card, from 1 on.
    pub card: u32,
    /// The group's bytes in the deck.
    pub span: Span,
}

/// The parts of a statement as its cards give them.
#[derive(Debug, Drop)]
pub struct Parts {
    /// The label, if it has one.
    pub label: Option<PlacedLabel>,
    /// The condition.
    pub condition: Cond,
    /// The tests of the condition, in order.
    pub tests: Vec<Placed<Test>>,
    /// The operations, in order.
    pub operations: Vec<Placed<Op<Label>>>,
    /// The exit.
    pub exit: Exit<PlacedLabel>,
}

/// A statement as its cards give it.
#[derive(Debug, Drop)]
pub struct DeckStatement {
    parts: Parts,
}

impl Model for DeckStatement {
    ghost use Rattle.l6_card.specs.Statement.{DeckStatementParts};

    ghost Value = { DeckStatementParts };

    ghost view = { λ w. record {
      label = w.parts.label;
      condition = w.parts.condition;
      tests = w.parts.tests.items;
      operations = w.parts.operations.items;
      exit = w.parts.exit;
    } };
}

impl DeckStatement {
    /// The statement of these parts.
    pub(crate) fn new(parts: Parts) -> Self
        ensures { result ≡ record {
          label = parts.label;
          condition = parts.condition;
          tests = parts.tests.items;
          operations = parts.operations.items;
          exit = parts.exit;
        } }
    {
        DeckStatement { parts }
    }

    /// The label, if it has one.
    pub fn label(&self) -> &Option<PlacedLabel>
        ensures { result.now ≡ self.now.label }
    {
        &self.parts.label
    }

    /// The condition.
    pub fn condition(&self) -> Cond
        ensures { result ≡ self.now.condition }
    {
        self.parts.condition
    }

    /// The tests of the condition, in order.
    pub fn tests(&self) -> &[Placed<Test>]
        ensures { result.now ≡ self.now.tests }
    {
        self.parts.tests.as_slice()
    }

    /// The operations, in order.
    pub fn operations(&self) -> &[Placed<Op<Label>>]
        ensures { result.now ≡ self.now.operations }
    {
        self.parts.operations.as_slice()
    }

    /// The exit.
    pub fn exit(&self) -> &Exit<PlacedLabel>
        ensures { result.now ≡ self.now.exit }
    {
        &self.parts.exit
    }

    /// The parts. The statement is used up.
    pub fn into_parts(self) -> Parts
        ensures label { result.label ≡ self.label }
        ensures condition { result.condition ≡ self.condition }
        ensures tests { result.tests.items ≡ self.tests }
        ensures operations { result.operations.items ≡ self.operations }
        ensures exit { result.exit ≡ self.exit }
    {
        let DeckStatement { parts } = self;
        parts
    }
}

/// What a deck says: its statements in order, at most 65,534.
#[derive(Debug, Drop)]
pub struct Cards {
    statements: Vec<DeckStatement>,
}

impl Model for Cards {
    ghost use Rattle.std.specs.Prelude.{List};
    ghost use Rattle.l6_card.specs.Statement.{DeckStatementParts};

    ghost Value = { List DeckStatementParts };

    ghost view = { λ cards. cards.statements.items };
}

impl Cards {
    /// These statements.
    pub(crate) fn new(statements: Vec<DeckStatement>) -> Self
        ensures { result ≡ statements.items }
    {
        Cards { statements }
    }

    /// The statements, in order.
    pub fn statements(&self) -> &[DeckStatement]
        ensures { result.now ≡ self.now }
    {
        self.statements.as_slice()
    }

    /// The statements, in order. The list is used up.
    pub fn into_statements(self) -> Vec<DeckStatement>
        ensures { result.items ≡ self }
    {
        let Cards { statements } = self;
        statements
    }
}
