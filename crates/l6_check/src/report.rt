//! All that is found in a deck.

ghost use Rattle.std.specs.Prelude.{◌≡◌, ◌≤◌, length, IfOk};
ghost use Rattle.l6_card.specs.Numerals.{most_deck_bytes};
ghost use Rattle.l6_check.specs.Report as spec;

use crate::cards::{CardWarnings, card_warnings};
use crate::fault::OutOfMemory;
use crate::field_warnings::undefined_fields;
use crate::finding::Finding;
use crate::findings::Findings;
use crate::indented::add_indented;
use crate::job::up_to_mark;
use crate::labels::labels_of;
use crate::reading::{StatementErrors, statement_errors};
use crate::verdict::plain;
use crate::ways::{StatementWarnings, statement_warnings};
use l6_asm::assemble;
use l6_prog::Program;
use std::alloc::Global;

/// What is found in a deck.
#[derive(Drop)]
pub struct Report<'a> {
    /// The error at which its assembly stops: there is none exactly if the deck spells a program.
    pub first: Option<Finding<'a>>,
    /// The errors of statements that cannot be read, each read by itself.
    pub reading: Findings<'a>,
    /// Those of labels that are given twice.
    pub twice: Findings<'a>,
    /// Those of labels that are named and not given.
    pub missing: Findings<'a>,
    /// The warnings of its cards.
    pub cards: CardWarnings<'a>,
    /// The warnings of its program: none if there is an error.
    pub program: ProgramWarnings<'a>,
}

/// The warnings of a deck that spells a program.
#[derive(Drop)]
pub struct ProgramWarnings<'a> {
    /// Those of its statements.
    pub statements: StatementWarnings<'a>,
    /// Those of fields that are used and not defined.
    pub fields: Findings<'a>,
}

impl<'a> ProgramWarnings<'a> {
    /// The warnings of a deck that spells this program.
    fn of(alloc: Global, program: &Program, deck: &'a [u8]) -> Result<Self, OutOfMemory>
        requires { length deck.now ≤ most_deck_bytes }
        ensures { IfOk result (spec.WarnsOf deck.now program.now) }
    {
        let statements = statement_warnings(alloc, program, deck)?;
        let fields = undefined_fields(alloc, program, deck)?;
        Ok(ProgramWarnings { statements, fields })
    }

    /// No warnings.
    fn none(alloc: Global) -> Self {
        ProgramWarnings {
            statements: StatementWarnings::none(alloc),
            fields: Findings::new(alloc),
        }
    }
}

/// What is found in a deck of at most 1,048,576 bytes.
///
/// # Errors
///
/// Memory ran out.
pub fn check<'a>(alloc: Global, deck: &'a [u8]) -> Result<Report<'a>, OutOfMemory>
    requires { length deck.now ≤ most_deck_bytes }
    ensures { IfOk result (spec.IsReport deck.now) }
{
    let text = up_to_mark(deck);
    let cards = card_warnings(alloc, text)?;
    match assemble(alloc, deck) {
        Ok(assembly) => {
            let warnings = ProgramWarnings::of(alloc, assembly.program(), deck)?;
            Ok(without_errors(alloc, cards, warnings))
        }
        Err(fault) => with_errors(alloc, text, plain(deck, fault)?, cards),
    }
}

/// The report of a deck without errors.
fn without_errors<'a>(
    alloc: Global,
    cards: CardWarnings<'a>,
    program: ProgramWarnings<'a>,
) -> Report<'a>
    ensures none { spec.HasNoErrors result }
    ensures cards { result.cards ≡ cards.entry }
    ensures program { result.program ≡ program.entry }
{
    Report {
        first: None,
        reading: Findings::new(alloc),
        twice: Findings::new(alloc),
        missing: Findings::new(alloc),
        cards,
        program,
    }
}

/// The report of a deck whose assembly stops at this error, up to the line at which it ends.
fn with_errors<'a>(
    alloc: Global,
    deck: &'a [u8],
    first: Finding<'a>,
    cards: CardWarnings<'a>,
) -> Result<Report<'a>, OutOfMemory>
    requires { length deck.now ≤ most_deck_bytes }
    ensures { IfOk result (spec.HasErrors deck.now first.entry cards.entry) }
{
    let mut labels = labels_of(alloc, deck)?;
    add_indented(alloc, &mut labels.given, deck)?;
    let errors = statement_errors(alloc, &labels.given, deck)?;
    let StatementErrors { reading, missing } = errors;
    Ok(Report {
        first: Some(first),
        reading,
        twice: labels.twice,
        missing,
        cards,
        program: ProgramWarnings::none(alloc),
    })
}
