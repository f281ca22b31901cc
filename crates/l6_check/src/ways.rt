//! The warnings of a deck's statements: labels that are spelled as conditions are or that no statement
//! names, and statements that no way leads to, that always trap, that decide nothing or that run on.

ghost use Rattle.std.specs.Prelude.{◌≡◌, ℕ, ◌+◌, ◌-◌, ◌≤◌, min, ◌<◌, ◌^◌, ◌++◌, List, Some, length, IfOk, OnOk};
ghost use Rattle.l6_word.specs.Lines.{lines_of};
ghost use Rattle.l6_card.specs.Numerals.{card_width, most_deck_bytes};
ghost use Rattle.l6_card.specs.Role.{role_of};
ghost use Rattle.l6_check.specs.Kept.{Say};
ghost use Rattle.l6_card.specs.Card.{columns_of};
ghost use Rattle.l6_check.specs.Warnings.{blanks_before, card_if, condition_card, condition_cards};
ghost use Rattle.l6_check.specs.Certain.{trapping_card};
ghost use Rattle.l6_check.specs.Running.{idle_card, idle_cards, running_card, running_cards};
ghost use Rattle.l6_check.specs.Ways as spec;
ghost use Rattle.l6_check.specs.declared.reason.Reason.TheVariants as Reason;
ghost use Rattle.l6_check.specs.inner.StatementTests.{passed_card, passes_at, SayWhere};

use crate::certain::{certain_trap, first_trap, has_trap};
use crate::conditions::{condition_on, gives_condition};
use crate::explain::text_at;
use crate::finding::{Finding, Span};
use crate::findings::Findings;
use crate::label_places::body_start;
use crate::labels::{label_finding, label_on};
use crate::marks::{is_marked, statements_marked};
use crate::reached::reached_statements;
use crate::reason::{CertainTrap, Reason, WarningReason};
use crate::running::{Calls, Exits, is_idle, runs_on};
use crate::scan::{columns_from, without_blanks, without_last_blanks};
use crate::targets::named_statements;
use l6_card::{Role, Token, columns_of, first_item, role_of};
use l6_group::operation_of;
use l6_prog::{Program, Statement};
use l6_word::{first_line, without_return};
use std::alloc::{AllocError, Global};

/// The warnings of a deck's statements.
#[derive(Drop)]
pub struct StatementWarnings<'a> {
    /// Those of labels that are spelled as conditions are.
    pub conditions: Findings<'a>,
    /// Those of labels that no statement names.
    pub unnamed: Findings<'a>,
    /// Those of statements that no way leads to.
    pub unreached: Findings<'a>,
    /// Those of statements that have an operation which always traps.
    pub trapping: Findings<'a>,
    /// Those of statements that have a condition, and nothing that depends on it.
    pub idle: Findings<'a>,
    /// Those of statements that always run on into a subroutine.
    pub running: Findings<'a>,
}

impl<'a> StatementWarnings<'a> {
    /// No warnings.
    pub(crate) fn none(alloc: Global) -> Self {
        StatementWarnings {
            conditions: Findings::new(alloc),
            unnamed: Findings::new(alloc),
            unreached: Findings::new(alloc),
            trapping: Findings::new(alloc),
            idle: Findings::new(alloc),
            running: Findings::new(alloc),
        }
    }
}

/// A test of statements.
#[derive(Clone, Copy, Debug)]
pub(crate) enum StatementTest {
    /// Its label is spelled as a condition is.
    Condition,
    /// It has a label, nothing names the statement, and no way leads to it.
    Unnamed,
    /// No way leads to it.
    Unreached,
    /// It has an operation that always traps.
    Trapping,
    /// It has a condition, and nothing that depends on it.
    Idle,
    /// It always runs on into a subroutine.
    Running,
}

/// The statements of a program, and marks of them, by their numbers.
#[derive(Clone, Copy)]
pub(crate) struct Ways<'p> {
    /// The statements.
    pub(crate) statements: &'p [Statement],
    /// Of those that an exit or an operation names.
    pub(crate) named: &'p [bool],
    /// Of those that some way leads to.
    pub(crate) reached: &'p [bool],
    /// Of those that are called.
    pub(crate) called: &'p [bool],
    /// Of those to which a statement goes otherwise.
    pub(crate) left_to: &'p [bool],
}

/// The warnings of a deck's statements, of which this is the program.
///
/// # Errors
///
/// Memory ran out.
pub fn statement_warnings<'a>(
    alloc: Global,
    program: &Program,
    deck: &'a [u8],
) -> Result<StatementWarnings<'a>, AllocError>
    requires { length deck.now ≤ most_deck_bytes }
    ensures conditions { IfOk result (λ found.
        Say condition_card (condition_cards deck.now) found.conditions) }
    ensures unnamed { IfOk result (λ found.
        spec.SayUnnamed program.now deck.now found.unnamed) }
    ensures unreached { IfOk result (λ found.
        spec.SayUnreached program.now deck.now found.unreached) }
    ensures trapping { IfOk result (λ found.
        Say trapping_card (spec.trapping_cards program.now deck.now) found.trapping) }
    ensures idle { IfOk result (λ found.
        Say idle_card (idle_cards program.now deck.now) found.idle) }
    ensures running { IfOk result (λ found.
        Say running_card (running_cards program.now deck.now) found.running) }
{
    let named = named_statements(alloc, program)?;
    let reached = reached_statements(alloc, program)?;
    let called = statements_marked::<Calls>(alloc, program)?;
    let left_to = statements_marked::<Exits>(alloc, program)?;
    let ways = Ways {
        statements: program.statements(),
        named: &named,
        reached: &reached,
        called: &called,
        left_to: &left_to,
    };
    warnings_by(alloc, ways, deck)
}

/// The warnings of a deck's statements, by the marks of its program.
fn warnings_by<'a>(
    alloc: Global,
    ways: Ways<'_>,
    deck: &'a [u8],
) -> Result<StatementWarnings<'a>, AllocError>
    requires { length deck.now ≤ most_deck_bytes }
    ensures { IfOk result (SayWhere ways.entry deck.now) }
{
    let mut conditions = Findings::new(alloc);
    let mut unnamed = Findings::new(alloc);
    let mut unreached = Findings::new(alloc);
    let mut trapping = Findings::new(alloc);
    let mut idle = Findings::new(alloc);
    let mut running = Findings::new(alloc);
    let mut rest = deck;
    let mut card: u32 = 0;
    let mut number: u32 = 0;
    while let Some((line, following)) = first_line(rest) {
        card += 1;
        if begins_statement(line) {
            let first = Numbered { number, card, line };
            add_if_passing(&mut conditions, ways, StatementTest::Condition, first)?;
            add_if_passing(&mut unnamed, ways, StatementTest::Unnamed, first)?;
            add_if_passing(&mut unreached, ways, StatementTest::Unreached, first)?;
            add_if_passing(&mut trapping, ways, StatementTest::Trapping, first)?;
            add_if_passing(&mut idle, ways, StatementTest::Idle, first)?;
            add_if_passing(&mut running, ways, StatementTest::Running, first)?;
            number += 1;
        }
        rest = following;
    }
    Ok(StatementWarnings {
        conditions,
        unnamed,
        unreached,
        trapping,
        idle,
        running,
    })
}

/// The number of a statement, and the number and the line of its first card.
#[derive(Clone, Copy)]
struct Numbered<'a> {
    number: u32,
    card: u32,
    line: &'a [u8],
}

/// Adds a warning if the statement that a card begins passes a test.
fn add_if_passing<'a>(
    found: &mut Findings<'a>,
    ways: Ways<'_>,
    test: StatementTest,
    card: Numbered<'a>,
) -> Result<(), AllocError>
    requires { found.old.count + 1 < 2 ^ 32 }
    ensures said { let passes = passes_at test ways.entry card.entry.number card.entry.line.now in
        OnOk result ((cards : List ℕ) → Say (passed_card test) cards found.old →
        Say (passed_card test) (cards ++ card_if passes card.entry.card) found.new) }
    ensures count { OnOk result (found.new.count ≤ found.old.count + 1) }
{
    if test.passes(ways, card) {
        return found.add(test.warning_on(ways, card));
    }
    Ok(())
}

impl StatementTest {
    /// Whether the statement that a card begins passes it.
    fn passes(self, ways: Ways<'_>, card: Numbered<'_>) -> bool
        ensures { result ≡ passes_at self ways.entry card.entry.number card.entry.line.now }
    {
        let number = card.number as usize;
        match self {
            StatementTest::Condition => gives_condition(card.line),
            StatementTest::Unnamed => {
                label_on(card.line).is_some()
                    && !is_marked(ways.named, number)
                    && !is_marked(ways.reached, number)
            }
            StatementTest::Unreached => !is_marked(ways.reached, number),
            StatementTest::Trapping => has_trap(ways.statements, number),
            StatementTest::Idle => is_idle(ways.statements, number),
            StatementTest::Running => runs_on(ways, number),
        }
    }

    /// The warning of one that does.
    fn warning_on<'a>(self, ways: Ways<'_>, card: Numbered<'a>) -> Finding<'a>
        ensures { passed_card self result ≡ Some card.entry.card }
    {
        match self {
            StatementTest::Condition => condition_on(card.card, card.line),
            StatementTest::Unnamed => {
                let reason = Reason::Warning(WarningReason::UnnamedLabel);
                label_finding(card.card, card.line, reason)
            }
            StatementTest::Unreached => {
                statement_on(card.card, card.line, WarningReason::UnreachedStatement)
            }
            StatementTest::Trapping => trapping_on(ways.statements, card),
            StatementTest::Idle => {
                statement_on(card.card, card.line, WarningReason::DecidesNothing)
            }
            StatementTest::Running => statement_on(card.card, card.line, WarningReason::RunsOn),
        }
    }
}

/// Whether the card of a line begins a statement.
fn begins_statement(line: &[u8]) -> bool
    ensures { result ≡ spec.is_first (role_of line.now) }
{
    match role_of(line) {
        Role::First => true,
        Role::Skipped | Role::Further | Role::Unknown => false,
    }
}

/// The warning of a card that begins a statement which has an operation that always traps: on the card,
/// if it is there, and else on all that the card has.
fn trapping_on<'a>(statements: &[Statement], card: Numbered<'a>) -> Finding<'a>
    ensures { trapping_card result ≡ Some card.entry.card }
{
    if let Some((span, trap)) = trap_place(columns_of(card.line)) {
        return Finding {
            card: card.card,
            span,
            text: text_at(columns_of(card.line), span),
            line: without_return(card.line),
            reason: Reason::Warning(WarningReason::AlwaysTraps(trap)),
        };
    }
    let trap = first_trap(statements, card.number as usize).unwrap_or(CertainTrap::BadDefinition);
    statement_on(card.card, card.line, WarningReason::LaterTraps(trap))
}

/// Where an operation on a card with these columns always traps, and how: the first one that does.
fn trap_place(columns: &[u8]) -> Option<(Span, CertainTrap)> {
    let mut rest = columns_from(columns, body_start(columns));
    loop {
        match first_item(rest) {
            Token::End | Token::Unclosed(_) | Token::Unopened(_) => return None,
            Token::Word(_, following) => rest = following,
            Token::Group(inside, following) => {
                if let Some(trap) = group_trap(inside) {
                    let to = columns.len().saturating_sub(following.len());
                    let from = to.saturating_sub(inside.len()).saturating_sub(2);
                    return Some((Span::on_card(from, to), trap));
                }
                rest = following;
            }
        }
    }
}

/// How the operation that a group spells always traps, if it does.
fn group_trap(inside: &[u8]) -> Option<CertainTrap> {
    let operation = operation_of(inside)?;
    certain_trap(&operation)
}

/// The warning of a card that begins a statement.
fn statement_on(card: u32, line: &[u8], reason: WarningReason) -> Finding<'_>
    ensures card { result.card ≡ card }
    ensures reason { result.reason ≡ Reason.Warning reason }
    ensures from { result.span.from ≡ min (blanks_before (columns_of line.now)) (card_width - 1) }
{
    let columns = columns_of(line);
    let text = without_last_blanks(without_blanks(columns));
    let from = columns.len() - without_blanks(columns).len();
    Finding {
        card,
        span: Span::on_card(from, from.saturating_add(text.len())),
        text,
        line: without_return(line),
        reason: Reason::Warning(reason),
    }
}
