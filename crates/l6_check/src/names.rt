//! The labels that statements name and that no card gives.

ghost use Rattle.std.specs.Prelude.{◌≡◌, ◌+◌, ◌*◌, ◌<◌, ◌^◌, Some, true, length, option_to_list, OnOk};
ghost use Rattle.std.specs.List.{flat_map, list_all};
ghost use Rattle.l6_card.specs.Statement.{is_fit};
ghost use Rattle.l6_check.specs.OnCard.{IsOnItsCard};
ghost use Rattle.l6_check.specs.Missing as spec;
ghost use Rattle.l6_check.specs.inner.Names as inner;

use crate::explain::text_at;
use crate::finding::Finding;
use crate::findings::Findings;
use crate::label_places::span_of;
use crate::labels::Labels;
use crate::nearest::{label_text, nearest};
use crate::parts::Part;
use crate::reason::{MissingLabel, Reason};
use l6_card::{DeckStatement, Placed, PlacedLabel, columns_of};
use l6_group::Label;
use l6_prog::{Exit, Op};
use std::alloc::AllocError;

/// Adds an error for each label that statements name and no card gives.
pub(crate) fn add_missing<'a>(
    given: &Labels,
    missing: &mut Findings<'a>,
    statements: &[DeckStatement],
    part: Part<'a>,
) -> Result<(), AllocError>
    requires fit { list_all is_fit statements.now ≡ true }
    requires room { missing.old.count + inner.most_names * length statements.now < 2 ^ 32 }
    ensures { let more = flat_map (spec.missing_in given.now.entries) statements.now in
        let most = inner.most_names * length statements.now in
        OnOk result (inner.AreAdded given.now.entries more most missing.old missing.new) }
{
    for statement in statements {
        add_of_statement(given, missing, statement, part)?;
    }
    Ok(())
}

/// Adds an error for each label that a statement names and no card gives.
fn add_of_statement<'a>(
    given: &Labels,
    missing: &mut Findings<'a>,
    statement: &DeckStatement,
    part: Part<'a>,
) -> Result<(), AllocError>
    requires fit { is_fit statement.now ≡ true }
    requires room { missing.old.count + inner.most_names < 2 ^ 32 }
    ensures { let more = spec.missing_in given.now.entries statement.now in
        OnOk result (inner.AreAdded given.now.entries more inner.most_names missing.old missing.new) }
{
    add_of_groups(given, missing, statement.operations(), part)?;
    add_of_exit(given, missing, statement.exit(), part)
}

/// Adds an error for each label that groups name and no card gives.
fn add_of_groups<'a>(
    given: &Labels,
    missing: &mut Findings<'a>,
    groups: &[Placed<Op<Label>>],
    part: Part<'a>,
) -> Result<(), AllocError>
    requires room { missing.old.count + 2 * length groups.now < 2 ^ 32 }
    ensures { let more = flat_map (spec.missing_in_group given.now.entries) groups.now in
        OnOk result (inner.AreAdded given.now.entries more (2 * length groups.now) missing.old missing.new) }
{
    for group in groups {
        add_of_group(given, missing, group, part)?;
    }
    Ok(())
}

/// Adds an error for each label that a group names and no card gives.
fn add_of_group<'a>(
    given: &Labels,
    missing: &mut Findings<'a>,
    group: &Placed<Op<Label>>,
    part: Part<'a>,
) -> Result<(), AllocError>
    requires room { missing.old.count + 2 < 2 ^ 32 }
    ensures { let more = spec.missing_in_group given.now.entries group.now in
        OnOk result (inner.AreAdded given.now.entries more 2 missing.old missing.new) }
{
    match &group.reading {
        Op::Call(called, fail) => {
            add_if_missing(given, missing, group.card, called, part)?;
            add_if_given(given, missing, group.card, fail, part)
        }
        Op::Get(_, _, _, label) | Op::Duplicate(_, _, label) | Op::Input(_, _, label) => {
            add_if_given(given, missing, group.card, label, part)
        }
        _ => Ok(()),
    }
}

/// Adds an error if an exit names a label that no card gives.
fn add_of_exit<'a>(
    given: &Labels,
    missing: &mut Findings<'a>,
    exit: &Exit<PlacedLabel>,
    part: Part<'a>,
) -> Result<(), AllocError>
    requires room { missing.old.count + 1 < 2 ^ 32 }
    ensures { let more = spec.missing_in_exit given.now.entries exit.now in
        OnOk result (inner.AreAdded given.now.entries more 1 missing.old missing.new) }
{
    match exit {
        Exit::Label(named) => add_if_missing(given, missing, named.card, &named.label, part),
        _ => Ok(()),
    }
}

/// Adds an error if a label is named on this card, and no card gives it.
fn add_if_given<'a>(
    given: &Labels,
    missing: &mut Findings<'a>,
    card: u32,
    label: &Option<Label>,
    part: Part<'a>,
) -> Result<(), AllocError>
    requires room { missing.old.count + 1 < 2 ^ 32 }
    ensures { let more = flat_map (spec.missing_if given.now.entries card) (option_to_list label.now) in
        OnOk result (inner.AreAdded given.now.entries more 1 missing.old missing.new) }
{
    match label {
        None => Ok(()),
        Some(label) => add_if_missing(given, missing, card, label, part),
    }
}

/// Adds an error if this label, which is named on this card, is one that no card gives.
fn add_if_missing<'a>(
    given: &Labels,
    missing: &mut Findings<'a>,
    card: u32,
    label: &Label,
    part: Part<'a>,
) -> Result<(), AllocError>
    requires room { missing.old.count + 1 < 2 ^ 32 }
    ensures { let more = spec.missing_if given.now.entries card label.now in
        OnOk result (inner.AreAdded given.now.entries more 1 missing.old missing.new) }
{
    if given.get(label).is_some() {
        return Ok(());
    }
    if missing.is_full() {
        missing.skip();
        return Ok(());
    }
    missing.add(missing_on(given, card, label, part))
}

/// The error of a card that names a label which no card gives.
fn missing_on<'a>(given: &Labels, card: u32, label: &Label, part: Part<'a>) -> Finding<'a>
    ensures said { spec.missing_said result ≡ Some (card, label.now) }
    ensures place { IsOnItsCard result }
    ensures near { spec.SaysNearest given.now.entries result.reason }
{
    let line = part.line_on(card);
    let columns = columns_of(line);
    let span = span_of(columns, label);
    Finding {
        card,
        span,
        text: text_at(columns, span),
        line,
        reason: Reason::NoLabel(MissingLabel {
            label: label_text(label),
            near: nearest(given, label),
        }),
    }
}
