//! The errors of reading: statement after statement, each as a deck of its own.

ghost use Rattle.std.specs.Prelude.{◌≡◌, ◌+◌, ◌*◌, ◌≤◌, ◌^◌, ◌<◌, ◌++◌, [], ◌∷◌, List, length, IfOk, OnOk};
ghost use Rattle.l6_card.specs.Numerals.{most_deck_bytes};
ghost use Rattle.l6_card.specs.declared.objection.Objection.{Objection};
ghost use Rattle.l6_check.specs.Faults.{fault_of_finding};
ghost use Rattle.l6_check.specs.Explains.{Explains};
ghost use Rattle.l6_check.specs.Kept.{Say, AreOf};
ghost use Rattle.l6_check.specs.OnCard.{AreOnTheirCards, StayOnTheirCards};
ghost use Rattle.l6_check.specs.Missing.{AreNearest, SayMissing, StayNearest};
ghost use Rattle.l6_check.specs.inner.Names as inner;
ghost use Rattle.l6_check.specs.inner.Parts.{lines_in};
ghost use Rattle.l6_check.specs.Statements as spec;

use crate::explain::reading_error;
use crate::fault::OutOfMemory;
use crate::findings::Findings;
use crate::labels::Labels;
use crate::mended::mended;
use crate::names::add_missing;
use crate::parts::{Part, Parts};
use l6_card::{Objection, ReadError, read_part};
use std::alloc::{AllocError, Global};

/// How many errors of a statement are told at most.
pub const MAX_OF_STATEMENT: u32 = 10;

/// The errors of a deck's statements.
#[derive(Drop)]
pub struct StatementErrors<'a> {
    /// Those of statements that cannot be read.
    pub reading: Findings<'a>,
    /// Those of labels that statements name and no card gives.
    pub missing: Findings<'a>,
}

/// The errors of a deck's statements, each read as a deck of its own, in the order of the cards. Cards
/// give these labels. A statement has an error for each group without a reading, up to the tenth: what
/// follows such a group is read as if a right one stood there, or none.
///
/// # Errors
///
/// Memory ran out.
pub fn statement_errors<'a>(
    alloc: Global,
    given: &Labels,
    deck: &'a [u8],
) -> Result<StatementErrors<'a>, OutOfMemory>
    requires { length deck.now ≤ most_deck_bytes }
    // A statement's errors are the objections to it as a deck of its own: their cards, their columns and the
    // kinds of their reasons, and so its faults.
    ensures explained { let objections = spec.statement_objections deck.now in
        IfOk result (λ found. AreOf Explains objections found.reading) }
    ensures reading { let faults = spec.statement_faults deck.now in
        IfOk result (λ found. Say fault_of_finding faults found.reading) }
    ensures places { IfOk result (λ found. AreOnTheirCards found.reading) }
    // Just the labels are missing that these statements name and no card gives.
    ensures missing { IfOk result (λ found. SayMissing given.now.entries deck.now found.missing) }
    ensures missing_places { IfOk result (λ found. AreOnTheirCards found.missing) }
    // Each says what is nearly its label, among those that are given and the exits.
    ensures near { IfOk result (λ found. AreNearest given.now.entries found.missing) }
{
    let mut reading = Findings::new(alloc);
    let mut missing = Findings::new(alloc);
    let mut parts = Parts::of(deck);
    while let Some(part) = parts.next() {
        add_errors(alloc, given, &mut reading, &mut missing, part)?;
    }
    Ok(StatementErrors { reading, missing })
}

/// Adds the errors of a part: those of reading, or those of labels that it names.
fn add_errors<'a>(
    alloc: Global,
    given: &Labels,
    reading: &mut Findings<'a>,
    missing: &mut Findings<'a>,
    part: Part<'a>,
) -> Result<(), OutOfMemory>
    requires few { part.before + length part.text.now ≤ most_deck_bytes }
    requires counted { part.count ≤ length part.text.now }
    requires room { reading.old.count + spec.most_of_statement < 2 ^ 32 }
    requires missing_room { missing.old.count + inner.most_names * part.count < 2 ^ 32 }
    ensures reading { let more = spec.objections_in spec.most_of_statement (part.entry.before + 1)
        (lines_in part.entry) in
        OnOk result ((objections : List Objection) → AreOf Explains objections reading.old →
        AreOf Explains (objections ++ more) reading.new) }
    ensures count { OnOk result (reading.new.count ≤ reading.old.count + spec.most_of_statement) }
    ensures places { OnOk result (StayOnTheirCards reading.old reading.new) }
    ensures missing { OnOk result (inner.SayMissingIn given.now.entries (part.entry.before + 1)
        (lines_in part.entry) missing.old missing.new) }
    ensures missing_count { OnOk result
        (missing.new.count ≤ missing.old.count + inner.most_names * part.entry.count) }
    ensures missing_places { OnOk result (StayOnTheirCards missing.old missing.new) }
    ensures near { OnOk result (StayNearest given.now.entries missing.old missing.new) }
{
    match read_part(alloc, part.before, part.text, part.count) {
        Ok(cards) => Ok(add_missing(given, missing, cards.statements(), part)?),
        Err(ReadError::Objection(_)) => {
            add_objections(alloc, reading, part, part, MAX_OF_STATEMENT)
        }
        Err(ReadError::NoMemory) => Err(OutOfMemory),
    }
}

/// Adds the errors that the objections to a part are, at most so many. The part is now as this other one:
/// something stands in for what objected before.
fn add_objections<'a>(
    alloc: Global,
    reading: &mut Findings<'a>,
    part: Part<'a>,
    now: Part<'_>,
    most: u32,
) -> Result<(), OutOfMemory>
    requires few { now.before + length now.text.now ≤ most_deck_bytes }
    requires counted { now.before + now.count < 2 ^ 32 }
    requires room { reading.old.count + most < 2 ^ 32 }
    ensures said { let more = spec.objections_in most (now.entry.before + 1) (lines_in now.entry) in
        OnOk result ((objections : List Objection) → AreOf Explains objections reading.old →
        AreOf Explains (objections ++ more) reading.new) }
    ensures count { OnOk result (reading.new.count ≤ reading.old.count + most) }
    ensures places { OnOk result (StayOnTheirCards reading.old reading.new) }
{
    if most == 0 {
        return Ok(());
    }
    let Some(objection) = now.objection(alloc)? else {
        return Ok(());
    };
    add_error(reading, objection, part)?;
    let Some(text) = mended(alloc, objection, now)? else {
        return Ok(());
    };
    let next = Part {
        before: now.before,
        text: &text,
        count: now.count,
    };
    add_objections(alloc, reading, part, next, most - 1)
}

/// Adds the error that an objection to a part is.
fn add_error<'a>(
    found: &mut Findings<'a>,
    objection: Objection,
    part: Part<'a>,
) -> Result<(), AllocError>
    requires { found.old.count + 1 < 2 ^ 32 }
    ensures said { OnOk result ((objections : List Objection) →
        AreOf Explains objections found.old →
        AreOf Explains (objections ++ objection ∷ []) found.new) }
    ensures count { OnOk result (found.new.count ≤ found.old.count + 1) }
    ensures places { OnOk result (StayOnTheirCards found.old found.new) }
{
    if found.is_full() {
        found.skip();
        return Ok(());
    }
    found.add(reading_error(objection, part))
}
