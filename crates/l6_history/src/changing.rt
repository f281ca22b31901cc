//! Which actions may change what chains and words read as.
//!
//! An operation changes the bugs to which it assigns, and some change fields and blocks. After the other
//! actions what is watched reads as before, so it need not be read.

ghost use Rattle.std.specs.Prelude.{◌≡◌, slice_set};
ghost use Rattle.l6_history.specs.inner.Changing.{IsRow, IsTable, changes, changes_by, changes_some, has_fields, reads_blocks, reads_fields, says};

use crate::watched::Watched;
use l6_prog::{Chain, MAX_OPERATIONS, Op, Program, Statement};
use l6_steps::Position;
use std::alloc::Global;
use std::marker::Model;

/// How many entries a row has: for the condition of a statement, and for each operation.
const ENTRIES: usize = MAX_OPERATIONS + 1;

/// For each action of a program, whether it may change what one of some chains and words reads as. One
/// without an entry may. A table takes 64 bytes for each statement.
#[derive(Drop)]
pub(crate) struct ChangeTable {
    /// For each statement, what is said of its actions, in order.
    rows: Vec<[bool; ENTRIES]>,
}

impl Model for ChangeTable {
    ghost use Rattle.std.specs.Prelude.{Bool, List};

    ghost Value = { List (List Bool) };

    ghost view = { λ t. t.rows.items };
}

impl ChangeTable {
    /// The table of a program. Where memory for it is refused it is empty.
    pub(crate) fn new(alloc: Global, program: &Program, watched: &[Watched]) -> Self
        ensures { IsTable watched.now program.now result }
    {
        let statements = program.statements();
        let Ok(mut rows) = vec![in alloc; [true; ENTRIES]; statements.len()] else {
            return ChangeTable {
                rows: Vec::new(alloc),
            };
        };
        for (number, statement) in statements.iter().enumerate() {
            rows[number] = row_of(watched, statement);
        }
        ChangeTable { rows }
    }

    /// Whether the action at a position may change what one of them reads as.
    #[inline(always)]
    pub(crate) fn says(&self, at: Position) -> bool
        ensures { result ≡ says self.now at }
    {
        match self.rows.get(usize::from(at.statement)) {
            Some(row) => row.get(usize::from(at.action)).copied().unwrap_or(true),
            None => true,
        }
    }
}

/// What is said of the actions of a statement.
fn row_of(watched: &[Watched], statement: &Statement) -> [bool; ENTRIES]
    ensures { IsRow watched.now statement.now result }
{
    let operations = statement.operations();
    let mut row = [true; ENTRIES];
    // the condition and the exit change nothing
    set_entry(&mut row, 0, false);
    set_entry(&mut row, operations.len() + 1, false);
    for (index, operation) in operations.iter().enumerate() {
        set_entry(&mut row, index + 1, changes_some(watched, operation));
    }
    row
}

/// Sets what is said of an action, if there is an entry for it.
fn set_entry(row: &mut [bool], action: usize, may_change: bool)
    ensures { row.new ≡ slice_set row.old action may_change }
{
    if action < row.len() {
        row[action] = may_change;
    }
}

/// Whether an operation may change what one of some chains and words reads as.
fn changes_some(watched: &[Watched], operation: &Op) -> bool
    ensures { result ≡ changes_some watched.now operation.now }
{
    watched.iter().any(|one| changes(operation, one))
}

/// Whether an operation may change what a chain or a word reads as.
fn changes(operation: &Op, watched: &Watched) -> bool
    ensures { result ≡ changes operation.now watched.now }
{
    match operation {
        Op::Set(chain, _)
        | Op::Add(chain, _)
        | Op::Subtract(chain, _)
        | Op::Multiply(chain, _)
        | Op::Divide(chain, _)
        | Op::Remainder(chain, _)
        | Op::And(chain, _)
        | Op::Or(chain, _)
        | Op::ExclusiveOr(chain, _)
        | Op::Complement(chain, _)
        | Op::ShiftLeft(chain, _)
        | Op::ShiftRight(chain, _)
        | Op::RestoreContent(chain)
        | Op::Input(chain, _, _) => changes_by(chain, watched),
        Op::Exchange(one, other) => changes_by(one, watched) || changes_by(other, watched),
        Op::Define(_, _, _, _) | Op::RestoreDefinition(_) => reads_fields(watched),
        Op::Get(chain, _, Some(old), _) => {
            reads_blocks(watched) || changes_by(chain, watched) || changes_by(old, watched)
        }
        Op::Get(chain, _, None, _) | Op::Duplicate(chain, _, _) | Op::Free(chain, _) => {
            reads_blocks(watched) || changes_by(chain, watched)
        }
        Op::SaveContent(_)
        | Op::SaveDefinition(_)
        | Op::Call(_, _)
        | Op::PrintCharacters(_, _)
        | Op::PrintDecimal(_)
        | Op::PrintOctal(_)
        | Op::PrintText(_)
        | Op::PrintLine => false,
    }
}

/// Whether an assignment to a chain may change what is watched: where it is a bug, the chains that begin
/// with it, and else whatever is read in blocks.
fn changes_by(target: &Chain, watched: &Watched) -> bool
    ensures { result ≡ changes_by target.now watched.now }
{
    if has_fields(target) {
        return reads_blocks(watched);
    }
    let bug = target.bug();
    match watched {
        Watched::Chain(chain) => bug.number() == chain.bug().number(),
        Watched::Word(_) => false,
    }
}

/// Whether what is watched is read in blocks: beyond its bug, or as a word of one.
fn reads_blocks(watched: &Watched) -> bool
    ensures { result ≡ reads_blocks watched.now }
{
    match watched {
        Watched::Chain(chain) => has_fields(chain),
        Watched::Word(_) => true,
    }
}

/// Whether what is watched is read by fields.
fn reads_fields(watched: &Watched) -> bool
    ensures { result ≡ reads_fields watched.now }
{
    match watched {
        Watched::Chain(chain) => has_fields(chain),
        Watched::Word(_) => false,
    }
}

/// Whether a chain leads to fields, beyond its bug.
fn has_fields(chain: &Chain) -> bool
    ensures { result ≡ has_fields chain.now }
{
    chain.names().len() > 1
}
