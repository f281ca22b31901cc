//! Builders of statements, item by item.

ghost use Rattle.std.specs.Prelude.{◌≡◌, ◌+◌, ◌≤◌, ◌==◌, ◌&&◌, [], length, is_some, IfOk, IfErr, IfSome, OnOk};
ghost use Rattle.l6_group.specs.Operation.{operation_of};
ghost use Rattle.l6_group.specs.Test.{test_of};
ghost use Rattle.l6_group.specs.Character.{spelled};
ghost use Rattle.l6_group.specs.Word.{condition_from, after_then};
ghost use Rattle.l6_card.specs.DeckFault.{deck_fault};
ghost use Rattle.l6_card.specs.Order as order;
ghost use Rattle.l6_card.specs.Numerals.{most_deck_bytes};
ghost use Rattle.l6_card.specs.inner.StatementBuilder as spec;
ghost use Rattle.l6_card.specs.Items.{group};
ghost use Rattle.l6_card.specs.Statement.{placed_exit};
ghost use Rattle.l6_card.specs.inner.KeptBuilder.{phase_of_kept, kept_builder, statement_of_parts, Takes};

use crate::cards::{Parts, Placed, PlacedLabel};
use crate::fault::CardFault;
use crate::objection::Reason;
use crate::solid::has_then;
use crate::span::Span;
use l6_group::{
    Label, Spelling, after_then, condition_from, exit_from, operation_of, spelled, test_of,
};
use l6_prog::{Cond, Exit, MAX_OPERATIONS, MAX_TESTS, Op, Test};
use std::alloc::{AllocError, Global};
use std::mem;

/// How many characters a word may have: those of THEN and of a label.
const MAX_WORD: usize = 10;

/// How far the items of a statement have come.
#[derive(Clone, Copy, Debug)]
pub(crate) enum Phase {
    /// There is no item so far.
    New,
    /// A word that is this condition where a group follows, and else an exit.
    Worded(Cond),
    /// A condition and its tests so far. THEN must follow.
    Tested,
    /// Operations may follow, and an exit.
    Open,
    /// The exit has come, and nothing may follow.
    Closed,
}

/// What the items of a statement so far make of it.
#[derive(Drop)]
pub(crate) struct StatementBuilder {
    phase: Phase,
    condition: Cond,
    tests: Vec<Placed<Test>>,
    operations: Vec<Placed<Op<Label>>>,
    exit: Exit<PlacedLabel>,
}

impl StatementBuilder {
    /// The builder of a statement without items.
    pub(crate) fn new(alloc: Global) -> Self
        ensures { kept_builder result ≡ spec.new_builder }
    {
        StatementBuilder {
            phase: Phase::New,
            condition: Cond::Always,
            tests: Vec::new(alloc),
            operations: Vec::new(alloc),
            exit: Exit::Next,
        }
    }

    /// A copy of the builder, in lists that have just room for its items. This builder then has no
    /// items, and keeps its room for the next statement.
    pub(crate) fn take(&mut self, alloc: Global) -> Result<Self, AllocError>
        ensures taken { IfOk result (λ builder. kept_builder builder ≡ kept_builder self.old) }
        ensures left { OnOk result (kept_builder self.new ≡ spec.new_builder) }
    {
        let builder = StatementBuilder {
            phase: self.phase,
            condition: self.condition,
            tests: take_all(alloc, &mut self.tests)?,
            operations: take_all(alloc, &mut self.operations)?,
            exit: mem::replace(&mut self.exit, Exit::Next),
        };
        self.phase = Phase::New;
        self.condition = Cond::Always;
        Ok(builder)
    }

    /// Whether the items are a whole statement.
    pub(crate) fn is_whole(&self) -> bool
        ensures { result ≡ spec.is_whole (kept_builder self.now) }
    {
        match self.phase {
            Phase::Tested => false,
            _ => true,
        }
    }

    /// The parts of the statement with this label.
    pub(crate) fn into_parts(self, label: Option<PlacedLabel>) -> Parts
        ensures { statement_of_parts result ≡ spec.statement_from label (kept_builder self) }
    {
        let StatementBuilder {
            phase: _,
            condition,
            tests,
            operations,
            exit,
        } = self;
        Parts {
            label,
            condition,
            tests,
            operations,
            exit,
        }
    }

    /// Takes a group on this card, whose `(` has this offset in the deck, with these columns between its
    /// parentheses.
    pub(crate) fn take_group(
        &mut self,
        card: u32,
        offset: usize,
        columns: &[u8],
    ) -> Result<(), CardFault>
        requires { offset + length columns.now + 2 ≤ most_deck_bytes }
        ensures taken { let made = spec.with_item card (kept_builder self.old) (group offset columns.now) in
            Takes result (kept_builder self.new) made }
        ensures left { IfErr result (λ fault. IfSome (deck_fault fault) (λ _.
            kept_builder self.new ≡ kept_builder self.old)) }
    {
        // A deck is shorter than a `u32` can say.
        let span = Span {
            offset: offset as u32,
            length: columns.len() as u32 + 2,
        };
        match self.phase {
            Phase::New | Phase::Open => self.take_operation(card, span, columns),
            Phase::Worded(condition) => self.take_test(card, span, condition, columns),
            Phase::Tested => match self.condition {
                Cond::If | Cond::Not => Err(CardFault::Form(card)),
                condition => self.take_test(card, span, condition, columns),
            },
            Phase::Closed => Err(CardFault::Form(card)),
        }
    }

    /// The operation that a group with these columns spells, if it is one.
    fn take_operation(&mut self, card: u32, span: Span, columns: &[u8]) -> Result<(), CardFault>
        ensures taken { let operation = operation_of columns.now in
            let made = spec.with_operation card span (kept_builder self.old) operation in
            Takes result (kept_builder self.new) made }
        ensures left { IfErr result (λ fault. IfSome (deck_fault fault) (λ _.
            kept_builder self.new ≡ kept_builder self.old)) }
    {
        let reading = operation_of(columns).ok_or(CardFault::Form(card))?;
        if self.operations.len() >= MAX_OPERATIONS {
            return Err(CardFault::Limit(card));
        }
        self.operations
            .push(Placed {
                reading,
                card,
                span,
            })
            .map_err(|_| CardFault::NoMemory)?;
        self.phase = Phase::Open;
        Ok(())
    }

    /// The test of this condition that a group with these columns spells, if it is one.
    fn take_test(
        &mut self,
        card: u32,
        span: Span,
        condition: Cond,
        columns: &[u8],
    ) -> Result<(), CardFault>
        ensures taken { let test = test_of columns.now in
            let made = spec.with_test card span (kept_builder self.old) condition test in
            Takes result (kept_builder self.new) made }
        ensures left { IfErr result (λ fault. IfSome (deck_fault fault) (λ _.
            kept_builder self.new ≡ kept_builder self.old)) }
    {
        let reading = test_of(columns).ok_or(CardFault::Form(card))?;
        if self.tests.len() >= MAX_TESTS {
            return Err(CardFault::Limit(card));
        }
        self.tests
            .push(Placed {
                reading,
                card,
                span,
            })
            .map_err(|_| CardFault::NoMemory)?;
        self.phase = Phase::Tested;
        self.condition = condition;
        self.exit = Exit::Next;
        Ok(())
    }

    /// A word on this card, of the letters of these columns.
    pub(crate) fn take_word(&mut self, card: u32, columns: &[u8]) -> Result<(), CardFault>
        ensures taken { let made = spec.with_characters card (kept_builder self.old) (spelled columns.now) in
            Takes result (kept_builder self.new) made }
        ensures left { IfErr result (λ fault. IfSome (deck_fault fault) (λ _.
            kept_builder self.new ≡ kept_builder self.old)) }
    {
        let characters: Option<Spelling<'_, MAX_WORD>> = spelled(columns);
        match characters {
            None => Err(CardFault::Form(card)),
            Some(characters) => self.take_characters(card, characters.as_slice()),
        }
    }

    /// A word of these characters.
    fn take_characters(&mut self, card: u32, characters: &[u8]) -> Result<(), CardFault>
        ensures taken { let made = spec.with_characters card (kept_builder self.old) characters.now in
            Takes result (kept_builder self.new) made }
        ensures left { IfErr result (λ fault. IfSome (deck_fault fault) (λ _.
            kept_builder self.new ≡ kept_builder self.old)) }
    {
        match self.phase {
            Phase::New => self.take_first(card, characters),
            Phase::Open => self.take_exit(card, Phase::Closed, characters),
            Phase::Tested => self.take_then(card, characters),
            _ => Err(CardFault::Form(card)),
        }
    }

    /// A first word of these characters.
    fn take_first(&mut self, card: u32, characters: &[u8]) -> Result<(), CardFault>
        ensures taken { let made = spec.with_first card (kept_builder self.old) characters.now in
            Takes result (kept_builder self.new) made }
        ensures left { IfErr result (λ fault. IfSome (deck_fault fault) (λ _.
            kept_builder self.new ≡ kept_builder self.old)) }
    {
        let phase = first_phase(characters);
        self.take_exit(card, phase, characters)
    }

    /// A word that must begin with THEN.
    fn take_then(&mut self, card: u32, characters: &[u8]) -> Result<(), CardFault>
        ensures taken { let made = spec.with_then card (kept_builder self.old) characters.now in
            Takes result (kept_builder self.new) made }
        ensures left { IfErr result (λ fault. IfSome (deck_fault fault) (λ _.
            kept_builder self.new ≡ kept_builder self.old)) }
    {
        match after_then(characters) {
            None => Err(CardFault::Form(card)),
            Some(following) => {
                if following.is_empty() {
                    self.phase = Phase::Open;
                    return Ok(());
                }
                self.take_exit(card, Phase::Closed, following)
            }
        }
    }

    /// The exit that characters spell, and the phase that it leads to.
    fn take_exit(&mut self, card: u32, phase: Phase, characters: &[u8]) -> Result<(), CardFault>
        ensures taken { let made = spec.with_exit card (kept_builder self.old) (phase_of_kept phase) characters.now in
            Takes result (kept_builder self.new) made }
        ensures left { IfErr result (λ fault. IfSome (deck_fault fault) (λ _.
            kept_builder self.new ≡ kept_builder self.old)) }
    {
        let exit = exit_from(characters).ok_or(CardFault::Form(card))?;
        self.exit = placed_exit(card, exit);
        self.phase = phase;
        Ok(())
    }
}

impl StatementBuilder {
    /// Why a group with these columns may not stand next.
    #[inline(never)] // so that items that are taken pay nothing for it
    pub(crate) fn group_reason(&self, columns: &[u8]) -> Reason
        ensures { let is_test = is_some (test_of columns.now) in
            let expected = spec.expected_in (kept_builder self.now) in
            result ≡ order.group_reason expected is_test (is_some (operation_of columns.now)) }
    {
        match self.phase {
            Phase::New | Phase::Open => no_operation(columns),
            Phase::Worded(_) => no_first_test(columns),
            Phase::Tested => no_further_test(columns),
            Phase::Closed => {
                if self.is_word_alone() {
                    Reason::NoCondition
                } else {
                    Reason::AfterExit
                }
            }
        }
    }

    /// Why a word with these columns may not stand next.
    #[inline(never)] // so that items that are taken pay nothing for it
    pub(crate) fn word_reason(&self, columns: &[u8]) -> Reason
        ensures { let has_then = is_some (after_then (spelled columns.now)) in
            result ≡ order.word_reason (spec.expected_in (kept_builder self.now)) has_then }
    {
        match self.phase {
            Phase::New | Phase::Open => Reason::NoExit,
            Phase::Tested => {
                if has_then(columns) {
                    Reason::NoExit
                } else {
                    Reason::NoThen
                }
            }
            Phase::Worded(_) | Phase::Closed => Reason::AfterExit,
        }
    }

    /// Whether there is neither a test nor an operation.
    fn is_word_alone(&self) -> bool
        ensures { let builder = kept_builder self.now in
            result ≡ (length builder.tests == 0 && length builder.operations == 0) }
    {
        self.tests.is_empty() && self.operations.is_empty()
    }
}

/// Why a group with these columns is no operation.
fn no_operation(columns: &[u8]) -> Reason
    ensures { let is_test = is_some (test_of columns.now) in
        result ≡ order.group_reason order.operation_or_exit is_test
        (is_some (operation_of columns.now)) }
{
    if test_of(columns).is_some() {
        Reason::TestForOperation
    } else {
        Reason::NoOperation
    }
}

/// Why a group with these columns is no first test.
fn no_first_test(columns: &[u8]) -> Reason
    ensures { let is_test = is_some (test_of columns.now) in
        result ≡ order.group_reason order.first_test is_test (is_some (operation_of columns.now)) }
{
    if operation_of(columns).is_some() {
        Reason::OperationForTest
    } else {
        Reason::NoTest
    }
}

/// Why a group with these columns is no further test.
fn no_further_test(columns: &[u8]) -> Reason
    ensures { let is_test = is_some (test_of columns.now) in
        result ≡ order.group_reason order.test_or_then is_test
        (is_some (operation_of columns.now)) }
{
    if test_of(columns).is_some() {
        Reason::SecondTest
    } else if operation_of(columns).is_some() {
        Reason::ThenMissing
    } else {
        Reason::NoTest
    }
}

/// All entries of a list, in one that has just room for them. The list is left empty, and keeps its
/// room.
fn take_all<T: Drop>(alloc: Global, list: &mut Vec<T>) -> Result<Vec<T>, AllocError>
    ensures taken { IfOk result (λ taken. taken.items ≡ list.old.items) }
    ensures left { OnOk result (list.new.items ≡ []) }
{
    let mut taken = Vec::with_capacity(alloc, list.len())?;
    taken.append(list)?;
    Ok(taken)
}

/// The phase after a first word of these characters, which may be a condition.
fn first_phase(characters: &[u8]) -> Phase
    ensures { phase_of_kept result ≡ spec.phase_of (condition_from characters.now) }
{
    match condition_from(characters) {
        Some(condition) => Phase::Worded(condition),
        None => Phase::Closed,
    }
}

/// An exit that is on this card.
fn placed_exit(card: u32, exit: Exit<Label>) -> Exit<PlacedLabel>
    ensures { result ≡ placed_exit card exit }
{
    match exit {
        Exit::Next => Exit::Next,
        Exit::Label(label) => Exit::Label(PlacedLabel { label, card }),
        Exit::Done => Exit::Done,
        Exit::Fail => Exit::Fail,
    }
}
