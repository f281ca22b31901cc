//! What is ahead of a column on the cards of a statement: groups that are not marked, and those that are.

ghost use Rattle.std.specs.Prelude.{◌≡◌};
ghost use Rattle.l6_marks.specs.Marks as spec;

use l6_prog::{Program, Statement};
use l6_steps::Position;
use l6_word::is_blank;

/// What is ahead of a column on the cards of a statement.
#[derive(Clone, Copy, Debug, PartialEq, Eq)]
pub(crate) struct Ahead {
    /// How many groups come before those that are marked.
    pub(crate) unmarked: u64,
    /// How many groups are marked then.
    pub(crate) marked: u64,
    /// Whether the exit is marked, which follows all groups.
    pub(crate) marks_exit: bool,
    /// Whether a group has begun, and not ended.
    pub(crate) is_inside: bool,
}

impl Ahead {
    /// So many groups, and then so many that are marked.
    fn groups(unmarked: u64, marked: u64) -> Self
        ensures { result ≡ spec.groups unmarked marked }
    {
        Ahead {
            unmarked,
            marked,
            marks_exit: false,
            is_inside: false,
        }
    }

    /// So many groups, and then the exit, which is marked.
    fn exit(unmarked: u64) -> Self
        ensures { result ≡ spec.exit unmarked }
    {
        Ahead {
            unmarked,
            marked: 0,
            marks_exit: true,
            is_inside: false,
        }
    }

    /// The same at a column: a group may begin there.
    pub(crate) fn at(self, column: u8) -> Self
        ensures { result ≡ spec.at self column }
    {
        Ahead {
            is_inside: self.is_inside || column == b'(',
            ..self
        }
    }

    /// The same after that column: a group may have ended there.
    pub(crate) fn past(self, column: u8) -> Self
        ensures { result ≡ spec.past self column }
    {
        if self.is_inside && column == b')' {
            self.without_group()
        } else {
            self
        }
    }

    /// The same after a group.
    fn without_group(self) -> Self
        ensures { result ≡ spec.without_group self }
    {
        if self.unmarked == 0 {
            Ahead {
                marked: self.marked.saturating_sub(1),
                is_inside: false,
                ..self
            }
        } else {
            Ahead {
                unmarked: self.unmarked - 1,
                is_inside: false,
                ..self
            }
        }
    }

    /// Whether the column is marked at which this is ahead.
    pub(crate) fn marks(self, column: u8) -> bool
        ensures { result ≡ spec.is_marked self column }
    {
        if self.unmarked != 0 {
            false
        } else if self.is_inside {
            self.marked != 0
        } else {
            self.marks_exit && !is_blank(column)
        }
    }
}

/// What is ahead on the cards of the statement of a position, of which the action is marked.
pub(crate) fn ahead_of(program: &Program, at: Position) -> Ahead
    ensures { result ≡ spec.ahead_of program.now at }
{
    match program.statements().get(usize::from(at.statement)) {
        Some(statement) => ahead_in(statement, u64::from(at.action)),
        None => Ahead::groups(0, 0),
    }
}

/// What is ahead on the cards of a statement, of which an action is marked.
fn ahead_in(statement: &Statement, action: u64) -> Ahead
    ensures { result ≡ spec.ahead_in statement.now action }
{
    let tests = statement.tests().len() as u64;
    let operations = statement.operations().len() as u64;
    if action == 0 {
        Ahead::groups(0, tests)
    } else if action <= operations {
        Ahead::groups(tests + (action - 1), 1)
    } else {
        Ahead::exit(tests + operations)
    }
}
