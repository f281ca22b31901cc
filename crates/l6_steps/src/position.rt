//! Positions in a program.

ghost use Rattle.std.specs.Prelude.{◌≡◌, ◌+◌, ◌≤◌};
ghost use Rattle.l6_prog.specs.Numerals.{most_operations};

/// Where a run is.
#[derive(Clone, Copy, Debug, PartialEq, Eq, Hash)]
pub struct Position {
    /// The statement, from 0.
    pub statement: u16,
    /// The action of the statement: 0 is its condition, 1 to k are its k operations, k + 1 is its
    /// exit.
    pub action: u8,
}

impl Position {
    ghost use Rattle.l6_steps.specs.Step.{following, start_of};

    /// The position after this one: that of the next action.
    pub fn following(self) -> Self
        requires { self.action ≤ most_operations + 1 }
        ensures { result ≡ following self }
    {
        Position {
            statement: self.statement,
            action: self.action + 1,
        }
    }

    /// The position of a statement's condition.
    pub fn start_of(statement: u16) -> Self
        ensures { result ≡ start_of statement }
    {
        Position {
            statement,
            action: 0,
        }
    }
}
