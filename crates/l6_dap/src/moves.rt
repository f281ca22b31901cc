//! Which states requests lead to.

ghost use Rattle.std.specs.Prelude.{◌≡◌};
ghost use Rattle.l6_dap.specs.Moves as spec;

use l6_session::Move;

/// How far one step goes.
#[derive(Clone, Copy, Debug, PartialEq, Eq)]
pub(crate) enum Granularity {
    /// To where a statement begins.
    Statement,
    /// To the next state.
    State,
}

impl Granularity {
    /// What a client calls it: `instruction` is a state, and all else a statement.
    pub(crate) fn of(name: &str) -> Self
        ensures { result ≡ spec.granularity_of name.now }
    {
        if name == "instruction" {
            Granularity::State
        } else {
            Granularity::Statement
        }
    }
}

/// Which state a request leads to, if it leads to one.
pub(crate) fn move_of(command: &str, granularity: Granularity) -> Option<Move>
    ensures { result ≡ spec.move_of command.now granularity }
{
    match command {
        "continue" => Some(Move::Continue(1)),
        "reverseContinue" => Some(Move::ReverseContinue(1)),
        "stepOut" => Some(Move::Finish),
        _ => step_of(command, granularity),
    }
}

/// Which state a request of one step leads to.
fn step_of(command: &str, granularity: Granularity) -> Option<Move>
    ensures { result ≡ spec.near_move_of command.now granularity }
{
    match granularity {
        Granularity::Statement => match command {
            "next" => Some(Move::NextStatement(1)),
            "stepIn" => Some(Move::StepStatement(1)),
            "stepBack" => Some(Move::ReverseNextStatement(1)),
            _ => None,
        },
        Granularity::State => match command {
            "next" => Some(Move::Next(1)),
            "stepIn" => Some(Move::Step(1)),
            "stepBack" => Some(Move::Back(1)),
            _ => None,
        },
    }
}

/// Whether a move goes on, so that one that leads nowhere is at the end.
pub(crate) fn goes_on(to: Move) -> bool {
    match to {
        Move::Continue(_) | Move::Finish | Move::NextStatement(_) | Move::Next(_) => true,
        Move::StepStatement(_) | Move::Step(_) => true,
        _ => false,
    }
}
