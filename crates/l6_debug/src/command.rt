//! The commands of the debugger.

/// What may be asked of a session.
#[derive(Clone, Copy, Debug, PartialEq, Eq)]
pub enum Command {
    /// Go so many states on, at most to the last one.
    Step(u64),
    /// Go to the next state that is at a statement with a breakpoint, or to the last one.
    Go,
    /// Go so many states back, at most to the start.
    Back(u64),
    /// Set a breakpoint at a statement.
    Break(u64),
    /// Remove the breakpoint of a statement.
    Clear(u64),
    /// Show what the bugs hold, and how much is saved, taken and printed.
    Show,
    /// Show what fields are defined as.
    Fields,
    /// Show the words of the block that begins at a place.
    Block(u64),
    /// Draw the blocks that are reached, and where their fields lead.
    Draw,
    /// Show the map of the store.
    Store,
    /// Show what has been printed.
    Out,
}

/// What a line of commands is.
#[derive(Clone, Copy, Debug, PartialEq, Eq)]
pub(crate) enum Reading {
    /// It has no words.
    Skipped,
    /// It is no command.
    Wrong,
    /// It ends the session.
    Quit,
    /// It asks for this.
    Asked(Command),
}
