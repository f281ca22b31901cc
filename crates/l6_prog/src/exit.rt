//! Exits.

ghost use Rattle.std.specs.Prelude.{◌≡◌};
ghost use Rattle.std.specs.List.{list_all};
ghost use Rattle.l6_prog.specs.Target.{targets_of_exit, is_below};

/// Where a run goes after a statement's last operation. `L` is what names a statement: its number
/// in a program, its label in a deck.
// An exit to a number can be copied. One to a label's text can't, so it derives `Drop`.
#[derive(Clone, Copy, Debug, Drop, PartialEq, Eq, Hash)]
pub enum Exit<L = u16> {
    /// No exit is written: the next statement follows.
    Next,
    /// A label: its statement follows.
    Label(L),
    /// `DONE`: the latest call has succeeded, and the run goes on after it. If no call waits, the
    /// run ends.
    Done,
    /// `FAIL`: the latest call has failed, and the run goes on at the call's fail label. If no call
    /// waits, the run ends.
    Fail,
}

impl Exit {
    /// Whether the exit's target, if it has one, is below a number.
    pub(crate) fn leads_below(self, end: usize) -> bool
        ensures { result ≡ list_all (is_below end) (targets_of_exit self) }
    {
        match self {
            Exit::Label(target) => usize::from(target) < end,
            _ => true,
        }
    }
}
