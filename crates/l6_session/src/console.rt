//! Consoles: where lines are read and texts are shown.

ghost use Rattle.std.specs.Prelude.{◌≡◌, List, Option, IfOk, ◌∷◌, [], if◌then◌else◌};
ghost use Rattle.l6_session.specs.Dialogue.{Event, GoesOn};
ghost use Rattle.l6_session.specs.Dialogue.Event.{given, shown};

use std::alloc::AllocError;

/// Why a console did not do what it was asked for.
#[derive(Clone, Copy, Debug, PartialEq, Eq)]
pub enum ConsoleFault {
    /// No line could be read.
    Read,
    /// A text could not be shown.
    Write,
    /// Memory ran out.
    NoMemory,
}

impl From<AllocError> for ConsoleFault {
    fn from(_error: AllocError) -> Self {
        ConsoleFault::NoMemory
    }
}

/// A console: it reads lines and shows texts, and what passes there has one order.
pub trait Console {
    // What has passed so far, where that is known.
    ghost passed: { Self → Option (List Event) };

    /// Reads a line in place of `line`. Answers whether there was one.
    ///
    /// # Errors
    ///
    /// No line could be read, or memory ran out.
    fn read(&mut self, line: &mut Vec<u8>) -> Result<bool, ConsoleFault>
        ensures { IfOk result (λ is_one. GoesOn (passed self.old) (passed self.new)
            (if is_one then given line.new.items ∷ [] else [])) };

    /// Shows a text.
    ///
    /// # Errors
    ///
    /// It could not be shown whole.
    fn show(&mut self, text: &[u8]) -> Result<(), ConsoleFault>
        ensures { IfOk result (λ _. GoesOn (passed self.old) (passed self.new)
            (shown text.now ∷ [])) };
}
