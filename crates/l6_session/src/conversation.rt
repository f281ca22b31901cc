//! Conversations: lines are read at a console, and answered.

ghost use Rattle.std.specs.Prelude.{◌≡◌, ℕ, Bool, List, IfOk, OnOk};
ghost use Rattle.l6_session.specs.Dialogue.{Converses, asked};

use crate::console::{Console, ConsoleFault};
use l6_group::are_blank;
use std::alloc::{AllocError, Global};
use std::mem;

/// What answers lines.
pub trait Answerer {
    // Which texts answer a line, where it leads, and whether it ends the session.
    ghost Answers: { Self → List ℕ → List ℕ → Type 0 };

    ghost after: { Self → List ℕ → Self };

    ghost ends_by: { Self → List ℕ → Bool };

    /// Whether a line ends the session.
    fn ends(&self, line: &[u8]) -> bool
        ensures { result ≡ ends_by self.now line.now };

    /// Goes where a line leads, and answers it.
    ///
    /// # Errors
    ///
    /// Memory ran out for the answer.
    fn answer(&mut self, alloc: Global, line: &[u8]) -> Result<Vec<u8>, AllocError>
        ensures text { IfOk result (λ text. Answers self.old line.now text.items) }
        ensures after { self.new ≡ after self.old line.now };
}

/// Reads lines up to one that ends the session or to the last one, each after a prompt. Each is
/// answered before the next one is read. An empty line asks for what the last one asked for.
///
/// # Errors
///
/// A line could not be read, or a text not be shown, or memory ran out.
pub fn converse<A: Answerer, C: Console>(
    alloc: Global,
    answerer: &mut A,
    console: &mut C,
    prompt: &[u8],
) -> Result<(), ConsoleFault>
    ensures { OnOk result (Converses A.Answers A.after A.ends_by prompt.now
        answerer.old answerer.new
        (C.passed console.old) (C.passed console.new)) }
{
    let mut line = Vec::new(alloc);
    let mut last = Vec::new(alloc);
    'lines: for _ in 0..u64::MAX {
        console.show(prompt)?;
        if !console.read(&mut line)? {
            return Ok(());
        }
        keep_asked(&mut line, &mut last);
        if answerer.ends(last.as_slice()) {
            return Ok(());
        }
        let text = answerer.answer(alloc, last.as_slice())?;
        console.show(text.as_slice())?;
    }
    Err(ConsoleFault::Read)
}

/// Makes the last line what a line asks for: that line, or, if it is empty, what was there.
fn keep_asked(line: &mut Vec<u8>, last: &mut Vec<u8>)
    ensures { last.new.items ≡ asked last.old.items line.old.items }
{
    if !are_blank(line.as_slice()) {
        mem::swap(line, last);
    }
}
