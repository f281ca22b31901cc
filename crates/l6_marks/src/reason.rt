//! Why a run has trapped, in words.

ghost use Rattle.std.specs.Prelude.{◌≡◌, ◌++◌, OnOk};
ghost use Rattle.l6_marks.specs.Reasons as spec;

use l6_steps::Trap;
use std::alloc::AllocError;

/// Adds why a run has trapped.
pub(crate) fn push_reason(text: &mut Vec<u8>, trap: Trap) -> Result<(), AllocError>
    ensures { OnOk result (text.new.items ≡ text.old.items ++ spec.reason_line trap) }
{
    text.extend_from_slice(b"      because ")?;
    push_meaning(text, trap)?;
    text.extend_from_slice(b"\n")
}

/// Adds what a trap means.
fn push_meaning(text: &mut Vec<u8>, trap: Trap) -> Result<(), AllocError>
    ensures { OnOk result (text.new.items ≡ text.old.items ++ spec.reason_of trap) }
{
    text.extend_from_slice(reason_of(trap))
}

/// What a trap means.
#[tactic(auto, unfolding(crate::specs::Reasons::reason_of))]
fn reason_of(trap: Trap) -> &'static [u8]
    ensures { result.now ≡ spec.reason_of trap }
{
    match trap {
        Trap::UndefinedField => b"a chain names a field that has no definition",
        Trap::NotABlock =>
            b"no block begins where a chain or an operand leads: a link was not set, or the block there was freed",
        Trap::WordOutsideBlock =>
            b"the word of a field is past the end of the block to which the chain leads",
        Trap::BadDefinition =>
            b"a definition has a word past 1023, a bit past 35, or a first bit after its last",
        Trap::ZeroDivisor => b"a division by 0",
        Trap::BadSize => b"a block of no word, or of more than 1024, was asked for",
        Trap::StoreFull =>
            b"no place is open for a block of this size, and the operation has no label for that",
        Trap::InputEnded =>
            b"the input has too few characters left, and the operation has no label for that",
        Trap::PushdownEmpty => b"nothing is saved that could be restored",
        Trap::PushdownFull => b"the pushdown has all the entries that it may have",
        Trap::ReturnsFull =>
            b"as many calls wait for their return as may: a recursion without an end?",
        Trap::NoFailExit => b"FAIL returns from a call that has no fail label",
        Trap::BadCount => b"fewer than 1 or more than 6 characters are asked for",
        Trap::OutputFull => b"the output would pass its limit (--output)",
    }
}
