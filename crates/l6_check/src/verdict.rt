//! The error at which the assembly of a deck stops, plainly.

ghost use Rattle.std.specs.Prelude.{◌≡◌, IfOk};
ghost use Rattle.l6_asm.specs.AssemblyFault.{assembly_fault};
ghost use Rattle.l6_check.specs.Faults.{fault_of_finding};
ghost use Rattle.l6_check.specs.inner.Names.{is_no_label};
ghost use Rattle.l6_check.specs.Verdict as spec;

use crate::fault::OutOfMemory;
use crate::finding::{Finding, Span};
use crate::parts::line_on;
use crate::reason::{FormReason, LabelText, LimitReason, MissingLabel, Reason};
use l6_asm::AsmFault;
use l6_card::columns_of;
use l6_group::MAX_LABEL_CHARACTERS;

/// The error that this fault of the assembler is, plainly.
pub(crate) fn plain<'a>(deck: &'a [u8], fault: AsmFault) -> Result<Finding<'a>, OutOfMemory>
    ensures { IfOk result (λ finding. spec.Tells finding fault) }
{
    match fault {
        AsmFault::Form(card) => Ok(whole_card(deck, card, Reason::Form(FormReason::Unread))),
        AsmFault::Limit(card) => Ok(whole_card(deck, card, Reason::Limit(LimitReason::Statements))),
        AsmFault::TwiceLabelled(card) => Ok(whole_card(deck, card, Reason::TwiceLabelled(card))),
        AsmFault::NoLabel(card) => Ok(whole_card(deck, card, no_label())),
        AsmFault::NoMemory => Err(OutOfMemory),
    }
}

/// The reason that no card gives some label.
fn no_label() -> Reason
    ensures { is_no_label result }
{
    Reason::NoLabel(MissingLabel {
        label: LabelText {
            characters: [0; MAX_LABEL_CHARACTERS],
            count: 0,
        },
        near: None,
    })
}

/// A finding on all columns of a card that count.
fn whole_card<'a>(deck: &'a [u8], card: u32, reason: Reason) -> Finding<'a>
    ensures number { result.card ≡ card }
    ensures why { result.reason ≡ reason }
{
    let line = line_on(deck, 0, card);
    Finding {
        card,
        span: Span::whole(),
        text: columns_of(line),
        line,
        reason,
    }
}
