//! Operations that always trap, whatever their chains read.

ghost use Rattle.std.specs.Prelude.{◌≡◌, ◌||◌, [], is_some};
ghost use Rattle.std.specs.List.{list_any};
ghost use Rattle.l6_check.specs.declared.reason.CertainTrap.TheVariants as CertainTrap;
ghost use Rattle.l6_check.specs.Certain as spec;

use crate::reason::CertainTrap;
use l6_prog::{Op, Operand, Statement};

/// The number of the last word that a block may have.
const LAST_WORD: u64 = 1_023;
/// The number of the last bit of a word.
const LAST_BIT: u64 = 35;
/// How many words the largest block has.
const MAX_WORDS: u64 = 1_024;
/// How many characters are taken or printed at most.
const MAX_COUNT: u64 = 6;

/// How an operation always traps, if it does.
pub(crate) fn certain_trap<L>(operation: &Op<L>) -> Option<CertainTrap>
    ensures { result ≡ spec.certain_trap operation.now }
{
    match operation {
        Op::Define(_, word, first, last) => definition_trap(word, first, last),
        Op::Divide(_, divisor) | Op::Remainder(_, divisor) => {
            trap_if(is_zero(divisor), CertainTrap::ZeroDivisor)
        }
        Op::Get(_, size, _, _) => {
            trap_if(
                is_zero(size) || is_above(size, MAX_WORDS),
                CertainTrap::BadSize,
            )
        }
        Op::Input(_, count, _) | Op::PrintCharacters(_, count) => {
            trap_if(
                is_zero(count) || is_above(count, MAX_COUNT),
                CertainTrap::BadCount,
            )
        }
        _ => None,
    }
}

/// How the definition of a field always traps, if it does.
fn definition_trap(word: &Operand, first: &Operand, last: &Operand) -> Option<CertainTrap>
    ensures { result ≡ spec.trap_if (spec.is_above 1023 word.now || spec.is_above 35 first.now
        || spec.is_above 35 last.now || spec.is_greater first.now last.now) CertainTrap.BadDefinition }
{
    let is_bad = is_above(word, LAST_WORD)
        || is_above(first, LAST_BIT)
        || is_above(last, LAST_BIT)
        || is_greater(first, last);
    trap_if(is_bad, CertainTrap::BadDefinition)
}

/// This trap, if something is so.
fn trap_if(is_so: bool, trap: CertainTrap) -> Option<CertainTrap>
    ensures { result ≡ spec.trap_if is_so trap }
{
    if is_so {
        return Some(trap);
    }
    None
}

/// Whether an operand is a number above this one.
fn is_above(operand: &Operand, most: u64) -> bool
    ensures { result ≡ spec.is_above most operand.now }
{
    match operand {
        Operand::Chain(_) => false,
        Operand::Number(number) => number.get() > most,
    }
}

/// Whether an operand is the number 0.
fn is_zero(operand: &Operand) -> bool
    ensures { result ≡ spec.is_zero operand.now }
{
    match operand {
        Operand::Chain(_) => false,
        Operand::Number(number) => number.get() == 0,
    }
}

/// Whether both operands are numbers, and the first is greater.
fn is_greater(first: &Operand, last: &Operand) -> bool
    ensures { result ≡ spec.is_greater first.now last.now }
{
    match (first, last) {
        (Operand::Number(first), Operand::Number(last)) => first.get() > last.get(),
        _ => false,
    }
}

/// Whether the statement of this number has an operation that always traps.
pub(crate) fn has_trap(statements: &[Statement], number: usize) -> bool
    ensures { result ≡ spec.traps_in statements.now number [] }
{
    match statements.get(number) {
        None => false,
        Some(statement) => has_certain_trap(statement.operations()),
    }
}

/// Whether some operation always traps.
fn has_certain_trap(operations: &[Op]) -> bool
    ensures { result ≡ list_any (λ operation. is_some (spec.certain_trap operation)) operations.now }
{
    operations
        .iter()
        .any(|operation| certain_trap(operation).is_some())
}

/// How the first operation that always traps does so, of the statement of this number.
pub(crate) fn first_trap(statements: &[Statement], number: usize) -> Option<CertainTrap> {
    let statement = statements.get(number)?;
    for operation in statement.operations() {
        if let Some(trap) = certain_trap(operation) {
            return Some(trap);
        }
    }
    None
}
