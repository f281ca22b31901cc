//! The groups that are operations, by their number of elements.

ghost use Rattle.std.specs.Prelude.{◌≡◌, codes};
ghost use Rattle.l6_group.specs.Operation as spec;

use crate::cut::first_element;
use crate::element::{chain_if_given, chain_of, field_of, name_of, nothing_given, operand_of};
use crate::label::{Label, label_of};
use crate::number::print_text_of;
use crate::spelling::{Spelling, spelled};
use crate::value::value_of;
use l6_prog::{Chain, Op, Operand};

/// How many characters the longest spelling has.
const MAX_SPELLING: usize = 2;

/// The spelling of an operation or a test, as the tables have it.
pub(crate) type OperationWord<'a> = Spelling<'a, MAX_SPELLING>;

/// The operation that a group with these columns between its parentheses spells. The number of
/// elements decides how they are read.
pub fn operation_of(columns: &[u8]) -> Option<Op<Label>>
    ensures { result ≡ spec.operation_of columns.now }
{
    let Some((first, others)) = first_element(columns) else {
        return of_one(columns);
    };
    let Some((second, others)) = first_element(others) else {
        return of_two(first, others);
    };
    let Some((third, others)) = first_element(others) else {
        return of_three(first, second, others);
    };
    let Some((fourth, others)) = first_element(others) else {
        return of_four(first, second, third, others);
    };
    match first_element(others) {
        None => of_five(first, second, third, fourth, others),
        Some(_) => None,
    }
}

/// The operation of one element.
fn of_one(verb: &[u8]) -> Option<Op<Label>>
    ensures { result ≡ spec.of_one verb.now }
{
    let verb: OperationWord<'_> = spelled(verb)?;
    match verb.as_slice() {
        b"PL" => Some(Op::PrintLine),
        _ => None,
    }
}

/// The operation of two elements.
fn of_two(a: &[u8], verb: &[u8]) -> Option<Op<Label>>
    ensures { result ≡ spec.of_two a.now verb.now }
{
    let verb: OperationWord<'_> = spelled(verb)?;
    match verb.as_slice() {
        b"FR" => free(a),
        b"DO" => call(a),
        b"PD" => print_decimal(a),
        b"PO" => print_octal(a),
        b"PH" => print_text(a),
        _ => None,
    }
}

/// `(c,FR)`.
fn free(chain: &[u8]) -> Option<Op<Label>>
    ensures { result ≡ spec.of_two chain.now (codes "FR") }
{
    Some(Op::Free(chain_of(chain)?, None))
}

/// `(L,DO)`.
fn call(label: &[u8]) -> Option<Op<Label>>
    ensures { result ≡ spec.of_two label.now (codes "DO") }
{
    Some(Op::Call(label_of(label)?, None))
}

/// `(c,PD)`.
fn print_decimal(chain: &[u8]) -> Option<Op<Label>>
    ensures { result ≡ spec.of_two chain.now (codes "PD") }
{
    Some(Op::PrintDecimal(chain_of(chain)?))
}

/// `(c,PO)`.
fn print_octal(chain: &[u8]) -> Option<Op<Label>>
    ensures { result ≡ spec.of_two chain.now (codes "PO") }
{
    Some(Op::PrintOctal(chain_of(chain)?))
}

/// `(text,PH)`.
fn print_text(text: &[u8]) -> Option<Op<Label>>
    ensures { result ≡ spec.of_two text.now (codes "PH") }
{
    Some(Op::PrintText(print_text_of(text)?))
}

/// The operation of three elements.
#[inline(never)] // so that its answer is copied whole, and not piece by piece
fn of_three(a: &[u8], verb: &[u8], b: &[u8]) -> Option<Op<Label>>
    ensures { result ≡ spec.of_three a.now verb.now b.now }
{
    let verb: OperationWord<'_> = spelled(verb)?;
    match verb.as_slice() {
        b"I" => exchange(a, b),
        b"FC" => content_operation(a, b),
        b"FD" => definition_operation(a, b),
        b"GT" => get(a, b),
        b"DP" => duplicate(a, b),
        b"FR" => free_and_set(a, b),
        b"DO" => call_or_fail(a, b),
        b"IN" => input(a, b),
        b"PR" => print_characters(a, b),
        verb => field_operation(verb, a, b),
    }
}

/// `(c,I,c2)`.
fn exchange(one: &[u8], other: &[u8]) -> Option<Op<Label>>
    ensures { result ≡ spec.of_three one.now (codes "I") other.now }
{
    Some(Op::Exchange(chain_of(one)?, chain_of(other)?))
}

/// `(c,GT,cd)`.
fn get(chain: &[u8], size: &[u8]) -> Option<Op<Label>>
    ensures { result ≡ spec.of_three chain.now (codes "GT") size.now }
{
    Some(Op::Get(chain_of(chain)?, operand_of(size)?, None, None))
}

/// `(c,DP,cd)`.
fn duplicate(chain: &[u8], block: &[u8]) -> Option<Op<Label>>
    ensures { result ≡ spec.of_three chain.now (codes "DP") block.now }
{
    Some(Op::Duplicate(chain_of(chain)?, operand_of(block)?, None))
}

/// `(c,FR,cd)`.
fn free_and_set(chain: &[u8], value: &[u8]) -> Option<Op<Label>>
    ensures { result ≡ spec.of_three chain.now (codes "FR") value.now }
{
    Some(Op::Free(chain_of(chain)?, Some(operand_of(value)?)))
}

/// `(L,DO,L2)`.
fn call_or_fail(called: &[u8], fail: &[u8]) -> Option<Op<Label>>
    ensures { result ≡ spec.of_three called.now (codes "DO") fail.now }
{
    Some(Op::Call(label_of(called)?, Some(label_of(fail)?)))
}

/// `(c,IN,cd)`.
fn input(chain: &[u8], count: &[u8]) -> Option<Op<Label>>
    ensures { result ≡ spec.of_three chain.now (codes "IN") count.now }
{
    Some(Op::Input(chain_of(chain)?, operand_of(count)?, None))
}

/// `(c,PR,cd)`.
fn print_characters(chain: &[u8], count: &[u8]) -> Option<Op<Label>>
    ensures { result ≡ spec.of_three chain.now (codes "PR") count.now }
{
    Some(Op::PrintCharacters(chain_of(chain)?, operand_of(count)?))
}

/// The operation on the pushdown of contents: `S` saves, `R` restores.
fn content_operation(verb: &[u8], chain: &[u8]) -> Option<Op<Label>>
    ensures { result ≡ spec.content_operation verb.now chain.now }
{
    let verb: OperationWord<'_> = spelled(verb)?;
    match verb.as_slice() {
        b"S" => Some(Op::SaveContent(chain_of(chain)?)),
        b"R" => Some(Op::RestoreContent(chain_of(chain)?)),
        _ => None,
    }
}

/// The operation on the pushdown of definitions: `S` saves, `R` restores.
fn definition_operation(verb: &[u8], field: &[u8]) -> Option<Op<Label>>
    ensures { result ≡ spec.definition_operation verb.now field.now }
{
    let verb: OperationWord<'_> = spelled(verb)?;
    match verb.as_slice() {
        b"S" => Some(Op::SaveDefinition(field_of(field)?)),
        b"R" => Some(Op::RestoreDefinition(field_of(field)?)),
        _ => None,
    }
}

/// The field operation of a letter and a suffix.
fn field_operation(verb: &[u8], a: &[u8], b: &[u8]) -> Option<Op<Label>>
    ensures { result ≡ spec.field_operation verb.now a.now b.now }
{
    let (letter, suffix) = verb.split_first()?;
    let chain = chain_of(a)?;
    let value = value_of(suffix, b)?;
    with_letter(*letter, chain, value)
}

/// The field operation of this letter.
fn with_letter(letter: u8, chain: Chain, value: Operand) -> Option<Op<Label>>
    ensures { result ≡ spec.with_letter letter chain value }
{
    match letter {
        b'E' => Some(Op::Set(chain, value)),
        b'A' => Some(Op::Add(chain, value)),
        b'S' => Some(Op::Subtract(chain, value)),
        b'M' => Some(Op::Multiply(chain, value)),
        b'V' => Some(Op::Divide(chain, value)),
        b'Y' => Some(Op::Remainder(chain, value)),
        b'N' => Some(Op::And(chain, value)),
        b'O' => Some(Op::Or(chain, value)),
        b'X' => Some(Op::ExclusiveOr(chain, value)),
        b'C' => Some(Op::Complement(chain, value)),
        b'L' => Some(Op::ShiftLeft(chain, value)),
        b'R' => Some(Op::ShiftRight(chain, value)),
        _ => None,
    }
}

/// The operation of four elements.
fn of_four(a: &[u8], verb: &[u8], b: &[u8], d: &[u8]) -> Option<Op<Label>>
    ensures { result ≡ spec.of_four a.now verb.now b.now d.now }
{
    let verb: OperationWord<'_> = spelled(verb)?;
    match verb.as_slice() {
        b"GT" => Some(Op::Get(chain_of(a)?, operand_of(b)?, Some(chain_of(d)?), None)),
        b"IN" => Some(Op::Input(chain_of(a)?, operand_of(b)?, Some(label_of(d)?))),
        verb => definition(verb, a, b, d),
    }
}

/// The definition of a field: `D` and the field's name.
fn definition(verb: &[u8], word: &[u8], first: &[u8], last: &[u8]) -> Option<Op<Label>>
    ensures { result ≡ spec.definition verb.now word.now first.now last.now }
{
    let [b'D', field] = verb else {
        return None;
    };
    let field = name_of(*field)?;
    Some(Op::Define(
        field,
        operand_of(word)?,
        operand_of(first)?,
        operand_of(last)?,
    ))
}

/// The operation of five elements.
fn of_five(a: &[u8], verb: &[u8], b: &[u8], d: &[u8], e: &[u8]) -> Option<Op<Label>>
    ensures { result ≡ spec.of_five a.now verb.now b.now d.now e.now }
{
    let verb: OperationWord<'_> = spelled(verb)?;
    match verb.as_slice() {
        b"GT" => {
            Some(Op::Get(
                chain_of(a)?,
                operand_of(b)?,
                chain_if_given(d)?,
                Some(label_of(e)?),
            ))
        }
        b"DP" => {
            let chain = chain_of(a)?;
            let value = operand_of(b)?;
            nothing_given(d)?;
            Some(Op::Duplicate(chain, value, Some(label_of(e)?)))
        }
        _ => None,
    }
}
