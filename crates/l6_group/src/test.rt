//! The groups that are tests.

ghost use Rattle.std.specs.Prelude.{◌≡◌};
ghost use Rattle.l6_group.specs.Test as spec;

use crate::cut::first_element;
use crate::element::chain_of;
use crate::operation::OperationWord;
use crate::spelling::spelled;
use crate::value::value_of;
use l6_prog::{Comparison, Test};

/// The test that a group with these columns between its parentheses spells.
pub fn test_of(columns: &[u8]) -> Option<Test>
    ensures { result ≡ spec.test_of columns.now }
{
    let (target, others) = first_element(columns)?;
    let (verb, operand) = first_element(others)?;
    match first_element(operand) {
        None => of_three(target, verb, operand),
        Some(_) => None,
    }
}

/// The test of three elements.
fn of_three(target: &[u8], verb: &[u8], operand: &[u8]) -> Option<Test>
    ensures { result ≡ spec.of_three target.now verb.now operand.now }
{
    let verb: OperationWord<'_> = spelled(verb)?;
    let (letter, suffix) = verb.as_slice().split_first()?;
    Some(Test {
        comparison: comparison_of(*letter)?,
        chain: chain_of(target)?,
        operand: value_of(suffix, operand)?,
    })
}

/// The comparison of this letter.
fn comparison_of(letter: u8) -> Option<Comparison>
    ensures { result ≡ spec.comparison_of letter }
{
    match letter {
        b'E' => Some(Comparison::Equal),
        b'N' => Some(Comparison::NotEqual),
        b'G' => Some(Comparison::Greater),
        b'L' => Some(Comparison::Less),
        b'O' => Some(Comparison::AllOnes),
        b'Z' => Some(Comparison::AllZeros),
        _ => None,
    }
}
