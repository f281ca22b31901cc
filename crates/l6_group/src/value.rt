//! Values: the second operands of field operations and of tests.

ghost use Rattle.std.specs.Prelude.{◌≡◌};
ghost use Rattle.l6_group.specs.Value as spec;

use crate::element::operand_of;
use crate::number::{octal_of, text_of};
use l6_prog::Operand;

/// The operand that an element spells under a suffix: with none a chain or a decimal number, with
/// `O` an octal number, and with `H` the number that a text stands for.
pub(crate) fn value_of(suffix: &[u8], element: &[u8]) -> Option<Operand>
    ensures { result ≡ spec.value_of suffix.now element.now }
{
    match suffix {
        b"" => operand_of(element),
        b"O" => Some(Operand::Number(octal_of(element)?)),
        b"H" => Some(Operand::Number(text_of(element)?)),
        _ => None,
    }
}
