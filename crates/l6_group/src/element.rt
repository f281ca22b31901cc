//! The elements of a group: names, chains and operands.

ghost use Rattle.std.specs.Prelude.{◌≡◌, [], ◌∷◌};
ghost use Rattle.std.specs.List.{list_all};
ghost use Rattle.l6_group.specs.Character as spec;
ghost use Rattle.l6_group.specs.Element.{chain_of, operand_of, field_of, chain_if_given, nothing_given};

use crate::number::decimal_of;
use arrayvec::ArrayVec;
use l6_prog::{Chain, DIGITS, MAX_NAMES, Name, Operand};
use l6_word::is_blank;

/// Whether a byte is read as a letter.
pub fn is_letter(byte: u8) -> bool
    ensures { result ≡ spec.is_letter byte }
{
    matches!(byte, b'A'..=b'Z' | b'a'..=b'z')
}

/// The name that a byte is read as: a digit or a letter, a small letter as its capital.
pub(crate) fn name_of(byte: u8) -> Option<Name>
    ensures { result ≡ spec.name_of byte }
{
    match byte {
        b'0'..=b'9' => Name::new(byte - b'0'),
        b'A'..=b'Z' => Name::new(byte - b'A' + DIGITS),
        b'a'..=b'z' => Name::new(byte - b'a' + DIGITS),
        _ => None,
    }
}

/// The chain that an element spells: 1 to 6 letters and digits, the first a letter. Blanks are left out.
pub fn chain_of(element: &[u8]) -> Option<Chain>
    ensures { result ≡ chain_of element.now }
{
    match element {
        // Most chains are a bug, and most elements that are none are a number.
        [byte] => bug_of(*byte),
        [b'0'..=b'9', ..] => None,
        _ => any_chain_of(element),
    }
}

/// The chain that an element spells, read name by name.
#[inline(never)] // so that the short ways of `chain_of` are read in place
fn any_chain_of(element: &[u8]) -> Option<Chain>
    ensures { result ≡ chain_of element.now }
{
    let mut names: ArrayVec<Name, MAX_NAMES> = ArrayVec::new();
    for byte in element {
        if !is_blank(*byte) {
            let name = name_of(*byte)?;
            if names.is_full() {
                return None;
            }
            names.push(name);
        }
    }
    Chain::new(names.as_slice())
}

/// The chain of one name, a letter, that an element of this byte alone spells.
fn bug_of(byte: u8) -> Option<Chain>
    ensures { result ≡ chain_of (byte ∷ []) }
{
    let name = name_of(byte)?;
    Chain::new(&[name])
}

/// The operand that an element spells: a chain or a decimal number.
pub(crate) fn operand_of(element: &[u8]) -> Option<Operand>
    ensures { result ≡ operand_of element.now }
{
    match chain_of(element) {
        Some(chain) => Some(Operand::Chain(chain)),
        None => Some(Operand::Number(decimal_of(element)?)),
    }
}

/// The field that an element names: one letter or digit.
pub(crate) fn field_of(element: &[u8]) -> Option<Name>
    ensures { result ≡ field_of element.now }
{
    let mut field = None;
    for byte in element {
        if !is_blank(*byte) {
            if field.is_some() {
                return None;
            }
            field = Some(name_of(*byte)?);
        }
    }
    field
}

/// The chain that an element spells, if it has anything but blanks.
pub(crate) fn chain_if_given(element: &[u8]) -> Option<Option<Chain>>
    ensures { result ≡ chain_if_given element.now }
{
    if are_blank(element) {
        return Some(None);
    }
    Some(Some(chain_of(element)?))
}

/// That an element has nothing but blanks.
pub(crate) fn nothing_given(element: &[u8]) -> Option<()>
    ensures { result ≡ nothing_given element.now }
{
    if are_blank(element) {
        return Some(());
    }
    None
}

/// Whether each byte is read as a blank.
pub fn are_blank(bytes: &[u8]) -> bool
    ensures { result ≡ list_all spec.is_blank bytes.now }
{
    bytes.iter().all(|byte| is_blank(*byte))
}
