//! What the elements of a group have to be, by its spelling. It is looked at for an error alone.

ghost use Rattle.std.specs.Prelude.{◌≡◌, Some, None, is_some, MatchOption};
ghost use Rattle.l6_group.specs.Operation.{defined_field};
ghost use Rattle.l6_group.specs.declared.fault.Shape.TheVariants as Shape;
ghost use Rattle.l6_group.specs.Shape as spec;

use crate::element::{chain_if_given, chain_of, field_of, name_of, nothing_given, operand_of};
use crate::fault::Shape;
use crate::label::label_of;
use crate::number::{octal_of, print_text_of, text_of};
use crate::spelling::{Spelling, spelled};

/// Whether an element is what it has to be.
pub(crate) fn fits(shape: Shape, element: &[u8]) -> bool
    ensures { result ≡ spec.fits shape element.now }
{
    match shape {
        Shape::Spelling => true,
        Shape::Chain => chain_of(element).is_some(),
        Shape::Operand => operand_of(element).is_some(),
        Shape::Octal => octal_of(element).is_some(),
        Shape::Text => text_of(element).is_some(),
        Shape::LongText => print_text_of(element).is_some(),
        Shape::Label => label_of(element).is_some(),
        Shape::Field => field_of(element).is_some(),
        Shape::OptionalChain => chain_if_given(element).is_some(),
        Shape::Nothing => nothing_given(element).is_some(),
        Shape::SaveOrRestore => is_save_or_restore(element),
    }
}

/// Whether an element is `S` or `R`.
fn is_save_or_restore(element: &[u8]) -> bool
    ensures { result ≡ spec.fits Shape.SaveOrRestore element.now }
{
    let characters: Option<Spelling<'_, 1>> = spelled(element);
    match characters {
        None => false,
        Some(characters) => matches!(characters.as_slice(), b"S" | b"R"),
    }
}

/// What the elements of an operation that is spelled so have to be, if it may have so many.
pub(crate) fn operation_shapes(count: usize, word: &[u8]) -> Option<&'static [Shape]>
    ensures { let shapes = spec.operation_shapes count word.now in
        MatchOption result (shapes ≡ None) (λ found. shapes ≡ Some found.now) }
{
    match count {
        1 => of_one(word),
        2 => of_two(word),
        3 => of_three(word),
        4 => of_four(word),
        5 => of_five(word),
        _ => None,
    }
}

/// Those of one element.
fn of_one(word: &[u8]) -> Option<&'static [Shape]>
    ensures { let shapes = spec.operation_shapes 1 word.now in
        MatchOption result (shapes ≡ None) (λ found. shapes ≡ Some found.now) }
{
    match word {
        b"PL" => Some(&[Shape::Spelling]),
        _ => None,
    }
}

/// Those of two elements.
fn of_two(word: &[u8]) -> Option<&'static [Shape]>
    ensures { let shapes = spec.operation_shapes 2 word.now in
        MatchOption result (shapes ≡ None) (λ found. shapes ≡ Some found.now) }
{
    match word {
        b"FR" | b"PD" | b"PO" => Some(&[Shape::Chain, Shape::Spelling]),
        b"DO" => Some(&[Shape::Label, Shape::Spelling]),
        b"PH" => Some(&[Shape::LongText, Shape::Spelling]),
        _ => None,
    }
}

/// Those of three elements.
fn of_three(word: &[u8]) -> Option<&'static [Shape]>
    ensures { let shapes = spec.operation_shapes 3 word.now in
        MatchOption result (shapes ≡ None) (λ found. shapes ≡ Some found.now) }
{
    match word {
        b"I" => Some(&[Shape::Chain, Shape::Spelling, Shape::Chain]),
        b"FC" => Some(&[Shape::SaveOrRestore, Shape::Spelling, Shape::Chain]),
        b"FD" => Some(&[Shape::SaveOrRestore, Shape::Spelling, Shape::Field]),
        b"GT" | b"DP" | b"FR" | b"IN" | b"PR" => {
            Some(&[Shape::Chain, Shape::Spelling, Shape::Operand])
        }
        b"DO" => Some(&[Shape::Label, Shape::Spelling, Shape::Label]),
        word => of_arithmetic(word),
    }
}

/// Those of an operation of arithmetic or logic.
fn of_arithmetic(word: &[u8]) -> Option<&'static [Shape]>
    ensures { let shapes = spec.arithmetic_shapes word.now in
        MatchOption result (shapes ≡ None) (λ found. shapes ≡ Some found.now) }
{
    let (letter, suffix) = word.split_first()?;
    match *letter {
        b'E' | b'A' | b'S' | b'M' | b'V' | b'Y' | b'N' | b'O' | b'X' | b'C' | b'L' | b'R' => {
            with_suffix(suffix)
        }
        _ => None,
    }
}

/// Those of a test that is spelled so.
pub(crate) fn test_shapes(word: &[u8]) -> Option<&'static [Shape]>
    ensures { let shapes = spec.test_shapes word.now in
        MatchOption result (shapes ≡ None) (λ found. shapes ≡ Some found.now) }
{
    let (letter, suffix) = word.split_first()?;
    match *letter {
        b'E' | b'N' | b'G' | b'L' | b'O' | b'Z' => with_suffix(suffix),
        _ => None,
    }
}

/// Those of a test, or an operation of arithmetic or logic, with this suffix.
fn with_suffix(suffix: &[u8]) -> Option<&'static [Shape]>
    ensures { let shapes = spec.shapes_suffixed suffix.now in
        MatchOption result (shapes ≡ None) (λ found. shapes ≡ Some found.now) }
{
    match suffix {
        b"" => Some(&[Shape::Chain, Shape::Spelling, Shape::Operand]),
        b"O" => Some(&[Shape::Chain, Shape::Spelling, Shape::Octal]),
        b"H" => Some(&[Shape::Chain, Shape::Spelling, Shape::Text]),
        _ => None,
    }
}

/// Those of four elements.
fn of_four(word: &[u8]) -> Option<&'static [Shape]>
    ensures { let shapes = spec.operation_shapes 4 word.now in
        MatchOption result (shapes ≡ None) (λ found. shapes ≡ Some found.now) }
{
    match word {
        b"GT" => Some(&[Shape::Chain, Shape::Spelling, Shape::Operand, Shape::Chain]),
        b"IN" => Some(&[Shape::Chain, Shape::Spelling, Shape::Operand, Shape::Label]),
        word => of_definition(word),
    }
}

/// Those of the definition of a field.
fn of_definition(word: &[u8]) -> Option<&'static [Shape]>
    ensures { let shapes = spec.definition_shapes word.now in
        MatchOption result (shapes ≡ None) (λ found. shapes ≡ Some found.now) }
{
    if !is_definition(word) {
        return None;
    }
    Some(&[
        Shape::Operand,
        Shape::Spelling,
        Shape::Operand,
        Shape::Operand,
    ])
}

/// Whether characters spell the definition of a field: `D` and its name.
pub(crate) fn is_definition(word: &[u8]) -> bool
    ensures { result ≡ is_some (defined_field word.now) }
{
    match word {
        [b'D', field] => name_of(*field).is_some(),
        _ => false,
    }
}

/// Those of five elements.
fn of_five(word: &[u8]) -> Option<&'static [Shape]>
    ensures { let shapes = spec.operation_shapes 5 word.now in
        MatchOption result (shapes ≡ None) (λ found. shapes ≡ Some found.now) }
{
    match word {
        b"GT" => {
            Some(&[
                Shape::Chain,
                Shape::Spelling,
                Shape::Operand,
                Shape::OptionalChain,
                Shape::Label,
            ])
        }
        b"DP" => {
            Some(&[
                Shape::Chain,
                Shape::Spelling,
                Shape::Operand,
                Shape::Nothing,
                Shape::Label,
            ])
        }
        _ => None,
    }
}
