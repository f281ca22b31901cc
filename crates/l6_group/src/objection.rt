//! Why a group is no operation, or no test, and where. It is looked at for an error alone.

ghost use Rattle.std.specs.Prelude.{◌≡◌, ◌+◌, ◌≤◌, true, Some, None, codes, length, is_some, IfSome, MatchOption};
ghost use Rattle.std.specs.Str.{bytes_eq};
ghost use Rattle.l6_group.specs.Character as spelling;
ghost use Rattle.l6_group.specs.Shape as shape;
ghost use Rattle.l6_group.specs.Element.{elements_of};
ghost use Rattle.l6_group.specs.Objection as spec;
ghost use Rattle.l6_group.specs.Operation as operation;
ghost use Rattle.l6_group.specs.Test as test;

use crate::element::{are_blank, field_of};
use crate::fault::{GroupFault, GroupObjection, Shape};
use crate::number::decimal_of;
use crate::operation::OperationWord;
use crate::parts::{Element, element_count, first_of, last_of, word_of};
use crate::shapes::{fits, is_definition, operation_shapes, test_shapes};
use crate::spelling::spelled;

/// How many elements the longest operation has.
const MAX_ELEMENTS: usize = 5;

/// Why a group with these columns between its parentheses is no operation, and where: nothing exactly
/// if it is one.
pub fn operation_objection(columns: &[u8]) -> Option<GroupObjection>
    ensures reason { result ≡ spec.operation_objection columns.now }
    ensures exact { MatchOption result (is_some (operation.operation_of columns.now) ≡ true)
        (λ objection. operation.operation_of columns.now ≡ None) }
    ensures inside { IfSome result (λ objection.
        objection.start + objection.length ≤ length columns.now) }
{
    of_operation(columns)
}

/// Why a group is no operation, and where.
fn of_operation(columns: &[u8]) -> Option<GroupObjection>
    ensures reason { result ≡ spec.operation_objection columns.now }
    ensures inside { IfSome result (λ objection.
        objection.start + objection.length ≤ length columns.now) }
{
    match shapes_as_operation(columns) {
        Some(shapes) => first_misfit(columns, shapes),
        None => Some(unspelled_operation(columns)),
    }
}

/// What the elements of a group have to be as an operation, by its word and their number.
pub fn shapes_as_operation(columns: &[u8]) -> Option<&'static [Shape]>
    ensures { let elements = elements_of columns.now in
        let shapes = spec.shapes_of_operation elements in
        MatchOption result (shapes ≡ None) (λ found. shapes ≡ Some found.now) }
{
    shapes_of_word(word_of(columns).text, element_count(columns))
}

/// What the elements of an operation of so many elements have to be whose word this element is.
fn shapes_of_word(element: &[u8], count: usize) -> Option<&'static [Shape]>
    ensures { let shapes = shape.operation_shapes count (spelling.spelled element.now) in
        MatchOption result (shapes ≡ None) (λ found. shapes ≡ Some found.now) }
{
    let word: Option<OperationWord<'_>> = spelled(element);
    match word {
        None => None,
        Some(word) => operation_shapes(count, word.as_slice()),
    }
}

/// Why a group with these columns between its parentheses is no test, and where: nothing exactly if it
/// is one.
pub fn test_objection(columns: &[u8]) -> Option<GroupObjection>
    ensures reason { result ≡ spec.test_objection columns.now }
    ensures exact { MatchOption result (is_some (test.test_of columns.now) ≡ true)
        (λ objection. test.test_of columns.now ≡ None) }
    ensures inside { IfSome result (λ objection.
        objection.start + objection.length ≤ length columns.now) }
{
    of_test(columns)
}

/// Why a group is no test, and where.
fn of_test(columns: &[u8]) -> Option<GroupObjection>
    ensures reason { result ≡ spec.test_objection columns.now }
    ensures inside { IfSome result (λ objection.
        objection.start + objection.length ≤ length columns.now) }
{
    match shapes_as_test(columns) {
        Some(shapes) => first_misfit(columns, shapes),
        None => Some(unspelled_test(columns)),
    }
}

/// What the elements of a group have to be as a test, by its word, if there are three of them.
pub fn shapes_as_test(columns: &[u8]) -> Option<&'static [Shape]>
    ensures { let elements = elements_of columns.now in
        let shapes = spec.shapes_of_test elements in
        MatchOption result (shapes ≡ None) (λ found. shapes ≡ Some found.now) }
{
    if element_count(columns) != 3 {
        return None;
    }
    let word: OperationWord<'_> = spelled(word_of(columns).text)?;
    test_shapes(word.as_slice())
}

/// The objection to the first element that is not what it has to be.
fn first_misfit(columns: &[u8], shapes: &[Shape]) -> Option<GroupObjection>
    ensures first { result ≡ spec.first_misfit 0 shapes.now (elements_of columns.now) }
    ensures inside { IfSome result (λ objection.
        objection.start + objection.length ≤ length columns.now) }
{
    let mut start: usize = 0;
    let mut rest = columns;
    for shape in shapes {
        let (element, others) = first_of(rest);
        if !fits(*shape, element) {
            return Some(GroupObjection {
                start,
                length: element.len(),
                fault: element_fault(*shape, element),
            });
        }
        match others {
            None => return None,
            Some(others) => {
                start += element.len() + 1;
                rest = others;
            }
        }
    }
    None
}

/// What is wrong with an element that is not what it has to be.
fn element_fault(shape: Shape, element: &[u8]) -> GroupFault
    ensures { result ≡ spec.element_fault shape element.now }
{
    if are_blank(element) {
        return GroupFault::EmptyElement;
    }
    GroupFault::Element(shape)
}

/// The objection to a group that is spelled as no operation of so many elements is.
fn unspelled_operation(columns: &[u8]) -> GroupObjection
    ensures said { result ≡ spec.unspelled_operation columns.now (elements_of columns.now) }
    ensures inside { result.start + result.length ≤ length columns.now }
{
    let word = word_of(columns);
    let count = element_count(columns);
    if are_blank(word.text) {
        return at(word, GroupFault::EmptyElement);
    }
    if has_comma_in_text(columns, word.text, count) {
        return whole(columns, GroupFault::CommaInText);
    }
    if is_operation_word(first_of(columns).0) {
        return whole(columns, GroupFault::WordFirst);
    }
    if may_have_more(word.text, count) {
        return whole(columns, GroupFault::TooFew);
    }
    if spells_operation(word.text) {
        return whole(columns, GroupFault::TooMany);
    }
    if begins_with_field(columns, word.text, count) {
        return whole(columns, GroupFault::FieldFirst);
    }
    at(word, GroupFault::Spelling)
}

/// The objection to a group that is spelled as no test of three elements is.
fn unspelled_test(columns: &[u8]) -> GroupObjection
    ensures said { result ≡ spec.unspelled_test columns.now (elements_of columns.now) }
    ensures inside { result.start + result.length ≤ length columns.now }
{
    let word = word_of(columns);
    if are_blank(word.text) {
        return at(word, GroupFault::EmptyElement);
    }
    if !spells_test(word.text) {
        return at(word, GroupFault::Spelling);
    }
    if element_count(columns) < 3 {
        return whole(columns, GroupFault::TooFew);
    }
    if takes_text(word.text) {
        return whole(columns, GroupFault::CommaInText);
    }
    whole(columns, GroupFault::TooMany)
}

/// What is wrong with a whole group.
fn whole(columns: &[u8], fault: GroupFault) -> GroupObjection
    ensures { result ≡ spec.whole_group columns.now fault }
{
    GroupObjection {
        start: 0,
        length: columns.len(),
        fault,
    }
}

/// What is wrong with an element.
fn at(element: Element<'_>, fault: GroupFault) -> GroupObjection
    ensures { result ≡ spec.at_element element.entry.start element.entry.text.now fault }
{
    GroupObjection {
        start: element.start,
        length: element.text.len(),
        fault,
    }
}

/// Whether an operation may have so many elements whose word this element is.
fn may_have(word: &[u8], count: usize) -> bool
    ensures { result ≡ spec.may_have (spelling.spelled word.now) count }
{
    shapes_of_word(word, count).is_some()
}

/// Whether an operation whose word this element is may have more elements than so many.
fn may_have_more(word: &[u8], count: usize) -> bool
    ensures { result ≡ spec.may_have_more count (spelling.spelled word.now) }
{
    (count < 2 && may_have(word, 2))
        || (count < 3 && may_have(word, 3))
        || (count < 4 && may_have(word, 4))
        || (count < MAX_ELEMENTS && may_have(word, MAX_ELEMENTS))
}

/// Whether an operation has this element as its word.
fn spells_operation(word: &[u8]) -> bool
    ensures { result ≡ spec.spells_operation (spelling.spelled word.now) }
{
    may_have(word, 1) || may_have_more(word, 1)
}

/// Whether a test has this element as its word.
fn spells_test(word: &[u8]) -> bool
    ensures { result ≡ is_some (shape.test_shapes (spelling.spelled word.now)) }
{
    let word: Option<OperationWord<'_>> = spelled(word);
    match word {
        None => false,
        Some(word) => test_shapes(word.as_slice()).is_some(),
    }
}

/// Whether an element is the word of an operation, of two letters.
fn is_operation_word(element: &[u8]) -> bool
    ensures { result ≡ spec.is_operation_word (spelling.spelled element.now) }
{
    let word: Option<OperationWord<'_>> = spelled(element);
    match word {
        None => false,
        Some(word) => are_operation_word(word.as_slice()),
    }
}

/// Whether characters are.
fn are_operation_word(characters: &[u8]) -> bool
    ensures { result ≡ spec.is_operation_word characters.now }
{
    matches!(
        characters,
        b"PL"
            | b"FR"
            | b"DO"
            | b"PD"
            | b"PO"
            | b"PH"
            | b"FC"
            | b"FD"
            | b"GT"
            | b"DP"
            | b"IN"
            | b"PR"
    )
}

/// Whether a test, or an operation of arithmetic or logic, takes a text that has this element as its
/// word.
fn takes_text(word: &[u8]) -> bool
    ensures { result ≡ spec.takes_text (spelling.spelled word.now) }
{
    let word: Option<OperationWord<'_>> = spelled(word);
    match word {
        None => false,
        Some(word) => matches!(word.as_slice(), [_, b'H']),
    }
}

/// Whether the text of a group with this word and so many elements seems to have a comma.
fn has_comma_in_text(columns: &[u8], word: &[u8], count: usize) -> bool
    requires word { word.now ≡ spec.word_of (elements_of columns.now) }
    requires count { count ≡ length (elements_of columns.now) }
    ensures { result ≡ spec.has_comma_in_text (elements_of columns.now) }
{
    (count > 3 && takes_text(word)) || (count > 2 && prints_text(last_of(columns)))
}

/// Whether an element is the word of an operation that prints a text.
fn prints_text(word: &[u8]) -> bool
    ensures { result ≡ bytes_eq (codes "PH") (spelling.spelled word.now) }
{
    let word: Option<OperationWord<'_>> = spelled(word);
    match word {
        None => false,
        Some(word) => matches!(word.as_slice(), b"PH"),
    }
}

/// Whether a group with this word and so many elements seems to be a definition that begins with its
/// field.
fn begins_with_field(columns: &[u8], word: &[u8], count: usize) -> bool
    requires word { word.now ≡ spec.word_of (elements_of columns.now) }
    requires count { count ≡ length (elements_of columns.now) }
    ensures { result ≡ spec.begins_with_field (elements_of columns.now) }
{
    let first = first_of(columns).0;
    decimal_of(word).is_some()
        && (spells_definition(first) || (count == 4 && field_of(first).is_some()))
}

/// Whether an element spells the definition of a field.
fn spells_definition(element: &[u8]) -> bool
    ensures { result ≡ is_some (operation.defined_field (spelling.spelled element.now)) }
{
    let word: Option<OperationWord<'_>> = spelled(element);
    match word {
        None => false,
        Some(word) => is_definition(word.as_slice()),
    }
}
