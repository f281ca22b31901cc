//! What is said of a chain or a field in a group: of a bug where it is named, and of each field where it is defined and
//! used.

use crate::card_list::CardList;
use crate::place::Place;
use l6_group::{Shape, chain_of, operation_of, shapes_as_operation, shapes_as_test};
use l6_place::{Groups, Here, Item, is_in_test};
use l6_prog::{Chain, Name, Op};
use l6_word::{is_blank, split_once};
use std::alloc::{AllocError, Global};

/// An element of a group.
#[derive(Clone, Copy, Debug)]
pub(crate) struct Element<'a> {
    /// The columns between the parentheses of its group.
    group: &'a [u8],
    /// Its own columns.
    columns: &'a [u8],
    /// What it has to be.
    shape: Shape,
    /// Its first column.
    pub(crate) from: usize,
    /// The column after its last one.
    pub(crate) to: usize,
}

/// What a name is in a group.
#[derive(Clone, Copy, Debug, PartialEq, Eq)]
enum Part {
    /// The bug of a chain.
    Bug,
    /// A field of a chain, or one of which the definition is saved or restored.
    Field,
    /// The field that the group defines.
    Definition,
}

/// The element at a place, where an operation or a test is there.
pub(crate) fn element_at<'a>(place: &Place<'a>, here: Here<'a>) -> Option<Element<'a>> {
    let Item::Group(group) = here.item else {
        return None;
    };
    let shapes = if is_in_test(place.deck, place.card, here.from) {
        shapes_as_test(group)?
    } else {
        shapes_as_operation(group)?
    };
    let mut rest = group;
    let mut from = here.from.saturating_add(1);
    for shape in shapes {
        let (columns, following) = first_element(rest);
        let to = from.saturating_add(columns.len());
        if from <= place.column && place.column < to {
            let shape = *shape;
            return Some(Element {
                group,
                columns,
                shape,
                from,
                to,
            });
        }
        rest = following;
        from = to.saturating_add(1);
    }
    None
}

/// The first element of columns, and what follows its comma.
fn first_element(columns: &[u8]) -> (&[u8], &[u8]) {
    match split_once(columns, b',') {
        None => (columns, &[]),
        Some(parts) => parts,
    }
}

/// What is said of an element that is a chain or a field; nothing of any other.
pub(crate) fn names_text(
    alloc: Global,
    deck: &[u8],
    element: Element<'_>,
) -> Result<Option<String>, AllocError> {
    let written = String::from_utf8_lossy(alloc, element.columns.trim_ascii())?;
    let written = written.as_str();
    let said = match chain_in(element.shape, element.columns) {
        Some(chain) => chain_text(alloc, deck, element.columns, &chain)?,
        None => {
            let Some(field) = field_in(element) else {
                return Ok(None);
            };
            field_text(alloc, deck, field, written)?
        }
    };
    Ok(Some(format!(in alloc; "`{written}`\n\n{said}")?))
}

/// What is said of the field that a group defines, at its word; nothing at any other element.
pub(crate) fn defined_text(
    alloc: Global,
    deck: &[u8],
    element: Element<'_>,
) -> Result<Option<String>, AllocError> {
    let Some((written, _)) = element.columns.trim_ascii().split_last() else {
        return Ok(None);
    };
    if element.shape != Shape::Spelling {
        return Ok(None);
    }
    let Some(field) = defined_by(element.group) else {
        return Ok(None);
    };
    let written = String::from_utf8_lossy(alloc, &[*written])?;
    Ok(Some(field_text(alloc, deck, field, written.as_str())?))
}

/// The chain that an element of this shape is.
fn chain_in(shape: Shape, columns: &[u8]) -> Option<Chain> {
    match shape {
        Shape::Chain | Shape::Operand | Shape::OptionalChain => chain_of(columns),
        _ => None,
    }
}

/// The field that an element is of which the definition is saved or restored.
fn field_in(element: Element<'_>) -> Option<Name> {
    if element.shape == Shape::Field {
        saved_by(element.group)
    } else {
        None
    }
}

/// What is said of a chain that is written so: of its bug, and of each of its fields.
fn chain_text(
    alloc: Global,
    deck: &[u8],
    columns: &[u8],
    chain: &Chain,
) -> Result<String, AllocError> {
    let mut text = String::new(alloc);
    let mut rest = chain.names();
    for byte in columns {
        if is_blank(*byte) {
            continue;
        }
        let Some((name, following)) = rest.split_first() else {
            break;
        };
        rest = following;
        let written = String::from_utf8_lossy(alloc, &[*byte])?;
        if text.is_empty() {
            text = bug_text(alloc, deck, *name, written.as_str())?;
        } else {
            let said = field_text(alloc, deck, *name, written.as_str())?;
            text = format!(in alloc; "{text}\n\n{said}")?;
        }
    }
    Ok(text)
}

/// What is said of a bug that is written so: where chains begin with it.
fn bug_text(alloc: Global, deck: &[u8], name: Name, written: &str) -> Result<String, AllocError> {
    let named = cards_with(alloc, deck, name, Part::Bug)?.text(alloc, "Named")?;
    format!(in alloc; "The bug {written}. {named}")
}

/// What is said of a field that is written so: where it is defined, and where it is used.
fn field_text(alloc: Global, deck: &[u8], name: Name, written: &str) -> Result<String, AllocError> {
    let defined = cards_with(alloc, deck, name, Part::Definition)?.text(alloc, "Defined")?;
    let used = cards_with(alloc, deck, name, Part::Field)?.text(alloc, "Used")?;
    format!(in alloc; "The field {written}. {defined} {used}")
}

/// The cards with groups in which a name is that.
fn cards_with(alloc: Global, deck: &[u8], name: Name, part: Part) -> Result<CardList, AllocError> {
    let mut cards = CardList::new(alloc);
    let mut groups = Groups::of(deck);
    // (a group has two columns at least, so there are no more groups than bytes)
    for _ in 0..deck.len() {
        let Some(group) = groups.next_group() else {
            break;
        };
        if has(group.inside, name, part) {
            cards.add(group.card)?;
        }
    }
    Ok(cards)
}

/// Whether a name is that in the group with these columns.
fn has(group: &[u8], name: Name, part: Part) -> bool {
    match part {
        Part::Bug => has_in_chain(group, name, part),
        Part::Field => saved_by(group) == Some(name) || has_in_chain(group, name, part),
        Part::Definition => defined_by(group) == Some(name),
    }
}

/// The field that a group defines.
fn defined_by(group: &[u8]) -> Option<Name> {
    let operation = operation_of(group)?;
    match &operation {
        Op::Define(field, ..) => Some(*field),
        _ => None,
    }
}

/// The field of which a group saves or restores the definition.
fn saved_by(group: &[u8]) -> Option<Name> {
    let operation = operation_of(group)?;
    match &operation {
        Op::SaveDefinition(field) | Op::RestoreDefinition(field) => Some(*field),
        _ => None,
    }
}

/// Whether a name is that in a chain of the group with these columns.
fn has_in_chain(group: &[u8], name: Name, part: Part) -> bool {
    let shapes = match shapes_as_operation(group) {
        Some(shapes) => shapes,
        None => shapes_as_test(group).unwrap_or(&[]),
    };
    let mut rest = group;
    for shape in shapes {
        let (columns, following) = first_element(rest);
        rest = following;
        if let Some(chain) = chain_in(*shape, columns) {
            if is_in_chain(&chain, name, part) {
                return true;
            }
        }
    }
    false
}

/// Whether a name is the bug of a chain, or one of its fields.
fn is_in_chain(chain: &Chain, name: Name, part: Part) -> bool {
    match chain.names().split_first() {
        None => false,
        Some((bug, fields)) => {
            if part == Part::Bug {
                *bug == name
            } else {
                fields.contains(&name)
            }
        }
    }
}
