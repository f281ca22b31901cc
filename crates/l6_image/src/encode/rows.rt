//! Rows, written after words: a first word, and the words of the operands.

ghost use Rattle.std.specs.Prelude.{◌≡◌, OnOk};
ghost use Rattle.l6_image.specs.Row as spec;
ghost use Rattle.l6_image.specs.Table.{operand as slot_of};
ghost use Rattle.l6_image.specs.inner.Heads.{kind_code};
ghost use Rattle.l6_image.specs.inner.encode.Writing.{Writes, WritesSlot};

use crate::encode::items::{names_word, push_codes};
use crate::head::{Head, OperandKind};
use crate::version::Version;
use l6_prog::{Chain, Name, Operand, PrintText};
use std::alloc::AllocError;

/// Writes the row without operands.
pub(crate) fn push_none(version: Version, words: &mut Vec<u64>, code: u8) -> Result<(), AllocError>
    ensures { OnOk result (Writes version words.old.items words.new.items
        (spec.row code spec.absent spec.absent spec.absent None None)) }
{
    let head = Head {
        code,
        first: OperandKind::Absent,
        second: OperandKind::Absent,
        third: OperandKind::Absent,
        field: None,
        label: None,
    };
    words.push(head.word(version))?;
    Ok(())
}

/// Writes the row of a field.
pub(crate) fn push_field(
    version: Version,
    words: &mut Vec<u64>,
    code: u8,
    field: Name,
) -> Result<(), AllocError>
    ensures { OnOk result (Writes version words.old.items words.new.items
        (spec.row code spec.absent spec.absent spec.absent (Some field) None)) }
{
    let head = Head {
        code,
        first: OperandKind::Absent,
        second: OperandKind::Absent,
        third: OperandKind::Absent,
        field: Some(field),
        label: None,
    };
    words.push(head.word(version))?;
    Ok(())
}

/// Writes the row of a chain.
pub(crate) fn push_one(
    version: Version,
    words: &mut Vec<u64>,
    code: u8,
    chain: &Chain,
) -> Result<(), AllocError>
    ensures { OnOk result (Writes version words.old.items words.new.items
        (spec.row code (spec.chain chain.now) spec.absent spec.absent None None)) }
{
    let head = Head {
        code,
        first: OperandKind::Chain,
        second: OperandKind::Absent,
        third: OperandKind::Absent,
        field: None,
        label: None,
    };
    words.push(head.word(version))?;
    push_chain(words, chain)
}

/// Writes the row of a chain and an operand, and a label if it has one.
pub(crate) fn push_two(
    version: Version,
    words: &mut Vec<u64>,
    code: u8,
    chain: &Chain,
    operand: &Operand,
    label: Option<u16>,
) -> Result<(), AllocError>
    ensures { OnOk result (Writes version words.old.items words.new.items
        (spec.row code (spec.chain chain.now) (slot_of operand.now) spec.absent None label)) }
{
    let head = Head {
        code,
        first: OperandKind::Chain,
        second: kind_of(operand),
        third: OperandKind::Absent,
        field: None,
        label,
    };
    words.push(head.word(version))?;
    push_chain(words, chain)?;
    push_operand(words, operand)
}

/// Writes the row of two chains.
pub(crate) fn push_chains(
    version: Version,
    words: &mut Vec<u64>,
    code: u8,
    first: &Chain,
    second: &Chain,
) -> Result<(), AllocError>
    ensures { OnOk result (Writes version words.old.items words.new.items
        (spec.row code (spec.chain first.now) (spec.chain second.now) spec.absent None None)) }
{
    let head = Head {
        code,
        first: OperandKind::Chain,
        second: OperandKind::Chain,
        third: OperandKind::Absent,
        field: None,
        label: None,
    };
    words.push(head.word(version))?;
    push_chain(words, first)?;
    push_chain(words, second)
}

/// Writes the row of a chain, an operand and a chain, and a label if it has one.
pub(crate) fn push_three(
    version: Version,
    words: &mut Vec<u64>,
    code: u8,
    first: &Chain,
    second: &Operand,
    third: &Chain,
    label: Option<u16>,
) -> Result<(), AllocError>
    ensures { OnOk result (Writes version words.old.items words.new.items
        (spec.row code (spec.chain first.now) (slot_of second.now) (spec.chain third.now) None label)) }
{
    let head = Head {
        code,
        first: OperandKind::Chain,
        second: kind_of(second),
        third: OperandKind::Chain,
        field: None,
        label,
    };
    words.push(head.word(version))?;
    push_chain(words, first)?;
    push_operand(words, second)?;
    push_chain(words, third)
}

/// Writes the row of a field and three operands.
pub(crate) fn push_definition(
    version: Version,
    words: &mut Vec<u64>,
    code: u8,
    field: Name,
    first: &Operand,
    second: &Operand,
    third: &Operand,
) -> Result<(), AllocError>
    ensures { OnOk result (Writes version words.old.items words.new.items
        (spec.row code (slot_of first.now) (slot_of second.now) (slot_of third.now) (Some field) None)) }
{
    let head = Head {
        code,
        first: kind_of(first),
        second: kind_of(second),
        third: kind_of(third),
        field: Some(field),
        label: None,
    };
    words.push(head.word(version))?;
    push_operand(words, first)?;
    push_operand(words, second)?;
    push_operand(words, third)
}

/// Writes the row of a statement, and a label if it has one.
pub(crate) fn push_statement(
    version: Version,
    words: &mut Vec<u64>,
    code: u8,
    statement: u16,
    label: Option<u16>,
) -> Result<(), AllocError>
    ensures { OnOk result (Writes version words.old.items words.new.items
        (spec.row code (spec.number statement) spec.absent spec.absent None label)) }
{
    let head = Head {
        code,
        first: OperandKind::Number,
        second: OperandKind::Absent,
        third: OperandKind::Absent,
        field: None,
        label,
    };
    words.push(head.word(version))?;
    words.push(u64::from(statement))?;
    Ok(())
}

/// Writes the row of a text.
pub(crate) fn push_text(
    version: Version,
    words: &mut Vec<u64>,
    code: u8,
    text: &PrintText,
) -> Result<(), AllocError>
    ensures { OnOk result (Writes version words.old.items words.new.items
        (spec.row code (spec.text text.now) spec.absent spec.absent None None)) }
{
    let head = Head {
        code,
        first: OperandKind::Text,
        second: OperandKind::Absent,
        third: OperandKind::Absent,
        field: None,
        label: None,
    };
    words.push(head.word(version))?;
    let codes = text.codes();
    words.push(codes.len() as u64)?;
    push_codes(words, codes)
}

/// The kind of an operand.
fn kind_of(operand: &Operand) -> OperandKind
    ensures { kind_code result ≡ spec.kind (slot_of operand.now) }
{
    match operand {
        Operand::Chain(_) => OperandKind::Chain,
        Operand::Number(_) => OperandKind::Number,
    }
}

/// Writes the word of an operand.
fn push_operand(words: &mut Vec<u64>, operand: &Operand) -> Result<(), AllocError>
    ensures { OnOk result (WritesSlot words.old.items words.new.items (slot_of operand.now)) }
{
    match operand {
        Operand::Chain(chain) => push_chain(words, chain),
        Operand::Number(number) => {
            words.push(number.get())?;
            Ok(())
        }
    }
}

/// Writes the word of a chain.
fn push_chain(words: &mut Vec<u64>, chain: &Chain) -> Result<(), AllocError>
    ensures { OnOk result (WritesSlot words.old.items words.new.items (spec.chain chain.now)) }
{
    words.push(names_word(chain))?;
    Ok(())
}
