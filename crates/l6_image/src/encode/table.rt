//! The table of rows: for each test and each operation its code, its operands, its field and its
//! label.

ghost use Rattle.std.specs.Prelude.{◌≡◌, OnOk};
ghost use Rattle.l6_image.specs.Table.{code_of_comparison, row_of, row_of_test};
ghost use Rattle.l6_image.specs.inner.encode.Writing.{Writes};

use crate::encode::rows::{
    push_chains, push_definition, push_field, push_none, push_one, push_statement, push_text,
    push_three, push_two,
};
use crate::version::Version;
use l6_prog::{Chain, Comparison, Op, Operand, Test};
use std::alloc::AllocError;

/// Writes the words of a test.
pub(crate) fn push_test(
    version: Version,
    words: &mut Vec<u64>,
    test: &Test,
) -> Result<(), AllocError>
    ensures { OnOk result (Writes version words.old.items words.new.items (row_of_test test.now)) }
{
    let code = code_of_comparison(test.comparison);
    push_two(version, words, code, &test.chain, &test.operand, None)
}

/// The code of a test, by its comparison.
fn code_of_comparison(comparison: Comparison) -> u8
    ensures { result ≡ code_of_comparison comparison }
{
    match comparison {
        Comparison::Equal => 1,
        Comparison::NotEqual => 2,
        Comparison::Greater => 3,
        Comparison::Less => 4,
        Comparison::AllOnes => 5,
        Comparison::AllZeros => 6,
    }
}

/// Writes the words of an operation.
pub(crate) fn push_operation(
    version: Version,
    words: &mut Vec<u64>,
    operation: &Op,
) -> Result<(), AllocError>
    ensures { OnOk result (Writes version words.old.items words.new.items (row_of operation.now)) }
{
    match operation {
        Op::Set(c, v) => push_two(version, words, 1, c, v, None),
        Op::Add(c, v) => push_two(version, words, 2, c, v, None),
        Op::Subtract(c, v) => push_two(version, words, 3, c, v, None),
        Op::Multiply(c, v) => push_two(version, words, 4, c, v, None),
        Op::Divide(c, v) => push_two(version, words, 5, c, v, None),
        Op::Remainder(c, v) => push_two(version, words, 6, c, v, None),
        Op::And(c, v) => push_two(version, words, 7, c, v, None),
        Op::Or(c, v) => push_two(version, words, 8, c, v, None),
        Op::ExclusiveOr(c, v) => push_two(version, words, 9, c, v, None),
        Op::Complement(c, v) => push_two(version, words, 10, c, v, None),
        Op::ShiftLeft(c, v) => push_two(version, words, 11, c, v, None),
        Op::ShiftRight(c, v) => push_two(version, words, 12, c, v, None),
        Op::Exchange(c, d) => push_chains(version, words, 13, c, d),
        Op::Define(f, w, a, z) => push_definition(version, words, 14, *f, w, a, z),
        Op::SaveContent(c) => push_one(version, words, 15, c),
        Op::RestoreContent(c) => push_one(version, words, 16, c),
        Op::SaveDefinition(f) => push_field(version, words, 17, *f),
        Op::RestoreDefinition(f) => push_field(version, words, 18, *f),
        Op::Get(c, v, d, label) => push_get(version, words, c, v, d, *label),
        Op::Duplicate(c, v, label) => push_two(version, words, 20, c, v, *label),
        Op::Free(c, v) => push_free(version, words, c, v),
        Op::Call(called, fail) => push_statement(version, words, 22, *called, *fail),
        Op::Input(c, v, label) => push_two(version, words, 23, c, v, *label),
        Op::PrintCharacters(c, v) => push_two(version, words, 24, c, v, None),
        Op::PrintDecimal(c) => push_one(version, words, 25, c),
        Op::PrintOctal(c) => push_one(version, words, 26, c),
        Op::PrintText(text) => push_text(version, words, 27, text),
        Op::PrintLine => push_none(version, words, 28),
    }
}

/// Writes the words of a get.
fn push_get(
    version: Version,
    words: &mut Vec<u64>,
    chain: &Chain,
    size: &Operand,
    old: &Option<Chain>,
    label: Option<u16>,
) -> Result<(), AllocError>
    ensures { OnOk result (Writes version words.old.items words.new.items
        (row_of (Op.Get chain.now size.now old.now label))) }
{
    match old {
        None => push_two(version, words, 19, chain, size, label),
        Some(old) => push_three(version, words, 19, chain, size, old, label),
    }
}

/// Writes the words of an operation that frees a block.
fn push_free(
    version: Version,
    words: &mut Vec<u64>,
    chain: &Chain,
    value: &Option<Operand>,
) -> Result<(), AllocError>
    ensures { OnOk result (Writes version words.old.items words.new.items
        (row_of (Op.Free chain.now value.now))) }
{
    match value {
        None => push_one(version, words, 21, chain),
        Some(value) => push_two(version, words, 21, chain, value, None),
    }
}
