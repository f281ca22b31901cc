//! The table of rows, read backwards. Anything else that a row has is ignored.

ghost use Rattle.std.specs.Prelude.{◌≡◌, Option};
ghost use Rattle.l6_image.specs.Row.{Row as Meaning};
ghost use Rattle.l6_image.specs.inner.decode.Back as spec;

use crate::decode::reader::Row;
use l6_prog::{Comparison, Op, Test};

/// What a row may stand for: a test, or an operation.
pub(crate) trait OfRow: Sized {
    // What a row stands for, if it does.
    ghost row_meaning: { Meaning → Option Self };

    /// What a row stands for, if it does.
    fn of_row(row: &Row<'_>) -> Option<Self>
        ensures { result ≡ row_meaning row.now };
}

impl OfRow for Test {
    ghost row_meaning = { spec.test_of };

    #[tactic(auto, unfolding(crate::specs::inner::decode::Back::test_of))]
    fn of_row(row: &Row<'_>) -> Option<Self> {
        Some(Test {
            comparison: comparison_of(row.code)?,
            chain: row.first.chain()?,
            operand: row.second.operand()?,
        })
    }
}

/// The comparison of a test's code.
fn comparison_of(code: u8) -> Option<Comparison>
    ensures { result ≡ spec.comparison_of code }
{
    match code {
        1 => Some(Comparison::Equal),
        2 => Some(Comparison::NotEqual),
        3 => Some(Comparison::Greater),
        4 => Some(Comparison::Less),
        5 => Some(Comparison::AllOnes),
        6 => Some(Comparison::AllZeros),
        _ => None,
    }
}

impl OfRow for Op {
    ghost row_meaning = { spec.operation_of };

    #[tactic(auto, unfolding(crate::specs::inner::decode::Back::operation_of))]
    fn of_row(row: &Row<'_>) -> Option<Self> {
        match row.code {
            1 => Some(Op::Set(row.first.chain()?, row.second.operand()?)),
            2 => Some(Op::Add(row.first.chain()?, row.second.operand()?)),
            3 => Some(Op::Subtract(row.first.chain()?, row.second.operand()?)),
            4 => Some(Op::Multiply(row.first.chain()?, row.second.operand()?)),
            5 => Some(Op::Divide(row.first.chain()?, row.second.operand()?)),
            6 => Some(Op::Remainder(row.first.chain()?, row.second.operand()?)),
            7 => Some(Op::And(row.first.chain()?, row.second.operand()?)),
            8 => Some(Op::Or(row.first.chain()?, row.second.operand()?)),
            9 => Some(Op::ExclusiveOr(row.first.chain()?, row.second.operand()?)),
            10 => Some(Op::Complement(row.first.chain()?, row.second.operand()?)),
            11 => Some(Op::ShiftLeft(row.first.chain()?, row.second.operand()?)),
            12 => Some(Op::ShiftRight(row.first.chain()?, row.second.operand()?)),
            13 => Some(Op::Exchange(row.first.chain()?, row.second.chain()?)),
            14 => Some(Op::Define(
                row.field?,
                row.first.operand()?,
                row.second.operand()?,
                row.third.operand()?,
            )),
            15 => Some(Op::SaveContent(row.first.chain()?)),
            16 => Some(Op::RestoreContent(row.first.chain()?)),
            17 => Some(Op::SaveDefinition(row.field?)),
            18 => Some(Op::RestoreDefinition(row.field?)),
            19 => Some(Op::Get(
                row.first.chain()?,
                row.second.operand()?,
                row.third.chain_if_given()?,
                row.label,
            )),
            20 => Some(Op::Duplicate(row.first.chain()?, row.second.operand()?, row.label)),
            21 => Some(Op::Free(row.first.chain()?, row.second.operand_if_given()?)),
            22 => Some(Op::Call(row.first.statement()?, row.label)),
            23 => Some(Op::Input(row.first.chain()?, row.second.operand()?, row.label)),
            24 => Some(Op::PrintCharacters(row.first.chain()?, row.second.operand()?)),
            25 => Some(Op::PrintDecimal(row.first.chain()?)),
            26 => Some(Op::PrintOctal(row.first.chain()?)),
            27 => Some(Op::PrintText(row.first.text()?)),
            28 => Some(Op::PrintLine),
            _ => None,
        }
    }
}
