//! Statements, read from words.

ghost use Rattle.std.specs.Prelude.{◌≡◌};
ghost use Rattle.l6_image.specs.inner.decode.Fields.{target_in};
ghost use Rattle.l6_image.specs.inner.decode.Statements as spec;
ghost use Rattle.l6_image.specs.inner.decode.Seen.{Gives};

use crate::decode::listed::{Listed, list_of};
use crate::fault::ReadFault;
use crate::version::{Version, target_in};
use l6_prog::{Cond, Exit, Statement};
use std::alloc::Global;

/// The statements in an image's words after its magic word. How many words are said to follow, and
/// words after the last statement, are ignored.
#[tactic(auto, unfolding(crate::specs::inner::decode::Statements::statements_of))]
pub(crate) fn statements_of(
    alloc: Global,
    version: Version,
    words: &[u64],
) -> Result<Vec<Statement>, ReadFault>
    ensures { Gives (λ statements. statements.items) result (spec.statements_of version words.now) }
{
    let (count, rest) = words.split_first().ok_or(ReadFault::NotAnImage)?;
    let (_, rest) = rest.split_first().ok_or(ReadFault::NotAnImage)?;
    let (statements, _) = list_of(alloc, version, *count, rest)?;
    Ok(statements)
}

impl Listed for Statement {
    ghost reads = { spec.statement_at };

    #[tactic(auto, unfolding(crate::specs::inner::decode::Statements::statement_at))]
    fn read(alloc: Global, version: Version, words: &[u64]) -> Result<(Self, &[u64]), ReadFault> {
        let (head, rest) = words.split_first().ok_or(ReadFault::NotAnImage)?;
        let (tests, rest) = list_of(alloc, version, *head / (1 << 27) % 64, rest)?;
        let (operations, rest) = list_of(alloc, version, *head / (1 << 21) % 64, rest)?;
        let condition = condition_in(*head / (1 << 33) % 8);
        let exit = exit_in(*head / (1 << 18) % 8, target_in(*head));
        Ok((Statement::new(condition, tests, operations, exit), rest))
    }
}

/// The condition of a code.
fn condition_in(code: u64) -> Cond
    ensures { result ≡ spec.condition_in code }
{
    match code {
        0 => Cond::Always,
        1 => Cond::If,
        2 => Cond::Not,
        3 => Cond::IfAll,
        4 => Cond::IfAny,
        5 => Cond::IfNone,
        _ => Cond::IfNotAll,
    }
}

/// The exit of a code, with its target.
fn exit_in(code: u64, target: u16) -> Exit
    ensures { result ≡ spec.exit_in code target }
{
    match code {
        0 => Exit::Next,
        1 => Exit::Label(target),
        2 => Exit::Done,
        _ => Exit::Fail,
    }
}
