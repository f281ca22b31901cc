//! Whether words are those of a program's image.

ghost use Rattle.std.specs.Prelude.{◌≡◌, ◌↔◌, ◌≤◌, ◌++◌, ℕ, List, length, true, IfOk, IfSome, IfNone, IsTrue};
ghost use Rattle.std.specs.List.{list_all};
ghost use Rattle.l6_prog.specs.Program.{fits};
ghost use Rattle.l6_image.specs.Image as spec;
ghost use Rattle.l6_image.specs.Version.{most_in};

use crate::encode::writing::push_statement;
use crate::version::Version;
use l6_prog::{Program, Statement};
use std::alloc::{AllocError, Global};

/// Whether these are the words of a program's image in a version. They are compared statement by
/// statement, so those of a whole program are not made once more.
///
/// # Errors
///
/// Memory ran out.
#[tactic(auto, unfolding(crate::specs::Image::words_in))]
pub(crate) fn are_words_of(
    alloc: Global,
    words: &[u64],
    version: Version,
    program: &Program,
) -> Result<bool, AllocError>
    ensures same { IfOk result (λ same.
        IsTrue same ↔ (words.now ≡ spec.words_in version program.now)) }
    ensures known { length program.now ≤ most_in version → spec.HasImage version program.now }
{
    let statements = program.statements();
    let [magic, count, following, body @ ..] = words else {
        return Ok(false);
    };
    if *magic != version.magic()
        || *count != statements.len() as u64
        || *following != body.len() as u64
    {
        return Ok(false);
    }
    are_body_of(alloc, body, version, statements)
}

/// Whether these are the words of statements.
fn are_body_of(
    alloc: Global,
    words: &[u64],
    version: Version,
    statements: &[Statement],
) -> Result<bool, AllocError>
    requires { list_all fits statements.now ≡ true }
    ensures { IfOk result (λ same. IsTrue same ↔ (words.now ≡ spec.body version statements.now)) }
{
    let mut row = Vec::new(alloc);
    let mut rest = words;
    for statement in statements {
        row.clear();
        push_statement(version, &mut row, statement)?;
        let Some(following) = after(rest, &row) else {
            return Ok(false);
        };
        rest = following;
    }
    Ok(rest.is_empty())
}

/// The words after these first ones, if words begin with them.
fn after<'a>(words: &'a [u64], first: &[u64]) -> Option<&'a [u64]>
    ensures found { IfSome result (λ rest. words.now ≡ first.now ++ rest.now) }
    ensures none { IfNone result ((rest : List ℕ) → words.now ≡ first.now ++ rest → ⊥) }
{
    words.strip_prefix(first)
}
