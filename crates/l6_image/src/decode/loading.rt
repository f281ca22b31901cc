//! From texts to programs.

ghost use Rattle.std.specs.Prelude.{◌≡◌, ◌≤◌, List, length, IfOk, IfErr};
ghost use Rattle.l6_prog.specs.Statement.{Parts};
ghost use Rattle.l6_image.specs.Load.{Loads, TextHasFault};
ghost use Rattle.l6_image.specs.Numerals.{most_bytes};
ghost use Rattle.l6_image.specs.Text as texts;
ghost use Rattle.l6_image.specs.Version.{most_in};
ghost use Rattle.l6_image.specs.inner.decode.Loading as spec;
ghost use Rattle.l6_image.specs.inner.decode.Seen.{Gives};

use crate::decode::statements::statements_of;
use crate::encode::comparing::are_words_of;
use crate::fault::{LoadFault, ReadFault};
use crate::text::words_in;
use crate::version::Version;
use l6_prog::Program;
use std::alloc::Global;

/// The most bytes of a text that is loaded: 8 MiB.
pub const MAX_BYTES: usize = 1 << 23;

/// The program of which this is the image's text. The caller owes at most 8,388,608 bytes.
///
/// # Errors
///
/// If a line is not twelve octal digits and a line feed, the answer is `NotWords` with the number
/// of the first such line, counted from 1. If there is none, and the text is no image, it is
/// `NotAnImage`.
// The words are read without regard to bits that must be zero, to counts and to words after the
// last statement. What was read must then give the same words.
pub fn load(alloc: Global, text: &[u8]) -> Result<Program, LoadFault>
    requires { length text.now ≤ most_bytes }

    ensures sound { IfOk result (texts.IsImageOf text.now) }
    ensures complete { (program : List Parts) → texts.IsImageOf text.now program →
        Loads program result }
    ensures fault { IfErr result (TextHasFault text.now) }
{
    let words = words_in(alloc, text)?;
    let (version, program) = program_in(alloc, &words)?;
    if !are_words_of(alloc, &words, version, &program)? {
        return Err(LoadFault::NotAnImage);
    }
    Ok(program)
}

/// The version of an image's words, and their program.
#[tactic(auto, unfolding(crate::specs::inner::decode::Loading::program_in))]
fn program_in(alloc: Global, words: &[u64]) -> Result<(Version, Program), ReadFault>
    ensures found { Gives (λ found. found) result (spec.program_in words.now) }
    ensures few { IfOk result (λ found. length found.1 ≤ most_in found.0) }
{
    let (first, rest) = words.split_first().ok_or(ReadFault::NotAnImage)?;
    let version = Version::of(*first).ok_or(ReadFault::NotAnImage)?;
    let statements = statements_of(alloc, version, rest)?;
    let Ok(program) = Program::new(statements) else {
        return Err(ReadFault::NotAnImage);
    };
    if program.statements().len() as u64 > version.most_statements() {
        return Err(ReadFault::NotAnImage);
    }
    Ok((version, program))
}
