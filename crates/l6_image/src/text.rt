//! Words as lines of octal digits.

ghost use Rattle.std.specs.Prelude.{◌≡◌, ◌<◌, ◌≤◌, ◌+◌, ◌^◌, ◌++◌, ◌*◌, length, vec_capacity, true, false, IsOk, OnOk, IfOk, IfErr, IfSome, IfNone};
ghost use Rattle.std.specs.List.{list_all};
ghost use Rattle.l6_word.specs.Numerals.{word_bits};
ghost use Rattle.l6_word.specs.Word.{is_word};
ghost use Rattle.l6_image.specs.Image.{HasImage};
ghost use Rattle.l6_image.specs.Numerals.{most_bytes};
ghost use Rattle.l6_image.specs.Text as spec;
ghost use Rattle.l6_image.specs.declared.version.Version.TheVariants.{Two};
ghost use Rattle.l6_image.specs.inner.Lines.{begins_with_word};
ghost use Rattle.l6_image.specs.inner.TextFault.{TextHasLineFault};

use crate::encode::writing::words_of;
use crate::fault::LoadFault;
use l6_prog::Program;
use l6_word::{OCTALS, Word, octal12, read_octal12};
use std::alloc::{AllocError, Global};

/// How many bytes the line of a word has: its octal digits and a line feed.
pub const LINE_BYTES: usize = OCTALS + 1;

/// The text of a program's image: a line for each of its words.
///
/// # Errors
///
/// Memory ran out.
#[tactic(auto, unfolding(crate::specs::Text::text_in))]
pub fn text_of(alloc: Global, program: &Program) -> Result<Vec<u8>, AllocError>
    ensures text { IfOk result (λ text. text.items ≡ spec.text_of program.now) }
    // Every program has an image.
    ensures known { HasImage Two program.now }
{
    let words = words_of(alloc, program)?;
    text_of_words(alloc, &words)
}

/// The lines of words. The caller owes that they are words.
fn text_of_words(alloc: Global, words: &[u64]) -> Result<Vec<u8>, AllocError>
    requires { list_all is_word words.now ≡ true }
    ensures { IfOk result (λ text. text.items ≡ spec.text_of_words words.now) }
{
    let mut text = Vec::with_capacity(alloc, words.len().saturating_mul(LINE_BYTES))?;
    push_lines(&mut text, words)?;
    Ok(text)
}

/// Appends the lines of words. The caller owes that each word is below 2^36.
///
/// # Errors
///
/// Memory ran out, which it can't if there is room for all lines, `LINE_BYTES` each.
pub fn push_lines(lines: &mut Vec<u8>, words: &[u64]) -> Result<(), AllocError>
    requires { list_all is_word words.now ≡ true }
    ensures lines { OnOk result (lines.new.items ≡ lines.old.items ++ spec.text_of_words words.now) }
    ensures capacity { vec_capacity lines.old ≤ vec_capacity lines.new }
    ensures succeeds { length lines.old.items + length words.now * LINE_BYTES ≤ vec_capacity lines.old
        → IsOk result }
{
    for word in words {
        lines.extend_from_slice(&octal12(Word::from_value(*word)))?;
        lines.push(b'\n')?;
    }
    Ok(())
}

/// The words of a text's lines, or the first line that is not one of a word.
pub(crate) fn words_in(alloc: Global, text: &[u8]) -> Result<Vec<u64>, LoadFault>
    requires { length text.now ≤ most_bytes }
    ensures words { IfOk result (λ words. text.now ≡ spec.text_of_words words.items) }
    ensures known { IfOk result (λ words. list_all is_word words.items ≡ true) }
    ensures fault { IfErr result (TextHasLineFault text.now) }
{
    let mut words = Vec::with_capacity(alloc, text.len() / LINE_BYTES)?;
    let mut rest = text;
    while !rest.is_empty() {
        let Some((word, following)) = first_word(rest) else {
            return Err(LoadFault::NotWords(words.len() as u32 + 1));
        };
        words.push(word)?;
        rest = following;
    }
    Ok(words)
}

/// The word of the first line of a text, and the text after it; `None` where that line is not one
/// of a word.
fn first_word(text: &[u8]) -> Option<(u64, &[u8])>
    ensures found { IfSome result (λ found.
        text.now ≡ spec.word_line found.0 ++ found.1.now) }
    ensures known { IfSome result (λ found. found.0 < 2 ^ word_bits) }
    ensures shorter { IfSome result (λ found.
        length text.now ≡ length found.1.now + LINE_BYTES) }
    ensures none { IfNone result (begins_with_word text.now ≡ false) }
{
    if text.len() < LINE_BYTES || text[OCTALS] != b'\n' {
        return None;
    }
    let word = read_octal12(&text[..OCTALS])?;
    Some((word.get(), &text[LINE_BYTES..]))
}
