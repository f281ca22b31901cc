//! The parts of a job, by the lines that separate them.

ghost use Rattle.std.specs.Prelude.{◌≡◌, ◌<◌, map, length};
ghost use Rattle.std.specs.Str.{bytes_eq};
ghost use Rattle.l6_word.specs.Code.{character_of};
ghost use Rattle.l6_device.specs.JobParts as spec;
ghost use Rattle.l6_device.specs.inner.Lines.{BeginsWithLine};

use l6_group::are_blank;
use l6_word::{character_of, split_line, without_return};

/// The word of the line that begins an input.
const INPUT_SEPARATOR: &[u8] = b"$INPUT";

/// The word of the line that begins commands.
const COMMANDS_SEPARATOR: &[u8] = b"$COMMANDS";

/// The parts of a job.
#[derive(Clone, Copy, Debug, PartialEq, Eq)]
pub struct JobParts<'a> {
    /// What is before the separator of the input: a deck, or an image, or a deck with commands.
    pub head: &'a [u8],
    /// What follows it.
    pub input: &'a [u8],
}

/// The parts of a job. A part that no separator begins is empty.
pub fn parts_of(job: &[u8]) -> JobParts<'_>
    ensures head { result.head.now ≡ spec.head_of job.now }
    ensures input { result.input.now ≡ spec.input_of job.now }
{
    let (head, input) = halves(INPUT_SEPARATOR, job);
    JobParts { head, input }
}

/// The parts of a head that is a deck with commands.
#[derive(Clone, Copy, Debug, PartialEq, Eq)]
pub struct HeadParts<'a> {
    /// What is before the separator of the commands.
    pub deck: &'a [u8],
    /// What follows it.
    pub commands: &'a [u8],
}

/// The deck and the commands of a head. A part that no separator begins is empty.
pub fn head_parts_of(head: &[u8]) -> HeadParts<'_>
    ensures deck { result.deck.now ≡ spec.deck_of head.now }
    ensures commands { result.commands.now ≡ spec.commands_of head.now }
{
    let (deck, commands) = halves(COMMANDS_SEPARATOR, head);
    HeadParts { deck, commands }
}

/// The text before its first line that is the separator of this word, and the text after that line.
fn halves<'a>(word: &[u8], text: &'a [u8]) -> (&'a [u8], &'a [u8])
    ensures before { result.0.now ≡ (spec.halves word.now (spec.whole_lines text.now)).before }
    ensures following { result.1.now ≡ (spec.halves word.now (spec.whole_lines text.now)).following }
{
    let mut rest = text;
    while !rest.is_empty() {
        let (line, following) = line_and_rest(rest);
        if reads_as(word, without_return(line)) {
            return (&text[..text.len() - rest.len()], following);
        }
        rest = following;
    }
    (text, &[])
}

/// The first line of a text that has one, without its line feed, and the text after it.
fn line_and_rest(text: &[u8]) -> (&[u8], &[u8])
    requires { 0 < length text.now }
    ensures line { BeginsWithLine text.now result.0.now result.1.now }
    ensures shorter { length result.1.now < length text.now }
{
    if let Some(parts) = split_line(text) {
        return parts;
    }
    (text, &[])
}

/// Whether the characters of a line are those of the word, with nothing but blanks after them.
fn reads_as(word: &[u8], line: &[u8]) -> bool
    ensures { result ≡ spec.reads_as word.now line.now }
{
    match line.split_at_checked(word.len()) {
        Some((front, following)) => are_characters(front, word) && are_blank(following),
        None => false,
    }
}

/// Whether bytes are read as these characters.
fn are_characters(bytes: &[u8], characters: &[u8]) -> bool
    ensures { result ≡ bytes_eq (map character_of bytes.now) characters.now }
{
    let mut rest = bytes;
    let mut others = characters;
    while let Some((character, more)) = others.split_first() {
        let Some((byte, following)) = rest.split_first() else {
            return false;
        };
        if character_of(*byte) != *character {
            return false;
        }
        rest = following;
        others = more;
    }
    rest.is_empty()
}
