//! Places in a text as editors count them: lines, and on a line units of UTF-16.

ghost use Rattle.std.specs.Prelude.{◌≡◌, ◌≤◌, suc, MatchOption, length};
ghost use Rattle.l6_place.specs.Spot as spec;

/// A place in a text, as editors count: its line, from 0 on, and how many units of UTF-16 are before it on
/// that line.
#[derive(Clone, Copy, Debug, PartialEq, Eq)]
pub struct Spot {
    /// The line.
    pub line: u64,
    /// The units before it there.
    pub character: u64,
}

/// How many units of UTF-16 the character has that a byte of UTF-8 begins: none where it begins no
/// character.
pub(crate) fn units_of(byte: u8) -> u64
    ensures value { result ≡ spec.units_of byte }
    ensures few { result ≤ 2 }
{
    if byte < 0x80 {
        1
    } else if byte < 0xC0 {
        0
    } else if byte < 0xF0 {
        1
    } else {
        2
    }
}

/// How many bytes of a text are in front of a place: all of its line, where the place is past that, and
/// all of the text, where it has no such line.
pub fn offset_of(text: &[u8], spot: Spot) -> usize
    ensures value { result ≡ spec.offset_of text.now spot }
    ensures within { result ≤ length text.now }
{
    let line = from_line(text, spot.line);
    text.len() - line.len() + in_front(line, spot.character)
}

/// The text from its line of this number on: nothing where it has too few lines.
fn from_line(text: &[u8], line: u64) -> &[u8]
    ensures value { result.now ≡ spec.from_line line text.now }
    ensures within { length result.now ≤ length text.now }
{
    let mut rest = text;
    let mut left = line;
    while let Some((first, following)) = rest.split_first() {
        if left == 0 {
            return rest;
        }
        if is_last_of_end(*first, following) {
            left -= 1;
        }
        rest = following;
    }
    rest
}

/// Whether a byte, with those that follow it, is the last one of the end of a line.
pub(crate) fn is_last_of_end(first: u8, rest: &[u8]) -> bool
    ensures { result ≡ spec.is_last_of_end first rest.now }
{
    first == b'\n' || (first == b'\r' && !begins_with_feed(rest))
}

/// Whether bytes begin with a line feed.
fn begins_with_feed(bytes: &[u8]) -> bool
    ensures { result ≡ spec.begins_with_feed bytes.now }
{
    match bytes.first() {
        None => false,
        Some(first) => *first == b'\n',
    }
}

/// How many bytes are in front of so many units of the line with which a text begins.
fn in_front(text: &[u8], units: u64) -> usize
    ensures value { result ≡ spec.in_front units text.now }
    ensures within { result ≤ length text.now }
{
    let mut rest = text;
    let mut left = units;
    while let Some((first, following)) = rest.split_first() {
        let more = units_of(*first);
        if *first == b'\n' || *first == b'\r' || (more > 0 && left == 0) {
            break;
        }
        left = left.saturating_sub(more);
        rest = following;
    }
    text.len() - rest.len()
}
