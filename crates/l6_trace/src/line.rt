//! What a line of a trace says.

ghost use Rattle.std.specs.Prelude.{◌≡◌};
ghost use Rattle.l6_trace.specs.Number as spec;

use crate::call::Reply;
use l6_word::without_return;

/// The greatest number that a line may give.
pub const MAX_NUMBER: u32 = 999_999_999;

/// The base of the numbers that lines give.
const BASE: u32 = 10;

/// The most bytes that a name may have.
pub(crate) const MAX_NAME_BYTES: usize = 64;

/// What a line asks for, with the name of the block.
#[derive(Clone, Copy, Debug, PartialEq, Eq)]
pub(crate) enum Asked<'a> {
    /// Nothing: it is blank, or a comment.
    Nothing,
    /// A block of at least so many words, and what another allocator answered.
    Get {
        name: &'a [u8],
        words: u32,
        reply: Option<Reply>,
    },
    /// That a block is freed, and what another allocator answered.
    Free {
        name: &'a [u8],
        reply: Option<Reply>,
    },
    /// The free lists.
    Lists,
    /// What is at each place of the store.
    Map,
    /// How much of the store is used.
    Stats,
    /// The end of the trace, which has so many gets and frees.
    End {
        answers: usize,
    },
}

/// What a line asks for, or `None` where it is no call.
pub(crate) fn asked_by(line: &[u8]) -> Option<Asked<'_>> {
    let line = without_return(line);
    let (verb, rest) = first_word(line);
    match verb {
        b"get" => get(rest),
        b"free" => free(rest),
        b"lists" => alone(rest, Asked::Lists),
        b"map" => alone(rest, Asked::Map),
        b"stats" => alone(rest, Asked::Stats),
        b"end" => end(rest),
        _ => {
            if verb.first().is_none_or(|byte| *byte == b'#') {
                Some(Asked::Nothing)
            } else {
                None
            }
        }
    }
}

/// What is asked for if nothing follows.
fn alone<'a>(rest: &[u8], asked: Asked<'a>) -> Option<Asked<'a>> {
    if is_over(rest) { Some(asked) } else { None }
}

/// Whether no word is left of a line.
fn is_over(rest: &[u8]) -> bool {
    let (word, _) = first_word(rest);
    word.is_empty()
}

/// A get, from what follows its verb: a name, a number of words, and perhaps `=` and a reply.
fn get(rest: &[u8]) -> Option<Asked<'_>> {
    let (name, rest) = first_word(rest);
    let (words, rest) = first_word(rest);
    let (word, rest) = reply_word(rest)?;
    let reply = match word {
        b"" => None,
        b"none" if is_over(rest) => Some(Reply::Nothing),
        digits => Some(place_reply(digits, rest)?),
    };
    let words = number_of(words)?;
    if words == 0 || !is_name(name) {
        return None;
    }
    Some(Asked::Get { name, words, reply })
}

/// The reply that gives a place, by its digits and what follows: nothing, or `words` and the size of the block.
fn place_reply(digits: &[u8], rest: &[u8]) -> Option<Reply> {
    let place = number_of(digits)?;
    let (word, rest) = first_word(rest);
    if word.is_empty() {
        return Some(Reply::At { place, size: None });
    }
    let (size, rest) = first_word(rest);
    if word != b"words".as_slice() || !is_over(rest) {
        return None;
    }
    Some(Reply::At {
        place,
        size: Some(number_of(size)?),
    })
}

/// A free, from what follows its verb: a name, and perhaps `=` and how often the piece was joined.
fn free(rest: &[u8]) -> Option<Asked<'_>> {
    let (name, rest) = first_word(rest);
    let (word, rest) = reply_word(rest)?;
    let reply = match word {
        b"" => None,
        digits => Some(Reply::Joined(number_of(digits)?)),
    };
    if !is_name(name) || !is_over(rest) {
        return None;
    }
    Some(Asked::Free { name, reply })
}

/// The end of a trace, from what follows its verb: how many gets and frees the trace has.
fn end(rest: &[u8]) -> Option<Asked<'_>> {
    let (answers, rest) = first_word(rest);
    alone(
        rest,
        Asked::End {
            answers: number_of(answers)? as usize,
        },
    )
}

/// The word after `=` and what follows it, both empty where nothing is left; `None` where there is something else.
fn reply_word(rest: &[u8]) -> Option<(&[u8], &[u8])> {
    let (sign, rest) = first_word(rest);
    if sign.is_empty() {
        return Some((b"", b""));
    }
    let (word, rest) = first_word(rest);
    if sign == b"=".as_slice() && !word.is_empty() {
        Some((word, rest))
    } else {
        None
    }
}

/// Whether a word may name a block.
fn is_name(word: &[u8]) -> bool {
    !word.is_empty() && word.len() <= MAX_NAME_BYTES && word != b"=".as_slice()
}

/// The number that the decimal digits of a word write, if it is at most `MAX_NUMBER`.
fn number_of(word: &[u8]) -> Option<u32>
    ensures { result ≡ spec.number_of word.now }
{
    let mut number: u32 = 0;
    let mut has_digit = false;
    for byte in word {
        let digit = digit_of(*byte)?;
        if number > MAX_NUMBER / BASE {
            return None;
        }
        number = number * BASE + digit;
        has_digit = true;
    }
    if has_digit { Some(number) } else { None }
}

/// The digit that a byte is.
fn digit_of(byte: u8) -> Option<u32>
    ensures { result ≡ spec.digit_of byte }
{
    if byte.is_ascii_digit() {
        Some(u32::from(byte - b'0'))
    } else {
        None
    }
}

/// The first word of a line and what follows it. Both are empty where it has none.
fn first_word(line: &[u8]) -> (&[u8], &[u8]) {
    let Some(start) = line.iter().position(|byte| !is_blank(*byte)) else {
        return (b"", b"");
    };
    let rest = &line[start..];
    match rest.iter().position(|byte| is_blank(*byte)) {
        Some(end) => rest.split_at(end),
        None => (rest, b""),
    }
}

/// Whether a byte separates words.
fn is_blank(byte: u8) -> bool
    ensures { result ≡ spec.is_blank byte }
{
    byte == b' ' || byte == b'\t'
}
