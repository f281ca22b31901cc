//! The lines of a text.

ghost use Rattle.std.specs.Prelude.{◌≡◌, ◌<◌, ◌≤◌, [], ◌∷◌, length, MatchOption, IfSome};
ghost use Rattle.l6_word.specs.Lines as spec;

use crate::split::split_line;

/// The first line of a text, without its line feed, and the text after it; `None` where there is
/// no line.
pub fn first_line(text: &[u8]) -> Option<(&[u8], &[u8])>
    ensures lines { let lines = spec.lines_of text.now in
        MatchOption result (lines ≡ []) (λ parts. lines ≡ parts.0.now ∷ spec.lines_of parts.1.now) }
    ensures shorter { IfSome result (λ parts. length parts.1.now < length text.now) }
{
    if let Some(parts) = split_line(text) {
        return Some(parts);
    }
    if text.is_empty() {
        return None;
    }
    Some((text, &[]))
}

/// The line without a carriage return that is its last byte.
pub fn without_return(line: &[u8]) -> &[u8]
    ensures value { result.now ≡ spec.without_return line.now }
    ensures shorter { length result.now ≤ length line.now }
{
    if !line.is_empty() && line[line.len() - 1] == b'\r' {
        &line[..line.len() - 1]
    } else {
        line
    }
}
