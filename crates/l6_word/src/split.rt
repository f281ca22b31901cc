//! Cutting bytes at a separator.

ghost use Rattle.std.specs.Prelude.{◌≡◌, ◌+◌, ◌++◌, List, ℕ, not, true, length, IfSome, IfNone};
ghost use Rattle.std.specs.Str.{byte};
ghost use Rattle.l6_word.specs.Split.{lacks, IsCutAt};

/// The bytes before the first `separator` and those after it, or `None` if there is none.
pub fn split_once(bytes: &[u8], separator: u8) -> Option<(&[u8], &[u8])>
    ensures none { IfNone result (lacks separator bytes.now ≡ true) }
    ensures parts { IfSome result (λ parts. IsCutAt separator bytes.now parts.0.now parts.1.now) }
    ensures lengths { let whole = length bytes.now in
        IfSome result (λ parts. length parts.0.now + length parts.1.now + 1 ≡ whole) }
{
    let place = bytes.iter().position(|byte| *byte == separator)?;
    Some((&bytes[..place], &bytes[place + 1..]))
}

/// How many bytes are searched for a line feed at once.
const BLOCK: usize = 16;

/// The bytes before the first line feed and those after it, or `None` if there is none.
// Lines are long, and whole decks are cut into them, so they are searched block by block.
pub fn split_line(text: &[u8]) -> Option<(&[u8], &[u8])>
    ensures none { IfNone result (lacks (byte "\n") text.now ≡ true) }
    ensures parts { IfSome result (λ parts. IsCutAt (byte "\n") text.now parts.0.now parts.1.now) }
    ensures lengths { let whole = length text.now in
        IfSome result (λ parts. length parts.0.now + length parts.1.now + 1 ≡ whole) }
{
    let (_, following) = split_once(skip_blocks(text), b'\n')?;
    Some((&text[..text.len() - following.len() - 1], following))
}

/// The text without the blocks at its front that have no line feed.
fn skip_blocks(text: &[u8]) -> &[u8]
    ensures { (front : List ℕ) × (text.now ≡ front ++ result.now)
        × (lacks (byte "\n") front ≡ true) }
{
    let mut rest = text;
    while rest.len() >= BLOCK {
        let (block, following) = rest.split_at(BLOCK);
        if has_line_feed(block) {
            return rest;
        }
        rest = following;
    }
    rest
}

/// Whether there is a line feed in a block.
// Each byte is looked at, since then all are looked at together.
fn has_line_feed(block: &[u8]) -> bool
    ensures { result ≡ not (lacks (byte "\n") block.now) }
{
    let mut is_found = false;
    for byte in block {
        is_found |= *byte == b'\n';
    }
    is_found
}
