//! The items of a card's body.

ghost use Rattle.std.specs.Prelude.{◌≡◌, ◌≤◌, ◌<◌, ◌++◌, List, ℕ, true, false, length, MatchOption, IfSome};
ghost use Rattle.std.specs.List.{list_all};
ghost use Rattle.l6_group.specs.Character as spec;
ghost use Rattle.l6_card.specs.inner.Token.{BeginsWith, IsUnclosed, ClosesFirst, IsShorter, begins_with_blank, begins_a_word, begins_with_closing, IsCutAtParenthesis};

use l6_group::is_blank;

/// What a body begins with.
pub enum Token<'a> {
    /// Nothing: no item is left.
    End,
    /// A group with these columns between its parentheses, and what follows it.
    Group(&'a [u8], &'a [u8]),
    /// A word with these columns, and what follows it.
    Word(&'a [u8], &'a [u8]),
    /// A `(` that no `)` closes, with the columns from there on.
    Unclosed(&'a [u8]),
    /// A `)` that no `(` opens, with the columns from there on.
    Unopened(&'a [u8]),
}

/// What a body begins with, blanks aside.
pub fn first_item(body: &[u8]) -> Token<'_>
    ensures first { BeginsWith result body.now }
    ensures shorter { IsShorter result body.now }
{
    first_of(skip_blanks(body))
}

/// What a body begins with that begins with no blank.
fn first_of(body: &[u8]) -> Token<'_>
    requires { begins_with_blank body.now ≡ false }
    ensures first { BeginsWith result body.now }
    ensures shorter { IsShorter result body.now }
{
    match body.split_first() {
        None => Token::End,
        Some((column, inside)) => {
            if *column == b'(' {
                match first_group(inside) {
                    Some((columns, following)) => Token::Group(columns, following),
                    None => Token::Unclosed(body),
                }
            } else {
                first_word(body)
            }
        }
    }
}

/// The columns of the group whose `(` is before, and what follows its `)`; `None` where another
/// `(` or the body's end comes first.
fn first_group(inside: &[u8]) -> Option<(&[u8], &[u8])>
    ensures group { MatchOption result (IsUnclosed inside.now)
        (λ parts. ClosesFirst inside.now parts.0.now parts.1.now) }
    ensures following { IfSome result (λ parts. length parts.1.now < length inside.now) }
{
    let (columns, rest) = split_at_parenthesis(inside);
    let (column, following) = rest.split_first()?;
    if *column == b')' {
        Some((columns, following))
    } else {
        None
    }
}

/// The word that a body begins with, if no `)` follows it.
fn first_word(body: &[u8]) -> Token<'_>
    requires { begins_a_word body.now ≡ true }
    ensures first { BeginsWith result body.now }
    ensures shorter { IsShorter result body.now }
{
    let (word, rest) = split_at_parenthesis(body);
    if begins_with_closing(rest) {
        Token::Unopened(rest)
    } else {
        Token::Word(word, rest)
    }
}

/// Whether columns begin with a `)`.
fn begins_with_closing(columns: &[u8]) -> bool
    ensures { result ≡ begins_with_closing columns.now }
{
    match columns.first() {
        None => false,
        Some(column) => *column == b')',
    }
}

/// The columns in front of the first parenthesis, and those from there on.
fn split_at_parenthesis(body: &[u8]) -> (&[u8], &[u8])
    ensures { IsCutAtParenthesis body.now result.0.now result.1.now }
{
    for (place, column) in body.iter().enumerate() {
        if *column == b'(' || *column == b')' {
            return (&body[..place], &body[place..]);
        }
    }
    (body, &body[body.len()..])
}

/// The body without the blanks that it begins with.
fn skip_blanks(body: &[u8]) -> &[u8]
    ensures blanks { (blanks : List ℕ) × (body.now ≡ blanks ++ result.now)
        × (list_all spec.is_blank blanks ≡ true) }
    ensures solid { begins_with_blank result.now ≡ false }
    ensures shorter { length result.now ≤ length body.now }
{
    for (place, column) in body.iter().enumerate() {
        if !is_blank(*column) {
            return &body[place..];
        }
    }
    &body[body.len()..]
}
