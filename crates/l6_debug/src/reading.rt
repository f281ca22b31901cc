//! How the lines of commands are read.

ghost use Rattle.std.specs.Prelude.{◌≡◌, ◌<◌, [], ◌∷◌, length, MatchOption, IfSome};
ghost use Rattle.std.specs.List.{slice_split};
ghost use Rattle.l6_group.specs.Character.{is_blank};
ghost use Rattle.l6_debug.specs.Command as spec;

use crate::command::{Command, Reading};
use l6_group::{Spelling, decimal_of, is_blank, spelled};
use l6_word::without_return;

/// The greatest number that a command may give.
pub(crate) const MAX_NUMBER: u64 = 1_000_000_000;

/// How many characters the longest word of a command has.
const MAX_COMMAND_WORD: usize = 6;

/// The word that a command begins with.
type CommandWord<'a> = Spelling<'a, MAX_COMMAND_WORD>;

/// What a line of commands is. Its words are between blanks and tabs, and their letters may be of
/// either case.
pub(crate) fn reading_of(line: &[u8]) -> Reading
    ensures { result ≡ spec.reading_of line.now }
{
    let Some((verb, following)) = first_word(without_return(line)) else {
        return Reading::Skipped;
    };
    let Some((number, following)) = first_word(following) else {
        return reading_alone(verb).unwrap_or(Reading::Wrong);
    };
    if first_word(following).is_some() {
        return Reading::Wrong;
    }
    match command_with(verb, number) {
        Some(command) => Reading::Asked(command),
        None => Reading::Wrong,
    }
}

/// What one word asks for.
fn reading_alone(verb: &[u8]) -> Option<Reading>
    ensures { result ≡ spec.reading_alone verb.now }
{
    let verb: CommandWord<'_> = spelled(verb)?;
    match verb.as_slice() {
        b"GO" => Some(Reading::Asked(Command::Go)),
        b"SHOW" => Some(Reading::Asked(Command::Show)),
        b"FIELDS" => Some(Reading::Asked(Command::Fields)),
        b"DRAW" => Some(Reading::Asked(Command::Draw)),
        b"STORE" => Some(Reading::Asked(Command::Store)),
        b"OUT" => Some(Reading::Asked(Command::Out)),
        b"QUIT" => Some(Reading::Quit),
        _ => None,
    }
}

/// What a word and a number ask for.
fn command_with(verb: &[u8], digits: &[u8]) -> Option<Command>
    ensures { result ≡ spec.command_with verb.now digits.now }
{
    let verb: CommandWord<'_> = spelled(verb)?;
    match verb.as_slice() {
        b"STEP" => Some(Command::Step(number_of(digits)?)),
        b"BACK" => Some(Command::Back(number_of(digits)?)),
        b"BREAK" => Some(Command::Break(number_of(digits)?)),
        b"CLEAR" => Some(Command::Clear(number_of(digits)?)),
        b"BLOCK" => Some(Command::Block(number_of(digits)?)),
        _ => None,
    }
}

/// The number that digits write, if it is no greater than a command may give: 1,000,000,000.
pub fn number_of(digits: &[u8]) -> Option<u64>
    ensures { result ≡ spec.number_of digits.now }
{
    let number = decimal_of(digits)?.get();
    if number <= MAX_NUMBER {
        Some(number)
    } else {
        None
    }
}

/// The first word of a line, and what follows it; `None` where it has none. Words are between blanks
/// and tabs.
pub fn first_word(line: &[u8]) -> Option<(&[u8], &[u8])>
    ensures { let words = spec.words_in line.now in
        MatchOption result (words ≡ []) (λ parts. words ≡ parts.0.now ∷ spec.words_in parts.1.now) }
{
    let mut rest = line;
    while let Some((word, following)) = split_at_blank(rest) {
        if !word.is_empty() {
            return Some((word, following));
        }
        rest = following;
    }
    if rest.is_empty() {
        return None;
    }
    Some((rest, &[]))
}

/// The bytes in front of the first blank and those after it, or `None` where no blank is.
fn split_at_blank(bytes: &[u8]) -> Option<(&[u8], &[u8])>
    ensures parts { let parts = slice_split is_blank bytes.now in
        MatchOption result (parts ≡ bytes.now ∷ [])
        (λ cut. parts ≡ cut.0.now ∷ slice_split is_blank cut.1.now) }
    ensures shorter { IfSome result (λ cut. length cut.1.now < length bytes.now) }
{
    let place = bytes.iter().position(|byte| is_blank(*byte))?;
    Some((&bytes[..place], &bytes[place + 1..]))
}
