//! What `info` shows, by gdb's names for it.

ghost use Rattle.std.specs.Prelude.{◌≡◌};
ghost use Rattle.std.specs.Str.{bytes_eq};
ghost use Rattle.l6_group.specs.Spelling.{find_spelled};
ghost use Rattle.l6_session.specs.Topics as spec;

use crate::command::Verb;

/// The command that shows what a word in capitals names.
pub(crate) fn topic_of(word: &[u8]) -> Option<Verb>
    ensures { result ≡ spec.topic_of word.now }
{
    if let Some(verb) = info_of_stops(word) {
        return Some(verb);
    }
    if let Some(verb) = info_of_bugs(word) {
        return Some(verb);
    }
    info_of_calls(word)
}

/// What gdb's names stand for: where one stops, and what is kept.
fn info_of_stops(verb: &[u8]) -> Option<Verb>
    ensures { result ≡ find_spelled spec.info_of_stops verb.now }
{
    if is(verb, b"BREAKPOINTS") {
        return Some(Verb::Info);
    }
    if is(verb, b"BREAK") {
        return Some(Verb::Info);
    }
    if is(verb, b"B") {
        return Some(Verb::Info);
    }
    if is(verb, b"WATCHPOINTS") {
        return Some(Verb::Info);
    }
    if is(verb, b"WATCH") {
        return Some(Verb::Info);
    }
    if is(verb, b"DISPLAY") {
        return Some(Verb::Info);
    }
    if is(verb, b"CHECKPOINTS") {
        return Some(Verb::Checkpoints);
    }
    if is(verb, b"PROGRAM") {
        return Some(Verb::Stats);
    }
    None
}

/// What gdb's names stand for: what bugs and fields hold.
fn info_of_bugs(verb: &[u8]) -> Option<Verb>
    ensures { result ≡ find_spelled spec.info_of_bugs verb.now }
{
    if is(verb, b"LOCALS") {
        return Some(Verb::Show);
    }
    if is(verb, b"VARIABLES") {
        return Some(Verb::Show);
    }
    if is(verb, b"ARGS") {
        return Some(Verb::Show);
    }
    if is(verb, b"REGISTERS") {
        return Some(Verb::Show);
    }
    if is(verb, b"REG") {
        return Some(Verb::Show);
    }
    if is(verb, b"R") {
        return Some(Verb::Show);
    }
    if is(verb, b"FIELDS") {
        return Some(Verb::Fields);
    }
    if is(verb, b"TYPES") {
        return Some(Verb::Fields);
    }
    None
}

/// What gdb's names stand for: what waits, and the cards.
fn info_of_calls(verb: &[u8]) -> Option<Verb>
    ensures { result ≡ find_spelled spec.info_of_calls verb.now }
{
    if is(verb, b"FRAME") {
        return Some(Verb::Where);
    }
    if is(verb, b"F") {
        return Some(Verb::Where);
    }
    if is(verb, b"STACK") {
        return Some(Verb::Where);
    }
    if is(verb, b"S") {
        return Some(Verb::Where);
    }
    if is(verb, b"LINE") {
        return Some(Verb::List);
    }
    if is(verb, b"SOURCE") {
        return Some(Verb::List);
    }
    None
}

/// Whether a word is spelled so.
fn is(verb: &[u8], spelling: &[u8]) -> bool
    ensures { result ≡ bytes_eq spelling.now verb.now }
{
    spelling == verb
}
