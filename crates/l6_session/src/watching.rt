//! How it is read what is watched: a chain, or a word of a block.

ghost use Rattle.std.specs.Prelude.{◌≡◌};
ghost use Rattle.std.specs.Option.{option_map};
ghost use Rattle.l6_debug.specs.Command as commands;
ghost use Rattle.l6_session.specs.Reading as spec;

use crate::command::{Command, Reading, Setting};
use crate::parted::parted;
use crate::reading::{operand_of, without_dollar};
use l6_debug::number_of;
use l6_group::chain_of;
use l6_history::{BlockWord, Watched};
use l6_prog::{Chain, Operand};
use l6_word::UNIT_SIZE;

/// What is watched: after a star a word of a block, else a chain.
pub(crate) fn watch_of(word: &[u8]) -> Reading
    ensures { result ≡ spec.watch_by word.now }
{
    match after_star(word) {
        Some(rest) => watch_word(word_of(rest)),
        None => watch_chain(chain_of(without_dollar(word))),
    }
}

/// A word of a block that is watched, if it is one.
fn watch_word(word: Option<(Operand, u16)>) -> Reading
    ensures { result ≡ spec.watch_word word }
{
    match word {
        Some((operand, word)) => Reading::Asked(Command::WatchWord(operand, word)),
        None => Reading::NoChain,
    }
}

/// A chain that is watched, if it is one.
fn watch_chain(chain: Option<Chain>) -> Reading
    ensures { result ≡ spec.watch_chain chain }
{
    match chain {
        Some(chain) => Reading::Asked(Command::Setting(Setting::Watch(Watched::Chain(chain)))),
        None => Reading::NoChain,
    }
}

/// What is watched no longer: after a star a word of the block at a place, else a number or a chain.
pub(crate) fn unwatch_of(word: &[u8]) -> Reading
    ensures { result ≡ spec.unwatch_by word.now }
{
    match after_star(word) {
        Some(rest) => unwatch_word(word_of(rest)),
        None => unwatch_chain(number_of(word), chain_of(without_dollar(word))),
    }
}

/// A word of a block that is watched no longer, if its place is given.
fn unwatch_word(word: Option<(Operand, u16)>) -> Reading
    ensures { result ≡ spec.unwatch_word word }
{
    match word {
        Some((operand, word)) => unwatch_at(operand, word),
        None => Reading::NoChain,
    }
}

/// A word of the block at a place that is watched no longer.
fn unwatch_at(operand: Operand, word: u16) -> Reading
    ensures { result ≡ spec.unwatch_at operand word }
{
    match operand {
        Operand::Number(place) => {
            let at = BlockWord { place, word };
            Reading::Asked(Command::Setting(Setting::UnwatchThis(Watched::Word(at))))
        }
        Operand::Chain(_) => Reading::NoChain,
    }
}

/// What is watched no longer, by its number, or a chain by its names.
fn unwatch_chain(number: Option<u64>, chain: Option<Chain>) -> Reading
    ensures { result ≡ spec.unwatch_chain number chain }
{
    match (number, chain) {
        (Some(number), _) => Reading::Asked(Command::Setting(Setting::Unwatch(number))),
        (None, Some(chain)) => {
            Reading::Asked(Command::Setting(Setting::UnwatchThis(Watched::Chain(chain))))
        }
        (None, None) => Reading::NoChain,
    }
}

/// What follows a star that a word begins with.
fn after_star(word: &[u8]) -> Option<&[u8]>
    ensures { option_map (λ rest. rest.now) result ≡ spec.after_star word.now }
{
    let (first, rest) = word.split_first()?;
    if *first == b'*' { Some(rest) } else { None }
}

/// What leads to a block and which of its words is meant, by what follows a star.
fn word_of(word: &[u8]) -> Option<(Operand, u16)>
    ensures { result ≡ spec.word_of word.now }
{
    match parted(word, b'+') {
        Some((link, digits)) => word_with(operand_of(without_dollar(link)), index_of(digits)),
        None => word_with(operand_of(without_dollar(word)), Some(0)),
    }
}

/// A word of a block, if both are known.
fn word_with(operand: Option<Operand>, word: Option<u16>) -> Option<(Operand, u16)>
    ensures { result ≡ spec.word_with operand word }
{
    match (operand, word) {
        (Some(operand), Some(word)) => Some((operand, word)),
        _ => None,
    }
}

/// Which word of a block digits name, if a block may have it.
fn index_of(digits: &[u8]) -> Option<u16>
    ensures { result ≡ spec.word_index (commands.number_of digits.now) }
{
    let number = number_of(digits)?;
    if number < u64::from(UNIT_SIZE) {
        Some(number as u16)
    } else {
        None
    }
}
