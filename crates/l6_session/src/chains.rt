//! Chains and words among those that are watched or displayed.

ghost use Rattle.std.specs.Prelude.{◌≡◌};
ghost use Rattle.l6_session.specs.SessionState as spec;

use l6_history::{BlockWord, Watched};
use l6_prog::{Chain, Name};

/// The number of a chain among some, counted from 1 on, or one that none of them has.
pub(crate) fn number_in(chains: &[Chain], chain: &Chain) -> u64
    ensures { result ≡ spec.number_in chains.now chain.now }
{
    let mut number: u64 = 1;
    let mut rest = chains;
    while let Some((first, following)) = rest.split_first() {
        if is_same(first.names(), chain.names()) {
            return number;
        }
        number += 1;
        rest = following;
    }
    number
}

/// The number of what is watched among some, counted from 1 on, or one that none has.
pub(crate) fn number_of_watched(watched: &[Watched], wanted: &Watched) -> u64
    ensures { result ≡ spec.number_of_watched watched.now wanted.now }
{
    let mut rank: u64 = 1;
    let mut rest = watched;
    while let Some((first, following)) = rest.split_first() {
        if is_same_watched(first, wanted) {
            return rank;
        }
        rank += 1;
        rest = following;
    }
    rank
}

/// Whether the same is watched: a chain, or a word of a block.
fn is_same_watched(one: &Watched, other: &Watched) -> bool
    ensures { result ≡ spec.is_same_watched one.now other.now }
{
    match (one, other) {
        (Watched::Chain(one), Watched::Chain(other)) => is_same(one.names(), other.names()),
        (Watched::Word(one), Watched::Word(other)) => is_same_word(*one, *other),
        _ => false,
    }
}

/// Whether two words are the same one of a block.
fn is_same_word(one: BlockWord, other: BlockWord) -> bool
    ensures { result ≡ spec.is_same_word one other }
{
    one.place.get() == other.place.get() && one.word == other.word
}

/// Whether two chains have the same names.
fn is_same(one: &[Name], other: &[Name]) -> bool
    ensures { result ≡ spec.is_same one.now other.now }
{
    let mut one = one;
    let mut other = other;
    while let (Some((a, further)), Some((b, following))) = (
        one.split_first(),
        other.split_first(),
    ) {
        if a.number() != b.number() {
            return false;
        }
        one = further;
        other = following;
    }
    one.is_empty() && other.is_empty()
}
