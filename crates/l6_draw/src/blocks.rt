//! The blocks of a machine's store, and its bugs.

ghost use Rattle.std.specs.Prelude.{◌≡◌, ◌<◌, ◌≤◌, ◌^◌, IfOk};
ghost use Rattle.std.specs.List.{All};
ghost use Rattle.std.specs.FinMap as map;
ghost use Rattle.l6_word.specs.Numerals.{word_bits};
ghost use Rattle.l6_store.specs.Blocks.{block_at};
ghost use Rattle.l6_draw.specs.Reach as reach;
ghost use Rattle.l6_prog.specs.Numerals.{first_letter, name_count};
ghost use Rattle.l6_steps.specs.declared.locus.Locus.TheVariants.{Bug};
ghost use Rattle.l6_steps.specs.Locus.{content};

use l6_machine::Machine;
use l6_prog::Name;
use l6_store::{Place, Places, end_of};
use l6_word::{UNIT_SIZE, Window, Word};
use std::alloc::{AllocError, Global};

/// The places where blocks begin, rising.
pub(crate) fn places<S: Places>(alloc: Global, store: &S) -> Result<Vec<Place>, AllocError>
    ensures { IfOk result (λ places. places.items ≡ map.keys (S.store store.now).blocks) }
{
    let end = end_of(store.units());
    let mut places = Vec::with_capacity(alloc, end as usize)?;
    let mut place = Place::from(UNIT_SIZE);
    while place < end {
        match store.live(Word::from_value(u64::from(place))) {
            None => place += 1,
            Some(level) => {
                places.push(place)?;
                place += 1 << level;
            }
        }
    }
    Ok(places)
}

/// The words of the block at a place, or none where no block begins there.
pub(crate) fn words_at<S: Places>(store: &S, place: Place) -> &[u64]
    ensures value { result.now ≡ block_at (S.store store.now).blocks place }
    ensures words { All (λ word. word < 2 ^ word_bits) result.now }
{
    match store.live(Word::from_value(u64::from(place))) {
        None => &[],
        Some(_) => store.block(place),
    }
}

/// What a bug holds.
pub(crate) fn bug<S: Places>(machine: &Machine<S>, letter: u8) -> Word
    requires letter { first_letter ≤ letter }
    requires name { letter < name_count }
    ensures { result ≡ content machine.now.configuration.state.memory (Bug letter) }
{
    match Name::new(letter) {
        Some(name) => machine.bug(name),
        None => unreachable!(),
    }
}

/// What a field holds in a block of these words, if its word lies in the block.
pub(crate) fn held_by(words: &[u64], field: Option<Window>) -> Option<Word>
    requires { All (λ word. word < 2 ^ word_bits) words.now }
    ensures { result ≡ reach.held_by words.now field }
{
    let window = field?;
    let word = words.get(usize::from(window.word()))?;
    Some(window.take(Word::from_value(*word)))
}
