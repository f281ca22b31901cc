//! A plain store beside a ledger that the tests keep, over long runs of calls.

ghost use Rattle.std.specs.Prelude.{◌≡◌, ◌<◌, ◌≤◌};
ghost use Rattle.l6_word.specs.Numerals.{largest_level};

use l6_store::{Level, MAX_UNITS, Place, Places, ScanStore, StoreFault};
use l6_word::{LARGEST_LEVEL, UNIT_SIZE, Word};
use std::alloc::{AllocError, Global};
use std::test::Fail;

/// What a store should hold: the block that each place lies in, and its word. The places below the
/// first unit are in a block that never begins.
#[derive(Drop)]
struct Ledger {
    blocks: Vec<Option<usize>>,
    words: Vec<u64>,
}

impl Ledger {
    fn new(alloc: Global, units: u32) -> Result<Self, AllocError> {
        let mut blocks = Vec::new(alloc);
        let mut words = Vec::new(alloc);
        for unit in 0..=units {
            for _ in 0..UNIT_SIZE {
                blocks.push(if unit == 0 { Some(usize::MAX) } else { None })?;
                words.push(0)?;
            }
        }
        Ok(Ledger { blocks, words })
    }

    /// The lowest multiple of a size from which so many places are in no block.
    fn lowest_open(&self, size: usize) -> Option<usize>
        requires { 0 < size }
    {
        for (number, run) in self.blocks.chunks(size).enumerate() {
            if run.iter().all(|block| block.is_none()) {
                return Some(number.saturating_mul(size));
            }
        }
        None
    }

    /// Puts so many places into a block, or into none, and clears their words.
    fn set(&mut self, start: usize, size: usize, block: Option<usize>) {
        for place in self.blocks.iter_mut().skip(start).take(size) {
            *place = block;
        }
        for word in self.words.iter_mut().skip(start).take(size) {
            *word = 0;
        }
    }

    /// Copies so many words.
    fn copy(&mut self, from: usize, to: usize, size: usize) {
        for index in 0..size {
            let word = self.words.get(from.saturating_add(index)).copied();
            if let (Some(word), Some(place)) = (
                word,
                self.words.get_mut(to.saturating_add(index)),
            ) {
                *place = word;
            }
        }
    }

    /// Whether a block begins at a place.
    fn begins(&self, place: usize) -> bool {
        matches!(self.blocks.get(place), Some(Some(start)) if *start == place)
    }

    /// The first place of some block, which the number chooses, if there is one.
    fn chosen(&self, number: usize) -> Option<usize> {
        let count = (0..self.blocks.len())
            .filter(|place| self.begins(*place))
            .count();
        let wanted = number.checked_rem(count)?;
        (0..self.blocks.len())
            .filter(|place| self.begins(*place))
            .nth(wanted)
    }
}

/// A place by its index among the words of a ledger.
fn place_of(index: usize) -> Place {
    Place::try_from(index).unwrap_or(0)
}

/// The number of a place, as a word.
fn word_of(place: Place) -> Word
    ensures { result ≡ place }
{
    Word::wrapping(u64::from(place))
}

/// Whether a store's blocks are those of the ledger, with their words, and it has made no moves.
fn agrees<S: Places>(store: &S, ledger: &Ledger) -> bool {
    if store.moves() != 0 {
        return false;
    }
    for (place, word) in (0..).zip(ledger.words.iter()) {
        let at = place_of(place);
        let level = store.live(word_of(at));
        let size = level.map_or(0, |level| 1 << level);
        if level.is_some() != ledger.begins(place) || store.word(word_of(at), size).is_some() {
            return false;
        }
        if let Some(level) = level {
            let words = store.block(at);
            if words.len() != 1 << level
                || !words
                    .iter()
                    .eq(ledger.words.iter().skip(place).take(words.len()))
                || !(0..size).zip(words.iter()).all(|(index, word)| {
                    store.word(word_of(at), index).map(Word::get) == Some(*word)
                })
            {
                return false;
            }
        }
    }
    true
}

/// Gets a block of a level from both, and says whether they agree.
fn get<S: Places>(store: &mut S, ledger: &mut Ledger, level: Level) -> bool
    requires { level ≤ largest_level }
{
    let size = 1 << level;
    let open = ledger.lowest_open(size);
    let peeked = store.peek(level).map(|place| place as usize);
    let got = store.get(level).map(|place| place as usize);
    if let Some(place) = got {
        ledger.set(place, size, Some(place));
    }
    open == peeked && peeked == got
}

/// Frees the block that the number chooses, if there is one, from both.
fn free<S: Places>(store: &mut S, ledger: &mut Ledger, number: usize) -> bool {
    let Some(start) = ledger.chosen(number) else {
        return true;
    };
    let place = place_of(start);
    let Some(level) = store.live(word_of(place)) else {
        return false;
    };
    store.free(place);
    ledger.set(start, 1 << level, None);
    true
}

/// Writes a word into the block that the number chooses, in both, and says whether they agreed on
/// the old one.
fn write<S: Places>(store: &mut S, ledger: &mut Ledger, number: usize) -> bool {
    let Some(start) = ledger.chosen(number) else {
        return true;
    };
    let place = place_of(start);
    let Some(level) = store.live(word_of(place)) else {
        return false;
    };
    let Some(at) = place.checked_add((number % (1 << level)) as Place) else {
        return false;
    };
    let Some(content) = ledger.words.get_mut(at as usize) else {
        return false;
    };
    let word = Word::wrapping((number as u64).wrapping_mul(0x1_2345_6789));
    let agrees = store.read(at).get() == *content;
    store.write(at, word);
    *content = word.get();
    agrees
}

/// Copies one block that the number chooses into another, in both, where they have one size.
fn copy<S: Places>(store: &mut S, ledger: &mut Ledger, number: usize) -> bool {
    let (Some(from), Some(to)) = (ledger.chosen(number), ledger.chosen(number / 7)) else {
        return true;
    };
    let (source, target) = (place_of(from), place_of(to));
    let (Some(level), Some(other)) = (store.live(word_of(source)), store.live(word_of(target)))
    else {
        return false;
    };
    if source != target && level == other {
        store.copy(source, target);
        ledger.copy(from, to, 1 << level);
    }
    true
}

/// A fixed sequence of numbers below 32,768.
#[derive(Drop)]
struct Numbers {
    last: u64,
}

impl Numbers {
    fn next(&mut self) -> usize {
        self.last = self.last.wrapping_mul(1_103_515_245).wrapping_add(12_345) % (1 << 31);
        (self.last / 65_536) as usize
    }
}

/// Makes one call, which the number chooses, and says whether store and ledger agree on it.
fn call<S: Places>(store: &mut S, ledger: &mut Ledger, number: usize) -> bool {
    let choice = number / 32;
    match number % 32 {
        level @ 0..=10 => get(store, ledger, level as Level),
        11..=17 => free(store, ledger, choice),
        18..=24 => write(store, ledger, choice),
        _ => copy(store, ledger, choice),
    }
}

/// Gets blocks until no place is open, the largest first, and says whether store and ledger agree.
fn fill<S: Places>(store: &mut S, ledger: &mut Ledger) -> bool {
    for level in (0..=LARGEST_LEVEL).rev() {
        for _ in 0..ledger.blocks.len() {
            if store.peek(level).is_none() {
                break;
            }
            if !get(store, ledger, level) {
                return false;
            }
        }
    }
    get(store, ledger, 0) && ledger.lowest_open(1).is_none()
}

/// Frees blocks until there is none, and says whether store and ledger agree.
fn empty<S: Places>(store: &mut S, ledger: &mut Ledger, numbers: &mut Numbers) -> bool {
    for _ in 0..ledger.blocks.len() {
        if ledger.chosen(0).is_none() {
            break;
        }
        if !free(store, ledger, numbers.next()) {
            return false;
        }
    }
    ledger.chosen(0).is_none()
}

#[test]
fn a_store_agrees_with_the_ledger(rt: HostRuntime) -> Result<(), Fail> {
    for (units, calls) in [(1, 1_000), (3, 1_000), (8, 1_000)] {
        let mut store = ScanStore::new(rt.alloc(), units)?;
        let mut ledger = Ledger::new(rt.alloc(), units)?;
        let mut numbers = Numbers { last: 1 };
        for number in 0..calls {
            assert!(rt;
                call(&mut store, &mut ledger, numbers.next()),
                "call {number} of {units} units"
            );
            if units == 1 || number % 500 == 0 {
                assert!(rt;
                    agrees(&store, &ledger),
                    "after call {number} of {units} units"
                );
            }
        }
        assert!(rt;
            fill(&mut store, &mut ledger) && agrees(&store, &ledger),
            "{units} units, full"
        );
        let copy = store.duplicate(rt.alloc())?;
        assert!(rt;
            empty(&mut store, &mut ledger, &mut numbers) && agrees(&store, &ledger),
            "{units} units, empty"
        );
        assert_eq!(rt; store.peek(LARGEST_LEVEL), Some(Place::from(UNIT_SIZE)));
        assert_eq!(rt; copy.peek(0), None);
        assert!(rt; call(&mut store, &mut ledger, 0));
        store.reset();
        let fresh = Ledger::new(rt.alloc(), units)?;
        assert!(rt; agrees(&store, &fresh));
    }
    Ok(())
}

#[test]
fn a_store_has_1_to_255_units(rt: HostRuntime) -> Result<(), Fail> {
    for units in [0, MAX_UNITS + 1, u32::MAX] {
        assert_eq!(rt;
            ScanStore::new(rt.alloc(), units).err(),
            Some(StoreFault::BadUnits)
        );
    }
    for units in [1, MAX_UNITS] {
        assert_eq!(rt; ScanStore::new(rt.alloc(), units)?.units(), units);
    }
    Ok(())
}

#[test]
fn the_largest_store_is_filled_with_words(rt: HostRuntime) -> Result<(), Fail> {
    let mut store = ScanStore::new(rt.alloc(), 255)?;
    for place in 1_024..262_144 {
        assert_eq!(rt; store.get(0), Some(place));
    }
    assert_eq!(rt; store.get(0), None);
    Ok(())
}
