//! A store of one's own, written from the required calls of `Places` alone: machines and histories run
//! on it. It counts its gets, and so the steps that a history has a machine make.

use l6_asm::assemble;
use l6_debug::History;
use l6_machine::Machine;
use l6_steps::Limits;
use l6_store::{Level, Place, Places, ScanStore};
use l6_word::Word;
use std::alloc::{AllocError, Global};
use std::cell::Cell;
use std::test::Fail;

/// A plain store that counts its gets, and those of its copies.
#[derive(Drop)]
struct CountedStore<'a> {
    places: ScanStore,
    gets: &'a Cell<u64>,
}

impl<'a> Places for CountedStore<'a> {
    ghost use Rattle.l6_store.specs.Scan.{scan_rule};

    ghost rule = { scan_rule };

    ghost store = { λ counted. counted.places };

    fn units(&self) -> u32 {
        self.places.units()
    }

    fn live(&self, word: Word) -> Option<Level> {
        self.places.live(word)
    }

    fn peek(&self, level: Level) -> Option<Place> {
        self.places.peek(level)
    }

    fn get(&mut self, level: Level) -> Option<Place> {
        self.gets.set(self.gets.get().saturating_add(1));
        self.places.get(level)
    }

    fn free(&mut self, place: Place) {
        self.places.free(place);
    }

    fn copy(&mut self, from: Place, to: Place) {
        self.places.copy(from, to);
    }

    fn read(&self, place: Place) -> Word {
        self.places.read(place)
    }

    fn write(&mut self, place: Place, word: Word) {
        self.places.write(place, word);
    }

    fn block(&self, place: Place) -> &[u64] {
        self.places.block(place)
    }

    fn moves(&self) -> u32 {
        self.places.moves()
    }

    fn duplicate(&self, alloc: Global) -> Result<Self, AllocError> {
        Ok(CountedStore {
            places: self.places.duplicate(alloc)?,
            gets: self.gets,
        })
    }

    fn reset(&mut self) {
        self.places.reset();
    }
}

/// A loop of four steps: its condition, a get, a free and its exit.
const LOOP: &[u8] = b"L (X,GT,1)(X,FR) L\n";

/// Limits that the runs do not reach.
const LIMITS: Limits = Limits {
    steps: 100_000,
    output: 0,
};

/// The history of the loop, at its start.
fn history<'a>(alloc: Global, gets: &'a Cell<u64>) -> Result<History<CountedStore<'a>>, Fail> {
    let program = assemble(alloc, LOOP)?.into_program();
    let store = CountedStore {
        places: ScanStore::new(alloc, 1)?,
        gets,
    };
    let machine = Machine::new(alloc, &program, &[], store, LIMITS)?;
    Ok(History::new(alloc, machine))
}

/// The state to which a history goes, and how many of the steps made on the way are gets: those from
/// states 1, 5, 9 and so on, from the nearest checkpoint or the present state on.
const WAYS: [(u64, u64); 7] = [
    (10_000, 2_500),
    (9_999, 452),
    (9_999, 0),
    (8_192, 0),
    (8_191, 1_024),
    (5, 1),
    (6, 1),
];

#[test]
fn a_history_makes_the_steps_that_it_answers(rt: HostRuntime) -> Result<(), Fail> {
    let gets = Cell::new(0);
    let mut history = history(rt.alloc(), &gets)?;
    for (number, want) in WAYS {
        let before = gets.get();
        history.to(rt.alloc(), number);
        assert_eq!(rt; history.number(), number);
        assert_eq!(rt; gets.get().saturating_sub(before), want);
    }
    Ok(())
}

/// The 17th checkpoint takes the place of the first, by the `take_from` that every store has.
#[test]
fn a_store_of_ones_own_takes_over_another(rt: HostRuntime) -> Result<(), Fail> {
    let gets = Cell::new(0);
    let mut history = history(rt.alloc(), &gets)?;
    history.to(rt.alloc(), 69_634);
    assert_eq!(rt; history.kept(4_096), false);
    assert_eq!(rt; history.kept(69_632), true);
    assert_eq!(rt;
        history.machine().store().live(Word::from(1_024_u32)),
        Some(0)
    );
    history.to(rt.alloc(), 69_633);
    assert_eq!(rt; history.machine().store().live(Word::from(1_024_u32)), None);
    Ok(())
}
