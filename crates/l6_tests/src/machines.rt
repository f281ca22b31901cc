//! Machines over both stores: where they differ, and step by step one, a copy that is made of it in the
//! middle of its run, and the same machine after it is reset.

use l6_asm::assemble;
use l6_machine::{Halt, Machine, StepResult};
use l6_steps::Limits;
use l6_store::{Buddy, Places, ScanStore};
use std::alloc::Global;
use std::test::Fail;

/// Gets two blocks of 4 words: field N of each keeps what X held before.
const DECK: &[u8] = b" (1,DN,18,35)(X,GT,3,XN)(X,GT,3,XN)(X,PD)(PL)(XN,PD)\n";

/// Gets four blocks of a word, frees the first and the third, and prints where one more begins.
const BLOCKS: &[u8] = b" (A,GT,1)(B,GT,1)(C,GT,1)(D,GT,1)(A,FR)(C,FR)(E,GT,1)(E,PD)\n";

/// Limits that their runs do not reach.
const LIMITS: Limits = Limits {
    steps: 100,
    output: 100,
};

/// The place of X among the bugs.
const X: usize = 23;

#[test]
fn a_machine_over_the_buddy_system_goes_its_own_way(rt: HostRuntime) -> Result<(), Fail> {
    let program = assemble(rt.alloc(), DECK)?.into_program();
    let store = Buddy::new(rt.alloc(), 1)?;
    let machine = Machine::new(rt.alloc(), &program, &[], store, LIMITS)?;
    assert!(rt; goes_its_own_way(rt.alloc(), machine)?);
    Ok(())
}

#[test]
fn a_machine_over_the_plain_store_goes_its_own_way(rt: HostRuntime) -> Result<(), Fail> {
    let program = assemble(rt.alloc(), DECK)?.into_program();
    let store = ScanStore::new(rt.alloc(), 1)?;
    let machine = Machine::new(rt.alloc(), &program, &[], store, LIMITS)?;
    assert!(rt; goes_its_own_way(rt.alloc(), machine)?);
    Ok(())
}

#[test]
fn the_buddy_system_gives_what_was_freed_last(rt: HostRuntime) -> Result<(), Fail> {
    let program = assemble(rt.alloc(), BLOCKS)?.into_program();
    let store = Buddy::new(rt.alloc(), 1)?;
    let machine = Machine::new(rt.alloc(), &program, &[], store, LIMITS)?;
    assert!(rt; prints(machine, b"1026"));
    Ok(())
}

#[test]
fn the_plain_store_gives_the_first_free_place(rt: HostRuntime) -> Result<(), Fail> {
    let program = assemble(rt.alloc(), BLOCKS)?.into_program();
    let store = ScanStore::new(rt.alloc(), 1)?;
    let machine = Machine::new(rt.alloc(), &program, &[], store, LIMITS)?;
    assert!(rt; prints(machine, b"1024"));
    Ok(())
}

/// Whether a machine runs to the end and has printed this.
fn prints<S: Places>(mut machine: Machine<S>, output: &[u8]) -> bool
where
    S: Drop,
{
    machine.run();
    machine.output() == output && machine.ending() == Some(Halt::Done)
}

/// Whether a machine that is copied after 3 steps reaches its end, its copy the same end later, and
/// the machine once more after it is reset.
fn goes_its_own_way<S: Places>(alloc: Global, mut machine: Machine<S>) -> Result<bool, Fail>
where
    S: Drop,
{
    let mut well = shows(&machine, 0, 0, b"", None) && has_blocks(&machine, 0);
    for _ in 0..3 {
        well &= machine.step() == StepResult::Went;
    }
    well &= shows(&machine, 3, 1024, b"", None) && has_blocks(&machine, 1);
    let mut copy = machine.duplicate(alloc)?;
    well &= has_ended(&mut machine) && has_blocks(&machine, 2);
    well &= shows(&copy, 3, 1024, b"", None) && has_blocks(&copy, 1);
    well &= has_ended(&mut copy) && has_blocks(&copy, 2);
    machine.reset();
    well &= shows(&machine, 0, 0, b"", None) && has_blocks(&machine, 0);
    well &= has_ended(&mut machine) && has_blocks(&machine, 2);
    Ok(well && shows(&copy, 10, 1028, b"1028\n1024", Some(Halt::Done)))
}

/// Steps a machine until it goes no further, and answers whether that is the end of the deck's run.
fn has_ended<S: Places>(machine: &mut Machine<S>) -> bool {
    for _ in 0..100 {
        match machine.step() {
            StepResult::Went => {}
            StepResult::Ended => return shows(machine, 10, 1028, b"1028\n1024", Some(Halt::Done)),
            StepResult::Trapped(_) | StepResult::AtLimit => return false,
        }
    }
    false
}

/// Whether a machine is at this count, with this number in X, this output and this ending.
fn shows<S: Places>(
    machine: &Machine<S>,
    count: u64,
    x: u64,
    output: &[u8],
    ending: Option<Halt>,
) -> bool {
    machine.count() == count
        && machine.bugs()[X].get() == x
        && machine.output() == output
        && machine.ending() == ending
}

/// Whether just the first of the two blocks are there.
fn has_blocks<S: Places>(machine: &Machine<S>, count: usize) -> bool {
    let store = machine.store();
    let first = store.live(1024_u32.into()) == Some(2);
    let second = store.live(1028_u32.into()) == Some(2);
    (first, second) == (0 < count, 1 < count)
}
