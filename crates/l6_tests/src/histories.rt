//! How far a history goes on, and which states it keeps, where there is memory for all. The
//! states themselves are shown by sessions of the built program, in `tests/`.

use l6_asm::assemble;
use l6_debug::History;
use l6_machine::Machine;
use l6_steps::Limits;
use l6_store::{Buddy, Places, ScanStore};
use std::alloc::Global;
use std::test::Fail;

/// A statement that is followed by itself, a condition and an exit each time.
const LOOP: &[u8] = b"L L\n";

/// Limits that the runs of the tests do not reach.
const LIMITS: Limits = Limits {
    steps: 100_000,
    output: 0,
};

/// The history of the loop, at its start.
fn history(alloc: Global) -> Result<History<Buddy>, Fail> {
    let program = assemble(alloc, LOOP)?.into_program();
    let store = Buddy::new(alloc, 1)?;
    let machine = Machine::new(alloc, &program, &[], store, LIMITS)?;
    Ok(History::new(alloc, machine))
}

#[test]
fn states_are_reached_from_the_nearest_checkpoint(rt: HostRuntime) -> Result<(), Fail> {
    let mut history = history(rt.alloc())?;
    assert_eq!(rt; history.to(rt.alloc(), 10_000), 10_000);
    assert_eq!(rt; history.to(rt.alloc(), 9_999), 1_807);
    assert_eq!(rt; history.number(), 9_999);
    assert_eq!(rt; history.kept(4_096), true);
    assert_eq!(rt; history.kept(4_095), false);
    assert_eq!(rt; history.to(rt.alloc(), 8_192), 0);
    assert_eq!(rt; history.to(rt.alloc(), 8_191), 4_095);
    Ok(())
}

/// A way forward is cut at each state that is kept, wherever it begins.
#[test]
fn a_long_way_keeps_each_checkpoint(rt: HostRuntime) -> Result<(), Fail> {
    let mut history = history(rt.alloc())?;
    history.to(rt.alloc(), 5);
    history.to(rt.alloc(), 10_000);
    for (number, kept) in [
        (0, false),
        (5, false),
        (4_096, true),
        (8_192, true),
        (10_000, false),
    ] {
        assert_eq!(rt; history.kept(number), kept);
    }
    Ok(())
}

/// Where there is memory for a copy, a checkpoint to which the history goes back stays.
#[test]
fn a_checkpoint_stays_when_it_is_used(rt: HostRuntime) -> Result<(), Fail> {
    let mut history = history(rt.alloc())?;
    history.to(rt.alloc(), 10_000);
    assert_eq!(rt; history.to(rt.alloc(), 4_097), 1);
    assert_eq!(rt; history.kept(4_096), true);
    assert_eq!(rt; history.kept(8_192), true);
    assert_eq!(rt; history.to(rt.alloc(), 4_096), 0);
    assert_eq!(rt; history.to(rt.alloc(), 4_098), 2);
    assert_eq!(rt; history.to(rt.alloc(), 4_097), 1);
    Ok(())
}

#[test]
fn the_oldest_checkpoint_gives_way(rt: HostRuntime) -> Result<(), Fail> {
    let mut history = history(rt.alloc())?;
    assert_eq!(rt; history.to(rt.alloc(), 69_632), 69_632);
    assert_eq!(rt; history.kept(4_096), false);
    assert_eq!(rt; history.kept(8_192), true);
    assert_eq!(rt; history.to(rt.alloc(), 8_191), 8_191);
    Ok(())
}

/// A state that is kept already is not kept twice: so the ring still has all of these.
#[test]
fn a_state_is_kept_once(rt: HostRuntime) -> Result<(), Fail> {
    let mut history = history(rt.alloc())?;
    for number in [65_536, 1, 4_096, 1, 4_096] {
        history.to(rt.alloc(), number);
        assert_eq!(rt; history.number(), number);
    }
    assert_eq!(rt; history.kept(8_192), true);
    Ok(())
}

/// The same where a step at a time leads there, as the debugger goes to a breakpoint.
#[test]
fn a_step_keeps_its_state_once(rt: HostRuntime) -> Result<(), Fail> {
    let mut history = history(rt.alloc())?;
    for (before, number) in [
        (4_095, 4_096),
        (65_535, 65_536),
        (4_095, 4_096),
        (1, 2),
        (4_095, 4_096),
    ] {
        history.to(rt.alloc(), before);
        assert_eq!(rt; history.step(rt.alloc()), true);
        assert_eq!(rt; history.number(), number);
        assert_eq!(rt; history.kept(number), number != 2);
    }
    assert_eq!(rt; history.kept(8_192), true);
    Ok(())
}

#[test]
fn no_step_leads_on_from_the_last_state(rt: HostRuntime) -> Result<(), Fail> {
    let mut history = history(rt.alloc())?;
    history.to(rt.alloc(), LIMITS.steps);
    assert_eq!(rt; history.step(rt.alloc()), false);
    assert_eq!(rt; history.number(), LIMITS.steps);
    Ok(())
}

/// Gets four blocks of a word, frees the first and the third, and gets one into E: the plain store
/// has it at the first place that is free, so at 1024.
const BLOCKS: &[u8] = b" (A,GT,1)(B,GT,1)(C,GT,1)(D,GT,1)(A,FR)(C,FR)(E,GT,1)\n";

/// The place of E among the bugs.
const E: usize = 4;

#[test]
fn a_history_over_the_plain_store_goes_back(rt: HostRuntime) -> Result<(), Fail> {
    let program = assemble(rt.alloc(), BLOCKS)?.into_program();
    let store = ScanStore::new(rt.alloc(), 1)?;
    let machine = Machine::new(rt.alloc(), &program, &[], store, LIMITS)?;
    let mut history = History::new(rt.alloc(), machine);
    for (number, bug, level) in [
        (11, 1024, Some(0)),
        (7, 0, None),
        (5, 0, Some(0)),
        (8, 1024, Some(0)),
        (1, 0, None),
    ] {
        history.to(rt.alloc(), number);
        assert_eq!(rt; history.machine().bugs()[E].get(), bug);
        assert_eq!(rt; history.machine().store().live(1024_u32.into()), level);
    }
    Ok(())
}
