//! Limits of runs, just within and just past their ranges.

use l6_machine::{Machine, MachineFault};
use l6_prog::{NAMES, Name, Program, Statement};
use l6_run::Options;
use l6_steps::Limits;
use l6_store::{Places, ScanStore};
use std::test::Fail;

#[test]
fn limits_have_their_ranges(rt: HostRuntime) -> Result<(), Fail> {
    let mut statements = Vec::new(rt.alloc());
    statements.push(Statement::plain_done(rt.alloc()))?;
    let program = Program::new(statements)?;
    for (steps, output, fault) in [
        (0, 0, None),
        (1_000_000_000, 16_777_216, None),
        (1_000_000_001, 16_777_216, Some(MachineFault::BadLimits)),
        (1_000_000_000, 16_777_217, Some(MachineFault::BadLimits)),
        (u64::MAX, usize::MAX, Some(MachineFault::BadLimits)),
    ] {
        let store = ScanStore::new(rt.alloc(), 1)?;
        let machine = Machine::new(rt.alloc(), &program, &[], store, Limits { steps, output });
        if let Ok(machine) = &machine {
            assert_eq!(rt; machine.store().units(), 1);
            assert_eq!(rt; machine.definitions().len(), usize::from(NAMES));
            assert!(rt; machine.definition(Name::default()).is_none());
        }
        assert_eq!(rt; machine.err(), fault);
        for (units, is_allowed) in [(0, false), (1, true), (255, true), (256, false)] {
            let options = Options::new(units, steps, output);
            assert_eq!(rt; options.is_some(), is_allowed && fault.is_none());
        }
    }
    Ok(())
}
