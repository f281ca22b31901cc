//! What is reached, of a memory that was worked out by hand. Drawings and maps are cases of the built
//! program, in `tests/`.

use l6_asm::assemble;
use l6_draw::reachable;
use l6_machine::Machine;
use l6_steps::Limits;
use l6_store::ScanStore;
use std::test::Fail;

/// Limits that the run of the test does not reach.
const LIMITS: Limits = Limits {
    steps: 100,
    output: 0,
};

/// Two blocks that lead to each other.
const RING: &[u8] = b" (0,DN,18,35)(X,GT,2)(Y,GT,2)(XN,E,Y)(YN,E,X)\nB (A,A,1)\n";

#[test]
fn places_are_reached(rt: HostRuntime) -> Result<(), Fail> {
    let program = assemble(rt.alloc(), RING)?.into_program();
    let store = ScanStore::new(rt.alloc(), 8)?;
    let mut machine = Machine::new(rt.alloc(), &program, &[], store, LIMITS)?;
    machine.run();
    assert_eq!(rt;
        reachable(rt.alloc(), &machine)?.as_slice(),
        [1024, 1026].as_slice()
    );
    Ok(())
}
