//! Runs in a store of one unit.

use super::run;
use crate::job::Outcome;
use l6_run::{Ending, Options};
use l6_steps::Trap;
use std::test::Fail;

#[test]
fn one_unit_is_soon_full(rt: HostRuntime) -> Result<(), Fail> {
    let rows: [(&[u8], Ending, &[u8]); 3] = [
        (
            b" (A,GT,1024)(B,GT,1)\n",
            Ending::Trap(Trap::StoreFull),
            b"== TRAP 7 STORE FULL AT 0.2 AFTER 2 STEPS\n",
        ),
        (
            b" (A,GT,1024)(B,GT,1,,FULL)\nFULL (B,PD)\n",
            Ending::Done,
            b"0\n== DONE AFTER 8 STEPS\n",
        ),
        // the first get of 512 is refused: 512 words are free, but from no multiple of 512 on
        (
            b" (A,GT,256)(B,GT,256)(C,GT,256)(D,GT,256)\n (B,FR)(C,FR)(E,GT,512,,NO)\nNO (D,FR)(E,GT,512)(E,PD)\n",
            Ending::Done,
            b"1536\n== DONE AFTER 17 STEPS\n",
        ),
    ];
    for (deck, ending, text) in rows {
        let options = Options::new(1, 1_000, 1_000).ok_or("out of range")?;
        let (result, printout) = run(rt.alloc(), deck, options);
        assert_eq!(rt; result, Ok(Outcome::Ran(ending)));
        assert_eq!(rt; printout.as_slice(), text);
    }
    Ok(())
}
