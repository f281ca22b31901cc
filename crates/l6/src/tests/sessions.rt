//! Sessions of the debugger on devices with troubles. Other sessions, also with as many commands as
//! there may be, are cases of the built program.

use l6_debug::debug;
use l6_run::{Options, Part, RunFault, Script};
use std::alloc::Global;

/// What becomes of a session where the four devices move a byte a call, and fail from these calls on:
/// the answer, and what went out.
fn debugged(alloc: Global, failing: [Option<u64>; 4]) -> (Result<(), RunFault>, Vec<u8>) {
    let mut cards = Script::new(b" (AN,PD)\n".as_slice(), 1, 0, failing[0]);
    let mut lines = Script::new(b"x\n".as_slice(), 1, 0, failing[1]);
    let mut asked = Script::new(b"go\nback 1\n".as_slice(), 1, 0, failing[2]);
    let mut sink = Script::new(Vec::new(alloc), 1, 0, failing[3]);
    let result = debug(
        alloc,
        &mut cards,
        &mut lines,
        &mut asked,
        &mut sink,
        Options::default(),
    );
    (result, sink.into_inner())
}

#[test]
fn sessions_have_the_troubles_of_their_devices(rt: HostRuntime) {
    let text: &[u8] = b"== TRAP 1 UNDEFINED FIELD AT 0.1 AFTER 1 STEPS\nAT 0.1 AFTER 1 STEPS\n";
    let (result, written) = debugged(rt.alloc(), [None; 4]);
    assert_eq!(rt; result, Ok(()));
    assert_eq!(rt; written.as_slice(), text);
    let parts = [Part::Deck, Part::Input, Part::Commands];
    for (place, part) in parts.into_iter().enumerate() {
        let mut failing = [None; 4];
        failing[place] = Some(1);
        let (result, written) = debugged(rt.alloc(), failing);
        assert_eq!(rt; result, Err(RunFault::Read(part)));
        assert_eq!(rt; written.len(), 0);
    }
    for count in 0..text.len() {
        let (result, written) = debugged(rt.alloc(), [None, None, None, Some(count as u64)]);
        assert_eq!(rt; result, Err(RunFault::Write(count as u64)));
        assert_eq!(rt; written.as_slice(), &text[..count]);
    }
}
