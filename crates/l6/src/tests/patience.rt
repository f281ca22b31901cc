//! How long devices are borne that are interrupted or fail.

use super::device::Device;
use super::{DECK, PRINTOUT};
use crate::job::{Outcome, Verb, perform};
use l6_run::{Ending, Host, Options, Part, RunFault, Script, run, run_image};
use std::alloc::Global;
use std::io;

/// What becomes of the deck where its reader and the writer move a byte a call, are interrupted so
/// often at first, and the writer fails from that call on: the answer, and what went out.
fn ran(
    alloc: Global,
    reads: u64,
    writes: u64,
    failing: Option<u64>,
) -> (Result<Ending, RunFault>, Vec<u8>) {
    let mut cards = Script::new(DECK, 1, reads, None);
    let mut sink = Script::new(Vec::new(alloc), 1, writes, failing);
    let result = run(
        alloc,
        &mut cards,
        &mut Host::new(b"".as_slice()),
        &mut sink,
        Options::default(),
    );
    (result, sink.into_inner())
}

/// What becomes of the job of the same deck: the answer, and how much went out.
fn performed(alloc: Global, reads: u64, writes: u64) -> (Result<Outcome, RunFault>, usize) {
    let mut job = Script::new(DECK, 1, reads, None);
    let mut sink = Script::new(Vec::new(alloc), 1, writes, None);
    let result = perform(alloc, Verb::Run, Options::default(), &mut job, &mut sink);
    (result, sink.into_inner().len())
}

#[test]
fn a_writer_fails_after_each_byte(rt: HostRuntime) {
    for count in 0..24 {
        let (result, written) = ran(rt.alloc(), 0, 0, Some(count as u64));
        assert_eq!(rt; result, Err(RunFault::Write(count as u64)));
        assert_eq!(rt; written.as_slice(), &PRINTOUT[..count]);
    }
    let (result, written) = ran(rt.alloc(), 0, 0, Some(24));
    assert_eq!(rt; result, Ok(Ending::Done));
    assert_eq!(rt; written.as_slice(), PRINTOUT);
}

#[test]
fn a_run_retried_a_thousand_times_in_all(rt: HostRuntime) {
    let done = Ok(Ending::Done);
    let unwritten = Err(RunFault::Write(0));
    let rows: [(u64, u64, Result<Ending, RunFault>, usize); 6] = [
        (1_000, 0, done, 24),
        (1_001, 0, Err(RunFault::Read(Part::Deck)), 0),
        (600, 400, done, 24),
        (600, 401, unwritten, 0),
        (0, 1_000, done, 24),
        (0, 1_001, unwritten, 0),
    ];
    for (reads, writes, answer, count) in rows {
        let (result, written) = ran(rt.alloc(), reads, writes, None);
        assert_eq!(rt; result, answer);
        assert_eq!(rt; written.len(), count);
    }
}

#[test]
fn a_job_is_read_with_a_patience_of_its_own(rt: HostRuntime) {
    let done = Ok(Outcome::Ran(Ending::Done));
    let rows: [(u64, u64, Result<Outcome, RunFault>, usize); 3] = [
        (1_000, 1_000, done, 24),
        (1_001, 0, Err(RunFault::Read(Part::Job)), 0),
        (1_000, 1_001, Err(RunFault::Write(0)), 0),
    ];
    for (reads, writes, answer, count) in rows {
        let (result, written) = performed(rt.alloc(), reads, writes);
        assert_eq!(rt; result, answer);
        assert_eq!(rt; written, count);
    }
}

#[test]
fn a_reader_fails_at_its_second_read(rt: HostRuntime) {
    let mut sink = Script::new(Vec::new(rt.alloc()), 1, 0, None);
    for part in [Part::Deck, Part::Input] {
        let failing = |which| (part == which).then_some(1);
        let mut cards = Script::new(DECK, 1, 0, failing(Part::Deck));
        let mut lines = Script::new(b"x".as_slice(), 1, 0, failing(Part::Input));
        let result = run(
            rt.alloc(),
            &mut cards,
            &mut lines,
            &mut sink,
            Options::default(),
        );
        assert_eq!(rt; result, Err(RunFault::Read(part)));
    }
    let mut image = Script::new(b"012345670123\n".as_slice(), 1, 0, Some(1));
    let mut lines = Host::new(b"".as_slice());
    let result = run_image(
        rt.alloc(),
        &mut image,
        &mut lines,
        &mut sink,
        Options::default(),
    );
    assert_eq!(rt; result, Err(RunFault::Read(Part::Image)));
    let mut job = Script::new(DECK, 1, 0, Some(1));
    let result = perform(
        rt.alloc(),
        Verb::Run,
        Options::default(),
        &mut job,
        &mut sink,
    );
    assert_eq!(rt; result, Err(RunFault::Read(Part::Job)));
    assert_eq!(rt; sink.calls(), 0);
}

#[test]
fn a_deck_without_an_end_is_too_long(rt: HostRuntime) {
    let mut cards = Host::new(Device::new(io::repeat(b' '), 65_536, 0, None));
    let mut sink = Script::new(Vec::new(rt.alloc()), 1, 0, None);
    let result = run(
        rt.alloc(),
        &mut cards,
        &mut Host::new(b"".as_slice()),
        &mut sink,
        Options::default(),
    );
    assert_eq!(rt; result, Err(RunFault::TooLong(Part::Deck)));
    // 16 reads of 65,536 bytes, and one of a single byte.
    assert_eq!(rt; cards.into_inner().calls, 17);
    assert_eq!(rt; sink.calls(), 0);
}
