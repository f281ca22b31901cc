//! What no clause says: that calls succeed if there is enough memory, and the answers to jobs
//! worked out by hand. Decks under the default options are cases of the built program, in `tests/`.

mod device;
mod faults;
mod hosts;
mod limits;
mod patience;
mod programs;
mod scripts;
mod sessions;
mod stores;
mod transfers;

use crate::job::{Outcome, Verb, perform};
use device::Device;
use l6_run::{Ending, Host, Options, Part, RunFault};
use l6_steps::Trap;
use std::alloc::Global;
use std::io::ErrorKind;
use std::test::Fail;

/// The deck of these tests.
const DECK: &[u8] = b" (A,E,5)(A,PD)\n";

/// Its printout under the default options.
const PRINTOUT: &[u8] = b"5\n== DONE AFTER 6 STEPS\n";

#[test]
fn limits_stop_a_run(rt: HostRuntime) -> Result<(), Fail> {
    let full = Ending::Trap(Trap::OutputFull);
    let rows: [(&[u8], u64, usize, Ending, &[u8]); 6] = [
        (DECK, 1_000_000_000, 16_777_216, Ending::Done, PRINTOUT),
        (DECK, 6, 1, Ending::Done, PRINTOUT),
        (DECK, 5, 1, Ending::Limit, b"5\n== LIMIT AFTER 5 STEPS\n"),
        (DECK, 0, 0, Ending::Limit, b"== LIMIT AFTER 0 STEPS\n"),
        (
            DECK,
            9,
            0,
            full,
            b"== TRAP 14 OUTPUT FULL AT 0.2 AFTER 2 STEPS\n",
        ),
        (
            b" (A,PD)\n",
            9,
            0,
            full,
            b"== TRAP 14 OUTPUT FULL AT 0.1 AFTER 1 STEPS\n",
        ),
    ];
    for (deck, steps, output, ending, text) in rows {
        let options = Options::new(64, steps, output).ok_or("out of range")?;
        let (result, printout) = run(rt.alloc(), deck, options);
        assert_eq!(rt; result, Ok(Outcome::Ran(ending)));
        assert_eq!(rt; printout.as_slice(), text);
    }
    Ok(())
}

/// What becomes of a deck under these options, and what is printed.
fn run(alloc: Global, deck: &[u8], options: Options) -> (Result<Outcome, RunFault>, Vec<u8>) {
    let mut reader = Host::new(deck);
    let mut writer = Host::new(Vec::new(alloc));
    let result = perform(alloc, Verb::Run, options, &mut reader, &mut writer);
    (result, writer.into_inner())
}

/// What became of a job.
#[derive(Drop)]
struct Report {
    result: Result<Outcome, RunFault>,
    /// What went out.
    written: Vec<u8>,
    /// How often the reader was asked.
    reads: u32,
    /// How often the writer was asked.
    writes: u32,
    /// How often the writer was flushed.
    flushes: u32,
}

/// What becomes of the deck on devices that move so many bytes a call, and have this trouble at the
/// call of that number.
fn performed(
    alloc: Global,
    (reader_piece, reader_failing): (usize, u32),
    (writer_piece, writer_failing): (usize, u32),
    error: Option<ErrorKind>,
) -> Report {
    let mut reader = Host::new(Device::new(DECK, reader_piece, reader_failing, error));
    let mut writer = Host::new(Device::new(Vec::new(alloc), writer_piece, writer_failing, error));
    let result = perform(
        alloc,
        Verb::Run,
        Options::default(),
        &mut reader,
        &mut writer,
    );
    let source = reader.into_inner();
    let sink = writer.into_inner();
    Report {
        result,
        reads: source.calls,
        writes: sink.calls,
        flushes: sink.flushes,
        written: sink.bytes,
    }
}

#[test]
fn devices_fail_at_a_call(rt: HostRuntime) {
    let error = Some(ErrorKind::Other);
    // By single bytes the deck and its end are 16 reads, and the printout is 24 writes.
    for call in 1..17 {
        let job = performed(rt.alloc(), (1, call), (64, 0), error);
        assert_eq!(rt; job.result, Err(RunFault::Read(Part::Job)));
        assert_eq!(rt; job.written.len(), 0);
        assert_eq!(rt; job.reads, call);
        assert_eq!(rt; job.writes, 0);
    }
    for call in 1..25 {
        for error in [error, None] {
            let job = performed(rt.alloc(), (64, 0), (1, call), error);
            let count = call - 1;
            assert_eq!(rt; job.result, Err(RunFault::Write(u64::from(count))));
            assert_eq!(rt; job.written.as_slice(), &PRINTOUT[..count as usize]);
            assert_eq!(rt; job.reads, 2);
            assert_eq!(rt; job.writes, call);
            assert_eq!(rt; job.flushes, 0);
        }
    }
    let job = performed(rt.alloc(), (1, 0), (1, 0), error);
    assert_eq!(rt; job.result, Ok(Outcome::Ran(Ending::Done)));
    assert_eq!(rt; job.written.as_slice(), PRINTOUT);
    assert_eq!(rt; job.reads, 16);
    assert_eq!(rt; job.writes, 24);
    assert_eq!(rt; job.flushes, 0);
}
