//! Runs on devices that move a byte a call, are interrupted, or fail, and that count their calls.

use l6_run::{Ending, Host, Options, Part, RunFault, Script, Sink, Source, Trouble, run};
use std::alloc::Global;
use std::io;
use std::test::Fail;

/// A deck of 18 bytes that takes a character and prints it, its input, and its printout of 24 bytes.
const DECK: &[u8] = b" (A,IN,1)(A,PR,1)\n";

const INPUT: &[u8] = b"x\n";

const PRINTOUT: &[u8] = b"X\n== DONE AFTER 6 STEPS\n";

/// How often a device is interrupted, and from which call on it fails.
type Troubles = (u64, Option<u64>);

/// No trouble.
const NONE: Troubles = (0, None);

/// What becomes of the run where the three devices move a byte a call and have these troubles: the
/// answer, what went out, and how often each device was asked.
fn ran(
    alloc: Global,
    deck: Troubles,
    input: Troubles,
    writer: Troubles,
) -> (Result<Ending, RunFault>, Vec<u8>, [u64; 3]) {
    let mut cards = Script::new(DECK, 1, deck.0, deck.1);
    let mut lines = Script::new(INPUT, 1, input.0, input.1);
    let mut sink = Script::new(Vec::new(alloc), 1, writer.0, writer.1);
    let result = run(alloc, &mut cards, &mut lines, &mut sink, Options::default());
    let calls = [cards.calls(), lines.calls(), sink.calls()];
    (result, sink.into_inner(), calls)
}

#[test]
fn runs_have_the_troubles_of_their_devices(rt: HostRuntime) {
    let done = Ok(Ending::Done);
    let deck = Err(RunFault::Read(Part::Deck));
    let input = Err(RunFault::Read(Part::Input));
    let rows: [(
        Troubles,
        Troubles,
        Troubles,
        Result<Ending, RunFault>,
        usize,
        [u64; 3],
    ); 9] = [
        (NONE, NONE, NONE, done, 24, [19, 3, 24]),
        ((0, Some(0)), NONE, NONE, deck, 0, [1, 0, 0]),
        ((0, Some(18)), NONE, NONE, deck, 0, [19, 0, 0]),
        ((1, None), NONE, NONE, done, 24, [20, 3, 24]),
        (NONE, (0, Some(2)), NONE, input, 0, [19, 3, 0]),
        (NONE, (1, None), NONE, done, 24, [19, 4, 24]),
        (
            NONE,
            NONE,
            (0, Some(0)),
            Err(RunFault::Write(0)),
            0,
            [19, 3, 1],
        ),
        (
            NONE,
            NONE,
            (0, Some(23)),
            Err(RunFault::Write(23)),
            23,
            [19, 3, 24],
        ),
        (NONE, NONE, (1, None), done, 24, [19, 3, 25]),
    ];
    for (deck, input, writer, result, written, calls) in rows {
        let come = ran(rt.alloc(), deck, input, writer);
        assert_eq!(rt; come.0, result);
        assert_eq!(rt; come.1.as_slice(), &PRINTOUT[..written.min(PRINTOUT.len())]);
        assert_eq!(rt; come.2, calls);
    }
}

#[test]
fn an_input_without_an_end_is_too_long(rt: HostRuntime) {
    let mut lines = Script::new(io::repeat(b'x'), 100_000, 0, None);
    let mut sink = Script::new(io::sink(), 7, 0, None);
    let result = run(
        rt.alloc(),
        &mut Host::new(DECK),
        &mut lines,
        &mut sink,
        Options::default(),
    );
    assert_eq!(rt; result, Err(RunFault::TooLong(Part::Input)));
    assert_eq!(rt; sink.calls(), 0);
}

#[test]
fn each_trouble_is_reported_as_often_as_it_happens(rt: HostRuntime) -> Result<(), Fail> {
    let mut source = Script::new(INPUT, 2, 40, Some(43));
    let mut buffer = [0; 2];
    for _ in 0..40 {
        assert_eq!(rt; source.read(&mut buffer), Err(Trouble::Interrupted));
    }
    assert_eq!(rt; source.read(&mut buffer), Ok(2));
    assert_eq!(rt; buffer, *b"x\n");
    assert_eq!(rt; source.read(&mut buffer), Ok(0));
    assert_eq!(rt; source.read(&mut buffer), Ok(0));
    for _ in 0..3 {
        assert_eq!(rt; source.read(&mut buffer), Err(Trouble::Failed));
    }
    let mut sink = Script::new(Vec::new(rt.alloc()), 2, 1, None);
    assert_eq!(rt; sink.write(b""), Err(Trouble::Interrupted));
    assert_eq!(rt; sink.write(b""), Ok(0));
    assert_eq!(rt; sink.write(b"abc"), Ok(2));
    assert_eq!(rt; sink.calls(), 3);
    assert_eq!(rt; sink.into_inner().as_slice(), b"ab".as_slice());
    Ok(())
}
