//! Transfers over memory, and over devices that have trouble in mid-stream.

use super::device::Device;
use l6_card::MAX_DECK_BYTES;
use l6_run::{Host, Part, Patience, RunFault, read_part, write_text};
use std::io::ErrorKind;
use std::test::Fail;

#[test]
fn a_deck_ends_at_its_limit(rt: HostRuntime) -> Result<(), Fail> {
    let bytes = vec![in rt.alloc(); 7; MAX_DECK_BYTES + 1]?;
    let all = bytes.as_slice();
    assert_eq!(rt; all.len(), MAX_DECK_BYTES + 1);
    let mut patience = Patience::new();
    let whole = read_part(
        rt.alloc(),
        &mut Host::new(&all[1..]),
        Part::Deck,
        &mut patience,
    )?;
    assert_eq!(rt; whole.as_slice(), &all[1..]);
    let longer = read_part(rt.alloc(), &mut Host::new(all), Part::Deck, &mut patience);
    assert_eq!(rt; longer.err(), Some(RunFault::TooLong(Part::Deck)));

    // A long text goes out in one piece, where the writer takes it.
    let mut writer = Host::new(Device::new(Vec::new(rt.alloc()), usize::MAX, 0, None));
    write_text(&mut writer, all, 0, &mut patience)?;
    let device = writer.into_inner();
    assert_eq!(rt; device.bytes.as_slice(), all);
    assert_eq!(rt; device.calls, 1);
    assert_eq!(rt; device.flushes, 0);
    Ok(())
}

#[test]
fn a_failure_ends_a_transfer(rt: HostRuntime) {
    let text: &[u8] = b"a page";
    let error = Some(ErrorKind::Other);
    let mut patience = Patience::new();
    let mut reader = Host::new(Device::new(text, 2, 3, error));
    let answer = read_part(rt.alloc(), &mut reader, Part::Job, &mut patience);
    assert_eq!(rt; answer.err(), Some(RunFault::Read(Part::Job)));
    let device = reader.into_inner();
    assert_eq!(rt; device.bytes, b"ge".as_slice());
    assert_eq!(rt; device.calls, 3);
    for error in [error, None] {
        let mut writer = Host::new(Device::new(Vec::new(rt.alloc()), 2, 3, error));
        let answer = write_text(&mut writer, text, 10, &mut patience);
        assert_eq!(rt; answer, Err(RunFault::Write(14)));
        let device = writer.into_inner();
        assert_eq!(rt; device.bytes.as_slice(), b"a pa".as_slice());
        assert_eq!(rt; device.calls, 3);
        assert_eq!(rt; device.flushes, 0);
    }
    assert_eq!(rt; patience.left(), 1_000);
}

#[test]
fn an_interruption_is_repeated(rt: HostRuntime) -> Result<(), Fail> {
    let text: &[u8] = b"a page";
    let error = Some(ErrorKind::Interrupted);
    let mut patience = Patience::new();
    let mut reader = Host::new(Device::new(text, 2, 3, error));
    let bytes = read_part(rt.alloc(), &mut reader, Part::Job, &mut patience)?;
    assert_eq!(rt; bytes.as_slice(), text);
    assert_eq!(rt; reader.into_inner().calls, 5);
    assert_eq!(rt; patience.left(), 999);
    let mut writer = Host::new(Device::new(Vec::new(rt.alloc()), 2, 3, error));
    write_text(&mut writer, text, 10, &mut patience)?;
    let device = writer.into_inner();
    assert_eq!(rt; device.bytes.as_slice(), text);
    assert_eq!(rt; device.calls, 4);
    assert_eq!(rt; patience.left(), 998);
    Ok(())
}
