//! What `Host` makes of its device: each call is one call of the device, and each answer is the
//! device's own.

ghost use Rattle.std.specs.Prelude.{◌≤◌, IfOk};

use super::device::Device;
use l6_run::{Host, Sink, Source, Trouble};
use std::io;
use std::io::{ErrorKind, Read, Write};
use std::test::Fail;

/// How many bytes are moved at a time: more than 1 MiB.
const MANY: usize = 1_500_000;

/// The kinds of errors that devices may have, but for `Interrupted`: each of them is a failure.
const FAILURES: [ErrorKind; 41] = [
    ErrorKind::NotFound,
    ErrorKind::PermissionDenied,
    ErrorKind::ConnectionRefused,
    ErrorKind::ConnectionReset,
    ErrorKind::HostUnreachable,
    ErrorKind::NetworkUnreachable,
    ErrorKind::ConnectionAborted,
    ErrorKind::NotConnected,
    ErrorKind::AddrInUse,
    ErrorKind::AddrNotAvailable,
    ErrorKind::NetworkDown,
    ErrorKind::BrokenPipe,
    ErrorKind::AlreadyExists,
    ErrorKind::WouldBlock,
    ErrorKind::NotADirectory,
    ErrorKind::IsADirectory,
    ErrorKind::DirectoryNotEmpty,
    ErrorKind::ReadOnlyFilesystem,
    ErrorKind::FilesystemLoop,
    ErrorKind::StaleNetworkFileHandle,
    ErrorKind::InvalidInput,
    ErrorKind::InvalidData,
    ErrorKind::TimedOut,
    ErrorKind::WriteZero,
    ErrorKind::StorageFull,
    ErrorKind::NotSeekable,
    ErrorKind::QuotaExceeded,
    ErrorKind::FileTooLarge,
    ErrorKind::ResourceBusy,
    ErrorKind::ExecutableFileBusy,
    ErrorKind::Deadlock,
    ErrorKind::CrossesDevices,
    ErrorKind::TooManyLinks,
    ErrorKind::InvalidFilename,
    ErrorKind::ArgumentListTooLong,
    ErrorKind::Unsupported,
    ErrorKind::UnexpectedEof,
    ErrorKind::OutOfMemory,
    ErrorKind::InProgress,
    ErrorKind::Other,
    ErrorKind::Uncategorized,
];

#[test]
fn a_host_answers_as_its_device(rt: HostRuntime) -> Result<(), Fail> {
    let text = vec![in rt.alloc(); 7; MANY * 2]?;
    let mut buffer = vec![in rt.alloc(); 0; MANY]?;
    let interrupted = (Some(ErrorKind::Interrupted), Err(Trouble::Interrupted));
    let failures = FAILURES.map(|kind| (Some(kind), Err(Trouble::Failed)));
    for (error, answer) in [(None, Ok(0)), interrupted].into_iter().chain(failures) {
        // The second call of each has the trouble.
        let mut reader = Host::new(Device::new(text.as_slice(), MANY, 2, error));
        let mut writer = Host::new(Device::new(Vec::new(rt.alloc()), MANY, 2, error));
        for want in [Ok(MANY), answer, Ok(MANY)] {
            assert_eq!(rt; reader.read(buffer.as_mut_slice()), want);
            assert_eq!(rt; writer.write(buffer.as_slice()), want);
        }
        // The reader has no more bytes.
        assert_eq!(rt; reader.read(buffer.as_mut_slice()), Ok(0));
        assert_eq!(rt; reader.into_inner().calls, 4);
        let device = writer.into_inner();
        assert_eq!(rt; device.calls, 3);
        assert_eq!(rt; device.flushes, 0);
        assert_eq!(rt; device.bytes.len(), text.len());
    }
    Ok(())
}

/// A device that has trouble 22 times: 20 interruptions, a failure, and an interruption after it. Its
/// later calls move a byte, where one is asked for.
#[derive(Drop)]
struct Troubled {
    calls: usize,
}

/// The error of the call of this number, counted from 0.
fn error_of(call: usize) -> Option<ErrorKind> {
    match call {
        20 => Some(ErrorKind::Other),
        0..=21 => Some(ErrorKind::Interrupted),
        _ => None,
    }
}

impl Troubled {
    fn moved(&mut self, asked: usize) -> io::Result<usize>
        ensures { IfOk result (λ moved. moved ≤ asked) }
    {
        let call = self.calls;
        self.calls = call.saturating_add(1);
        match error_of(call) {
            Some(kind) => Err(io::Error::from(kind)),
            None => Ok(asked.min(1)),
        }
    }
}

impl Read for Troubled {
    fn read(&mut self, buffer: &mut [u8]) -> io::Result<usize> {
        self.moved(buffer.len())
    }
}

impl Write for Troubled {
    fn write(&mut self, bytes: &[u8]) -> io::Result<usize> {
        self.moved(bytes.len())
    }

    fn flush(&mut self) -> io::Result<()> {
        Ok(())
    }
}

#[test]
fn a_host_reports_each_trouble_of_many(rt: HostRuntime) {
    let mut reader = Host::new(Troubled { calls: 0 });
    let mut writer = Host::new(Troubled { calls: 0 });
    for call in 0..22 {
        let want = match call {
            20 => Err(Trouble::Failed),
            _ => Err(Trouble::Interrupted),
        };
        assert_eq!(rt; reader.read(&mut [0; 2]), want);
        assert_eq!(rt; writer.write(b"ab"), want);
    }
    assert_eq!(rt; reader.read(&mut [0; 2]), Ok(1));
    assert_eq!(rt; reader.read(&mut []), Ok(0));
    assert_eq!(rt; writer.write(b""), Ok(0));
    assert_eq!(rt; writer.write(b"ab"), Ok(1));
    assert_eq!(rt; reader.into_inner().calls, 24);
    assert_eq!(rt; writer.into_inner().calls, 24);
}
