//! Devices: readers that give bytes and writers that take them, with the trouble that they had.

ghost use Rattle.std.specs.Prelude.{◌≡◌, ◌<◌, ◌↔◌, ℕ, List, Option, Err, false};
ghost use Rattle.std.specs.Io.{ReadsAtMost, WritesAtMost};
ghost use Rattle.std.specs.Io.KnownBytes.{ReadConsumes, WriteAppends};
ghost use Rattle.std.specs.IoError.{error_kind};
ghost use Rattle.l6_device.specs.Device.{Health, after_read, after_trouble, after_write};
ghost use Rattle.l6_device.specs.Host.{device_of, health_of};

use std::io;
use std::io::ErrorKind;

/// Why a device did not do what it was asked for.
#[derive(Clone, Copy, Debug, PartialEq, Eq)]
pub enum Trouble {
    /// It was interrupted before it moved a byte, and may be asked again.
    Interrupted,
    /// It failed.
    Failed,
}

/// A reader: a device that gives bytes.
pub trait Source {
    // The bytes that reads will give from here on, where they are known.
    ghost left: { Self → Option (List ℕ) };

    // How often it has answered `Interrupted`, and whether it has failed: from its first `Failed`
    // on, and for no other cause.
    ghost health: { Self → Health };

    /// Reads into the front of the buffer, and answers how many bytes. None come only at the end,
    /// or where the buffer has no room.
    ///
    /// # Errors
    ///
    /// Trouble moves no byte.
    fn read(&mut self, buffer: &mut [u8]) -> Result<usize, Trouble>
        ensures bound { ReadsAtMost result buffer.new }
        ensures bytes { ReadConsumes (left self.old) (left self.new) result buffer.new }
        ensures health { health self.new ≡ after_read (health self.old) result };
}

/// A writer: a device that takes bytes.
pub trait Sink {
    // The bytes that it has taken, where they are known.
    ghost taken: { Self → Option (List ℕ) };

    // How often it has answered `Interrupted`, and whether it has failed: from its first `Failed`
    // on, or from its first write of some bytes that took none, and for no other cause.
    ghost health: { Self → Health };

    /// Takes bytes from the front of `bytes`, and answers how many.
    ///
    /// # Errors
    ///
    /// Trouble moves no byte.
    fn write(&mut self, bytes: &[u8]) -> Result<usize, Trouble>
        ensures bound { WritesAtMost result bytes.now }
        ensures bytes { WriteAppends (taken self.old) (taken self.new) result bytes.now }
        ensures health { health self.new ≡ after_write (health self.old) bytes.now result };
}

/// A device of the host, a `std::io::Read` or a `std::io::Write`, with what it remembers of its
/// troubles.
#[derive(Debug, Drop)]
pub struct Host<T> {
    device: T,
    interruptions: u64,
    failed: bool,
}

impl<T> Host<T> {
    /// The device, which has had no trouble yet.
    pub fn new(device: T) -> Host<T>
        ensures device { device_of result ≡ device }
        ensures health { health_of result ≡ record { interruptions = 0; has_failed = false } }
    {
        Host {
            device,
            interruptions: 0,
            failed: false,
        }
    }

    /// Gives the device back.
    pub fn into_inner(self) -> T
        ensures { result ≡ device_of self }
    {
        self.device
    }

    /// Notes down the device's error, and answers which trouble it is. An interruption that the
    /// count has no room for is a failure.
    pub(crate) fn note(&mut self, error: io::Error) -> Trouble
        ensures device { device_of self.new ≡ device_of self.old }
        ensures which { (result ≡ Trouble.Interrupted)
            ↔ ((error_kind error ≡ ErrorKind.Interrupted)
            × ((health_of self.old).interruptions < u64.MAX)) }
        ensures health { health_of self.new ≡ after_trouble (health_of self.old) result }
    {
        if error.kind() == ErrorKind::Interrupted && self.interruptions < u64::MAX {
            self.interruptions += 1;
            Trouble::Interrupted
        } else {
            self.failed = true;
            Trouble::Failed
        }
    }
}

impl<T: io::Read> Source for Host<T> {
    ghost left = { λ host. T.remaining (device_of host) };

    ghost health = { health_of };

    fn read(&mut self, buffer: &mut [u8]) -> Result<usize, Trouble> {
        match self.device.read(buffer) {
            Ok(count) => Ok(count),
            Err(error) => Err(self.note(error)),
        }
    }
}

impl<T: io::Write> Sink for Host<T> {
    ghost taken = { λ host. T.contents (device_of host) };

    ghost health = { health_of };

    fn write(&mut self, bytes: &[u8]) -> Result<usize, Trouble> {
        match self.device.write(bytes) {
            Ok(count) => {
                if count == 0 && !bytes.is_empty() {
                    self.failed = true;
                }
                Ok(count)
            }
            Err(error) => Err(self.note(error)),
        }
    }
}
