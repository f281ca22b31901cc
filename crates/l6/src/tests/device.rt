//! A device of the host for tests, which fails once and counts its calls.

ghost use Rattle.std.specs.Prelude.{◌≤◌, IfOk};

use std::io;
use std::io::{ErrorKind, Read, Write};

/// A device over one that holds the bytes. It moves a few of them a call, and at one call it fails.
#[derive(Drop)]
pub struct Device<T> {
    /// What holds the bytes.
    pub bytes: T,
    /// How many bytes a call moves at most.
    pub piece: usize,
    /// The call that moves none, counted from 1. At 0 there is none.
    pub failing: u32,
    /// The error of that call. With `None` it is a call that moves no byte.
    pub error: Option<ErrorKind>,
    /// How often it was asked.
    pub calls: u32,
    /// How often it was flushed.
    pub flushes: u32,
}

impl<T> Device<T> {
    /// A device that moves `piece` bytes a call, and has this trouble at the call `failing`.
    pub fn new(bytes: T, piece: usize, failing: u32, error: Option<ErrorKind>) -> Self {
        Device {
            bytes,
            piece,
            failing,
            error,
            calls: 0,
            flushes: 0,
        }
    }

    // Counts a call that asks for so many bytes, and answers how many of them may be moved.
    fn room(&mut self, asked: usize) -> io::Result<usize>
        ensures { IfOk result (λ room. room ≤ asked) }
    {
        self.calls = self.calls.saturating_add(1);
        if self.calls != self.failing {
            return Ok(asked.min(self.piece));
        }
        match self.error {
            Some(kind) => Err(io::Error::new(kind, "a failing call")),
            None => Ok(0),
        }
    }
}

impl<T: Read> Read for Device<T> {
    fn read(&mut self, buffer: &mut [u8]) -> io::Result<usize> {
        let room = self.room(buffer.len())?;
        self.bytes.read(&mut buffer[..room])
    }
}

impl<T: Write> Write for Device<T> {
    fn write(&mut self, bytes: &[u8]) -> io::Result<usize> {
        let room = self.room(bytes.len())?;
        self.bytes.write(&bytes[..room])
    }

    fn flush(&mut self) -> io::Result<()> {
        self.flushes = self.flushes.saturating_add(1);
        Ok(())
    }
}
