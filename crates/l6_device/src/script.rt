//! Devices for tests: a device of the host that moves few bytes a call, is interrupted at first, and
//! fails from some call on.

ghost use Rattle.std.specs.Prelude.{◌≡◌, ◌+◌, ◌<◌, ◌≤◌, ⊤, false, min, MatchResult};
ghost use Rattle.l6_device.specs.Device.{after_trouble};
ghost use Rattle.l6_device.specs.Host.{device_of, health_of};
ghost use Rattle.l6_device.specs.Script.{room_for, trouble_at};

use crate::device::{Host, Sink, Source, Trouble};
use std::io;
use std::io::ErrorKind;

/// A device with troubles that are set beforehand. It allocates nothing itself; over a slice
/// (`&[u8]`, `&mut [u8]`) nothing is allocated at all. Over `std::io::repeat` and `std::io::sink`
/// it has no end.
#[derive(Debug, Drop)]
pub struct Script<T> {
    host: Host<T>,
    most: usize,
    interruptions: u64,
    calls: u64,
    failing: Option<u64>,
}

impl<T> Script<T> {
    /// The device, moving at most so many bytes a call. Its first calls, as many as
    /// `interruptions` says, are interrupted, and from the call of the number `failing` on, counted
    /// from 0, each one fails.
    pub fn new(device: T, most: usize, interruptions: u64, failing: Option<u64>) -> Self
        ensures device { device_of result.host ≡ device }
        ensures health { health_of result.host
            ≡ record { interruptions = 0; has_failed = false } }
        // Its troubles are those that were asked for.
        ensures most { result.most ≡ most }
        ensures interruptions { result.interruptions ≡ interruptions }
        ensures failing { result.failing ≡ failing }
        ensures calls { result.calls ≡ 0 }
    {
        Script {
            host: Host::new(device),
            most,
            interruptions,
            calls: 0,
            failing,
        }
    }

    /// How often it was asked. The count stops at `u64::MAX`.
    pub fn calls(&self) -> u64
        ensures { result ≡ self.now.calls }
    {
        self.calls
    }

    /// Gives the device back.
    pub fn into_inner(self) -> T
        ensures { result ≡ device_of self.host }
    {
        self.host.into_inner()
    }

    /// How many of the bytes that are asked for may be moved by this call, or the trouble that it has.
    fn room(&mut self, asked: usize) -> Result<usize, Trouble>
        ensures device { device_of self.new.host ≡ device_of self.old.host }
        ensures health { MatchResult result
            (λ _. health_of self.new.host ≡ health_of self.old.host)
            (λ trouble. health_of self.new.host
            ≡ after_trouble (health_of self.old.host) trouble) }
        // The trouble of its call, or its room; interruptions that the count has no room for apart.
        ensures answer { (health_of self.old.host).interruptions < u64.MAX →
            result ≡ room_for asked self.old.most
            (trouble_at self.old.interruptions self.old.failing self.old.calls) }
        ensures room { MatchResult result (λ room. room ≤ asked) (λ _. ⊤) }
        ensures some { MatchResult result (λ room. 0 < asked → 0 < room) (λ _. ⊤) }
        ensures calls { self.new.calls ≡ min (self.old.calls + 1) u64.MAX }
        ensures most { self.new.most ≡ self.old.most }
        ensures interruptions { self.new.interruptions ≡ self.old.interruptions }
        ensures failing { self.new.failing ≡ self.old.failing }
    {
        let call = self.calls;
        self.calls = call.saturating_add(1);
        if self.failing.is_some_and(|first| first <= call) {
            return Err(self.host.note(io::Error::from(ErrorKind::Other)));
        }
        if call < self.interruptions {
            return Err(self.host.note(io::Error::from(ErrorKind::Interrupted)));
        }
        Ok(asked.min(self.most.max(1)))
    }
}

impl<T: io::Read> Source for Script<T> {
    ghost left = { λ script. T.remaining (device_of script.host) };

    ghost health = { λ script. health_of script.host };

    fn read(&mut self, buffer: &mut [u8]) -> Result<usize, Trouble> {
        let room = self.room(buffer.len())?;
        self.host.read(&mut buffer[..room])
    }
}

impl<T: io::Write> Sink for Script<T> {
    ghost taken = { λ script. T.contents (device_of script.host) };

    ghost health = { λ script. health_of script.host };

    fn write(&mut self, bytes: &[u8]) -> Result<usize, Trouble> {
        let room = self.room(bytes.len())?;
        self.host.write(&bytes[..room])
    }
}
