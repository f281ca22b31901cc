//! An inbox: the bytes of a stream that have come, up to the frame that is taken next.

ghost use Rattle.std.specs.Prelude.{◌≡◌, ◌≤◌, ◌++◌, [], vec_len, IfOk, OnOk, OnErr};
ghost use Rattle.l6_frame.specs.Stream.{IsFound};

use crate::frame::{Next, next_frame};
use std::alloc::{AllocError, Global};
use std::marker::Model;

/// The bytes of a stream that have come and are not taken yet.
#[derive(Drop)]
pub struct Inbox {
    bytes: Vec<u8>,
    taken: usize,
    ghost within: { taken ≤ vec_len bytes },
}

/// What is found in an inbox.
#[derive(Clone, Copy, Debug, PartialEq, Eq)]
pub enum Found {
    /// A message, whose body is taken.
    Message,
    /// No whole message.
    Part,
    /// What begins no message, however it goes on.
    Wrong,
}

impl Model for Inbox {
    ghost use Rattle.std.specs.Prelude.{ℕ, List, drop};

    ghost Value = { List ℕ };

    ghost view = { λ i. drop i.taken i.bytes.items };
}

impl Inbox {
    /// An inbox into which nothing has come.
    pub fn new(alloc: Global) -> Self
        ensures { result ≡ [] }
    {
        Inbox {
            bytes: Vec::new(alloc),
            taken: 0,
        }
    }

    /// Adds the next piece of the stream, however it is cut.
    ///
    /// # Errors
    ///
    /// Memory ran out: nothing has changed.
    pub fn add(&mut self, piece: &[u8]) -> Result<(), AllocError>
        ensures ok { OnOk result (self.new ≡ self.old ++ piece.now) }
        ensures err { OnErr result (self.new ≡ self.old) }
    {
        self.move_down();
        self.bytes.extend_from_slice(piece)
    }

    /// The bytes that wait.
    fn waiting(&self) -> &[u8]
        ensures { result.now ≡ self.now }
    {
        &self.bytes.as_slice()[self.taken..]
    }

    /// Drops the bytes that are taken, once they are more than those that are left: so each byte is
    /// moved once at most, however long its message is.
    fn move_down(&mut self)
        ensures { self.new ≡ self.old }
    {
        if self.taken > self.bytes.len() - self.taken {
            drop(self.bytes.drain(..self.taken));
            self.taken = 0;
        }
    }

    /// Takes the next message, if it is there whole: its body in place of `body`.
    ///
    /// # Errors
    ///
    /// Memory ran out for the body: nothing is taken.
    pub fn take(&mut self, body: &mut Vec<u8>) -> Result<Found, AllocError>
        ensures ok { IfOk result (IsFound self.old self.new body.new.items) }
        ensures err { OnErr result (self.new ≡ self.old) }
    {
        match next_frame(self.waiting()) {
            Next::Frame(found, rest) => {
                let taken = self.bytes.len() - rest.len();
                body.clear();
                body.extend_from_slice(found)?;
                self.taken = taken;
                Ok(Found::Message)
            }
            Next::Part => Ok(Found::Part),
            Next::Wrong => Ok(Found::Wrong),
        }
    }
}
