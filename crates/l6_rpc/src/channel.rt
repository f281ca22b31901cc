//! Channels: where messages come and are sent.

ghost use Rattle.std.specs.Prelude.{◌≡◌, List, Option, IfOk, OnOk, ◌∷◌, [], if◌then◌else◌};
ghost use Rattle.l6_rpc.specs.Serving.{Event, GoesOn};
ghost use Rattle.l6_rpc.specs.Serving.Event.{came, sent};

use crate::service::OutOfMemory;
use std::alloc::AllocError;

/// Why a channel did not do what it was asked for.
#[derive(Clone, Copy, Debug, PartialEq, Eq)]
pub enum ChannelFault {
    /// No message could be read.
    Read,
    /// What came is no message.
    Malformed,
    /// A message could not be sent.
    Write,
    /// Memory ran out.
    NoMemory,
}

impl From<AllocError> for ChannelFault {
    fn from(_error: AllocError) -> Self {
        ChannelFault::NoMemory
    }
}

impl From<OutOfMemory> for ChannelFault {
    fn from(_error: OutOfMemory) -> Self {
        ChannelFault::NoMemory
    }
}

/// A channel: messages come, and are sent, and what passes has one order.
pub trait Channel {
    // What has passed so far, where that is known.
    ghost passed: { Self → Option (List Event) };

    /// Reads the body of the next message in place of `body`. Answers whether there was one.
    ///
    /// # Errors
    ///
    /// No message could be read, or what came is none, or memory ran out.
    fn receive(&mut self, body: &mut Vec<u8>) -> Result<bool, ChannelFault>
        ensures { IfOk result (λ is_one. GoesOn (passed self.old) (passed self.new)
            (if is_one then came body.new.items ∷ [] else [])) };

    /// Sends the body of a message.
    ///
    /// # Errors
    ///
    /// It could not be sent whole, or memory ran out.
    fn send(&mut self, body: &[u8]) -> Result<(), ChannelFault>
        ensures { OnOk result (GoesOn (passed self.old) (passed self.new) (sent body.now ∷ [])) };
}
