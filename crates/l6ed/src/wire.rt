//! The wire to an editor: frames that are read and written.

use l6_device::{Patience, Sink, Source, Trouble, write_text};
use l6_frame::{Found, Inbox, push_frame};
use l6_rpc::{Channel, ChannelFault};
use std::alloc::{AllocError, Global};

/// How many bytes one read asks for.
const PIECE: usize = 65_536;

/// A reader and a writer of frames.
#[derive(Drop)]
pub(crate) struct Wire<R, W> {
    alloc: Global,
    reader: R,
    writer: W,
    /// What has come, and is not taken yet.
    inbox: Inbox,
    /// Where reads go.
    piece: Vec<u8>,
}

impl<R: Source + Drop, W: Sink + Drop> Wire<R, W> {
    /// A wire by which nothing has come.
    ///
    /// # Errors
    ///
    /// Memory ran out.
    pub(crate) fn new(alloc: Global, reader: R, writer: W) -> Result<Self, AllocError> {
        Ok(Wire {
            alloc,
            reader,
            writer,
            inbox: Inbox::new(alloc),
            piece: vec![in alloc; 0; PIECE]?,
        })
    }

    /// Reads more into the inbox. Answers whether there was more.
    fn read_more(&mut self) -> Result<bool, ChannelFault> {
        for _ in 0..u64::MAX {
            match self.reader.read(self.piece.as_mut_slice()) {
                Ok(0) => return Ok(false),
                Ok(count) => {
                    self.inbox.add(&self.piece.as_slice()[..count])?;
                    return Ok(true);
                }
                Err(Trouble::Interrupted) => {}
                Err(_) => return Err(ChannelFault::Read),
            }
        }
        Err(ChannelFault::Read)
    }
}

impl<R: Source + Drop, W: Sink + Drop> Channel for Wire<R, W> {
    ghost use Rattle.std.specs.Prelude.{None};

    ghost passed = { λ _. None };

    fn receive(&mut self, body: &mut Vec<u8>) -> Result<bool, ChannelFault> {
        for _ in 0..u64::MAX {
            match self.inbox.take(body)? {
                Found::Message => return Ok(true),
                Found::Wrong => return Err(ChannelFault::Malformed),
                Found::Part => {
                    if !self.read_more()? {
                        return Ok(false);
                    }
                }
            }
        }
        Err(ChannelFault::Read)
    }

    fn send(&mut self, body: &[u8]) -> Result<(), ChannelFault> {
        let mut frame = Vec::new(self.alloc);
        push_frame(self.alloc, &mut frame, body)?;
        match write_text(&mut self.writer, frame.as_slice(), 0, &mut Patience::new()) {
            Ok(()) => Ok(()),
            Err(_) => Err(ChannelFault::Write),
        }
    }
}
