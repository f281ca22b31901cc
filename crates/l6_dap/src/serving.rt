//! Talks with an editor: messages come, and each is answered before the next one.

use crate::adapter::Adapter;
use crate::files::Files;
use l6_rpc::{Channel, ChannelFault};
use serde_json::Value;
use std::alloc::Global;

/// Answers the messages of a channel, each before the next one, up to one that ends the talk, or to the last one.
/// Answers the exit status: 1 if no message ended the talk.
///
/// # Errors
///
/// A message could not be read, or what came is none, or one could not be sent, or memory ran out.
pub fn serve<F: Files, C: Channel>(
    alloc: Global,
    adapter: &mut Adapter,
    files: &mut F,
    channel: &mut C,
) -> Result<u8, ChannelFault> {
    let mut body = Vec::new(alloc);
    for _ in 0..u64::MAX {
        if !channel.receive(&mut body)? {
            return Ok(1);
        }
        let reply = adapter.take(alloc, files, body.as_slice())?;
        if let Some(answer) = &reply.answer {
            send(alloc, channel, answer)?;
        }
        for event in &reply.events {
            send(alloc, channel, event.message())?;
        }
        match reply.status {
            None => {}
            Some(status) => return Ok(status),
        }
    }
    Err(ChannelFault::Read)
}

/// Sends a message.
fn send<C: Channel>(alloc: Global, channel: &mut C, message: &Value) -> Result<(), ChannelFault> {
    let text = message.to_string(alloc)?;
    channel.send(text.as_bytes())
}
