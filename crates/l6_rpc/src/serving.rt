//! Talks with a client: messages come, and each is answered before the next one.

ghost use Rattle.std.specs.Prelude.{List, IfOk, OnOk};
ghost use Rattle.std.specs.Option.{option_map};
ghost use Rattle.serde_json.specs.View.{view};
ghost use Rattle.l6_rpc.specs.Serving as spec;

use crate::channel::{Channel, ChannelFault};
use crate::server::{Reply, Server};
use crate::service::Service;
use std::alloc::Global;

/// Answers the messages of a channel, each before the next one, up to one that ends the talk, or to the
/// last one. Answers the exit status: 1 if no message ended the talk.
///
/// # Errors
///
/// A message could not be read, or what came is none, or one could not be sent, or memory ran out.
pub fn serve<S: Service, C: Channel>(
    alloc: Global,
    server: &mut Server<S>,
    channel: &mut C,
) -> Result<u8, ChannelFault>
    ensures { IfOk result (λ status. spec.Serves S.IsAble S.Answers S.Notes
        server.old.service server.new.service server.old.phase server.new.phase
        (C.passed channel.old) (C.passed channel.new) status) }
{
    let mut body = Vec::new(alloc);
    'messages: for _ in 0..u64::MAX {
        if !channel.receive(&mut body)? {
            return Ok(1);
        }
        let reply = server.take(alloc, body.as_slice())?;
        send(alloc, channel, &reply)?;
        match reply.status {
            None => {}
            Some(status) => return Ok(status),
        }
    }
    Err(ChannelFault::Read)
}

/// Sends the message of a reply, if it has one.
fn send<C: Channel>(alloc: Global, channel: &mut C, reply: &Reply) -> Result<(), ChannelFault>
    ensures { OnOk result ((events : List spec.Event)
        × spec.AreSent (option_map view reply.now.message) events
        × spec.GoesOn (C.passed channel.old) (C.passed channel.new) events) }
{
    let Some(message) = &reply.message else {
        return Ok(());
    };
    let text = message.to_string(alloc)?;
    channel.send(text.as_bytes())?;
    Ok(())
}
