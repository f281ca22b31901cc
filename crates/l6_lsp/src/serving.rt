//! Talks with an editor.

ghost use Rattle.std.specs.Prelude.{IfOk};
ghost use Rattle.l6_lsp.specs.Serving as spec;

use crate::decks::Decks;
use l6_rpc::{Channel, ChannelFault, Server, serve};
use std::alloc::Global;

/// Answers the messages of an editor about decks, each before the next one, up to one that ends the talk, or to
/// the last one. Answers the exit status: 0 if the editor had the server shut down before, and otherwise 1.
///
/// # Errors
///
/// A message could not be read, or what came is none, or one could not be sent, or memory ran out.
pub fn serve_decks<C: Channel>(alloc: Global, channel: &mut C) -> Result<u8, ChannelFault>
    ensures { IfOk result (spec.ServesDecks (C.passed channel.old) (C.passed channel.new)) }
{
    let mut server = Server::new(Decks::new(alloc));
    serve(alloc, &mut server, channel)
}
