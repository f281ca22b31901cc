//! Numbers of a trace that are in bytes, in pieces.

ghost use Rattle.std.specs.Prelude.{◌≡◌};
ghost use Rattle.l6_trace.specs.Pieces as spec;

use crate::call::Reply;

/// How many pieces of so many bytes hold so many bytes. A piece has at least one byte.
pub(crate) fn pieces_for(bytes: u32, piece: u32) -> u32
    ensures { result ≡ spec.pieces_for bytes piece }
{
    if piece <= 1 {
        bytes
    } else {
        bytes.div_ceil(piece)
    }
}

/// A reply that counts bytes, in pieces of so many. A place within a piece is none, and neither is a size.
pub(crate) fn in_pieces(reply: Reply, piece: u32) -> Reply
    ensures { result ≡ spec.in_pieces reply piece }
{
    let Reply::At { place, size } = reply else {
        return reply;
    };
    if piece <= 1 {
        return reply;
    }
    if place % piece != 0 {
        return Reply::Between;
    }
    Reply::At {
        place: place / piece,
        size: size_in_pieces(size, piece),
    }
}

/// A size in pieces of so many bytes: 0, which no block has, where it is no multiple of that.
fn size_in_pieces(size: Option<u32>, piece: u32) -> Option<u32>
    ensures { result ≡ spec.size_in_pieces size piece }
{
    match size {
        Some(size) if piece != 0 && size % piece == 0 => Some(size / piece),
        Some(_) => Some(0),
        None => None,
    }
}
