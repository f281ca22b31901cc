//! Frames, as bytes begin with them.

ghost use Rattle.std.specs.Prelude.{◌≡◌, ◌≤◌, ◌++◌, OnOk};
ghost use Rattle.l6_frame.specs.Frame as spec;
ghost use Rattle.l6_frame.specs.Read.{IsBody, IsNext};

use crate::field::{Field, field_of};
use l6_word::{split_once, without_return};
use std::alloc::{AllocError, Global};

/// How many bytes the body of a frame may have.
pub const MAX_BODY: usize = 16_777_216;

/// How many bytes may stand before the body of a frame.
pub const MAX_HEAD: usize = 4_096;

/// What bytes begin with.
#[derive(Drop)]
pub enum Next<'a> {
    /// A frame with this body, and what follows it.
    Frame(&'a [u8], &'a [u8]),
    /// A part of a frame, or nothing.
    Part,
    /// What begins no frame.
    Wrong,
}

/// What bytes begin with: the head of a frame has at most 4,096 bytes, and its body 16,777,216.
pub fn next_frame(bytes: &[u8]) -> Next<'_>
    ensures { IsNext bytes.now result }
{
    let mut rest = bytes;
    let mut length = None;
    while let Some((line, following)) = split_once(rest, b'\n') {
        if without_return(line).is_empty() {
            if bytes.len() - following.len() > MAX_HEAD {
                return Next::Wrong;
            }
            return match length {
                None => Next::Wrong,
                Some(length) => body_of(following, length),
            };
        }
        match field_of(line) {
            Field::Length(given) => match length {
                None => length = Some(given),
                Some(_) => return Next::Wrong,
            },
            Field::Other => {}
            Field::Malformed => return Next::Wrong,
        }
        rest = following;
    }
    if bytes.len() < MAX_HEAD {
        Next::Part
    } else {
        Next::Wrong
    }
}

/// The body with so many bytes and what follows it, where it is there.
fn body_of(following: &[u8], length: usize) -> Next<'_>
    ensures { IsBody following.now length result }
{
    if length > following.len() {
        return Next::Part;
    }
    let (body, rest) = following.split_at(length);
    Next::Frame(body, rest)
}

/// Adds the frame of a body.
///
/// # Errors
///
/// Memory ran out.
pub fn push_frame(alloc: Global, text: &mut Vec<u8>, body: &[u8]) -> Result<(), AllocError>
    ensures { OnOk result (text.new.items ≡ text.old.items ++ spec.frame_of body.now) }
{
    let length = body.len();
    let head = format!(in alloc; "Content-Length: {length}\r\n\r\n")?;
    text.extend_from_slice(head.as_bytes())?;
    text.extend_from_slice(body)?;
    Ok(())
}
