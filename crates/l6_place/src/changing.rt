//! Changes of a text.

ghost use Rattle.std.specs.Prelude.{◌≡◌, IfOk};
ghost use Rattle.l6_place.specs.Spot as spec;

use crate::spot::{Spot, offset_of};
use std::alloc::{AllocError, Global};

/// A text in which these bytes stand in place of those between two places.
///
/// # Errors
///
/// Memory ran out.
pub fn changed(
    alloc: Global,
    text: &[u8],
    start: Spot,
    end: Spot,
    bytes: &[u8],
) -> Result<Vec<u8>, AllocError>
    ensures { IfOk result (λ changed. changed.items ≡ spec.changed text.now start end bytes.now) }
{
    let from = offset_of(text, start);
    let to = offset_of(text, end).max(from);
    let mut changed = Vec::new(alloc);
    changed.extend_from_slice(&text[..from])?;
    changed.extend_from_slice(bytes)?;
    changed.extend_from_slice(&text[to..])?;
    Ok(changed)
}
