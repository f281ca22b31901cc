//! Places and ranges, as values of JSON.

ghost use Rattle.std.specs.Prelude.{◌≡◌, IfOk};
ghost use Rattle.serde_json.specs.View.{view};
ghost use Rattle.l6_lsp.specs.Ranges as spec;

use l6_place::{CardStarts, Spot};
use serde_json::{Value, json};
use std::alloc::{AllocError, Global};

/// The value of a place.
fn spot_value(alloc: Global, spot: Spot) -> Result<Value, AllocError>
    ensures { IfOk result (λ value. view value ≡ spec.spot_value spot) }
{
    json!(in alloc; {"line": spot.line, "character": spot.character})
}

/// The value of the range between two places.
pub(crate) fn range_value(alloc: Global, start: Spot, end: Spot) -> Result<Value, AllocError>
    ensures { IfOk result (λ value. view value ≡ spec.range_value start end) }
{
    let start = spot_value(alloc, start)?;
    let end = spot_value(alloc, end)?;
    json!(in alloc; {"start": start, "end": end})
}

/// The value of columns of a card, counted from 0: those from one to before another, as far as the card has
/// them.
pub(crate) fn columns_value(
    alloc: Global,
    starts: &CardStarts<'_>,
    card: usize,
    from: usize,
    to: usize,
) -> Result<Value, AllocError>
    ensures { IfOk result (λ value. view value ≡ spec.columns_value starts.now card from to) }
{
    let start = starts.spot(card, from);
    let end = starts.spot(card, to);
    range_value(alloc, start, end)
}
