//! Which blocks are reached.

ghost use Rattle.std.specs.Prelude.{◌≡◌, false, slice_index_or, IfOk};
ghost use Rattle.std.specs.List.{filter};
ghost use Rattle.l6_draw.specs.Reach.{AreReachable, reached_places};

use crate::blocks::places;
use crate::walk::{is_visited, visited};
use l6_machine::Machine;
use l6_store::{Place, Places};
use std::alloc::{AllocError, Global};

/// The places of the blocks that the machine's program can still reach, rising and each once. A
/// block is reached if a bug holds its place, or if a defined field does whose word is in a reached
/// block. What is saved on the pushdowns leads nowhere.
///
/// # Errors
///
/// Memory ran out.
pub fn reachable<S: Places>(alloc: Global, machine: &Machine<S>) -> Result<Vec<Place>, AllocError>
    ensures reached { IfOk result (λ places.
        AreReachable machine.now.configuration.state.memory places.items) }
    ensures value { IfOk result (λ places. places.items
        ≡ reached_places machine.now.configuration.state.memory) }
{
    let mut places = places(alloc, machine.store())?;
    let visited = visited(alloc, machine, places.len())?;
    keep_visited_place(&mut places, &visited);
    Ok(places)
}

/// Keeps the places that are visited.
fn keep_visited_place(places: &mut Vec<Place>, visited: &[bool])
    ensures { places.new.items
        ≡ filter (λ place. slice_index_or visited.now place false) places.old.items }
{
    places.retain(|place| is_visited(visited, *place));
}
