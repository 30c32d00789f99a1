//! The full packages that open above their own release, by the floor where they do.

ghost use Rattle.std.specs.Prelude.{◌≡◌, IfOk, filter_map};
ghost use Rattle.payload_graph.specs.Soundness.{late_edge, AreOpenings};

use crate::door::Door;
use crate::edge::Edge;
use crate::edges::full;
use std::alloc::{AllocError, Global};

// The full package of a door from its floor, if that is above the door itself.
fn late_edge(door: &Door) -> Option<Edge>
    ensures { result ≡ late_edge door.now }
{
    if door.offered && door.to < door.floor {
        Some(full(door.floor, door))
    } else {
        None
    }
}

fn late_edges(alloc: Global, doors: &[Door]) -> Result<Vec<Edge>, AllocError>
    ensures { IfOk result (λ edges. edges.items ≡ filter_map late_edge doors.now) }
{
    doors.iter().filter_map(late_edge).collect(alloc)
}

/// The full packages from the floors of those doors that are below their floor, by ascending floor.
pub(crate) fn openings_of(alloc: Global, doors: &[Door]) -> Result<Vec<Edge>, AllocError>
    ensures { IfOk result (λ edges. AreOpenings doors.now edges.items) }
{
    let mut edges = late_edges(alloc, doors)?;
    edges.sort_by_key(|edge| edge.from)?;
    Ok(edges)
}
