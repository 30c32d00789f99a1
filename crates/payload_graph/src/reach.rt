//! How far the window of each release reaches.

ghost use Rattle.std.specs.Prelude.{◌≡◌, ◌+◌, ◌<◌, ◌≤◌, IfOk, length};
ghost use Rattle.payload_graph.specs.Net.{between, to_stone};
ghost use Rattle.payload_graph.specs.Soundness.{reach_of, AreReaches};

use crate::door::Door;
use std::alloc::{AllocError, Global};

// The end of a release's window, by that of the release above it.
fn reach_before(doors: &[Door], target: usize, from: usize, next: usize) -> usize
    requires below { from < target }
    requires within { target < length doors.now }
    requires next { next ≡ reach_of target doors.now (from + 1) }
    ensures { result ≡ reach_of target doors.now from }
{
    if doors[from + 1].stone {
        from + 2
    } else {
        next
    }
}

/// The ends of the windows of all releases up to the target.
pub(crate) fn reaches_of(
    alloc: Global,
    doors: &[Door],
    target: usize,
) -> Result<Vec<usize>, AllocError>
    requires { target < length doors.now }
    ensures { IfOk result (λ reaches. AreReaches target doors.now reaches.items) }
{
    let mut reaches = vec![in alloc; target + 1; target + 1]?;
    for from in (0..target).rev() {
        reaches[from] = reach_before(doors, target, from, reaches[from + 1]);
    }
    Ok(reaches)
}

/// The doors above a release, up to its reach.
pub(crate) fn doors_above<'a>(
    doors: &'a [Door],
    reaches: &[usize],
    target: usize,
    from: usize,
) -> &'a [Door]
    requires below { from ≤ target }
    requires within { target < length doors.now }
    requires reached { AreReaches target doors.now reaches.now }
    ensures { result.now ≡ to_stone (between (from + 1) (target + 1) doors.now) }
{
    let start = from + 1;
    let end = reaches[from];
    &doors[start..end]
}
