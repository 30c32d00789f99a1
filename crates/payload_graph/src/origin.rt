//! The releases from which the full package of a release is permitted.

ghost use Rattle.std.specs.Prelude.{◌≡◌, ◌<◌, ◌≤◌, length};
ghost use Rattle.std.specs.List.{AllWithin};
ghost use Rattle.std.specs.List.Sorted.{IsNonDecreasing};
ghost use Rattle.payload_graph.specs.Soundness.{origins_above, origins_below, AreNumbered, AreReaches};

use crate::door::Door;

// Where the releases begin whose windows reach a release.
fn first_origin(reaches: &[usize], to: usize) -> usize
    requires { IsNonDecreasing reaches.now }
    ensures bound { result ≤ length reaches.now }
    ensures before { AllWithin (λ reach. reach ≤ to) reaches.now 0 result }
    ensures behind { AllWithin (λ reach. to < reach) reaches.now result (length reaches.now) }
{
    reaches.partition_point(|reach| *reach <= to)
}

/// The releases below another one whose windows reach it: none if it is above the target.
pub(crate) fn origins_below<'a>(
    doors: &'a [Door],
    reaches: &[usize],
    target: usize,
    to: usize,
) -> &'a [Door]
    requires within { target < length doors.now }
    requires numbered { AreNumbered doors.now }
    requires reached { AreReaches target doors.now reaches.now }
    ensures { result.now ≡ origins_below target doors.now to }
{
    if to > target {
        return &[];
    }
    let start = first_origin(reaches, to);
    &doors[start..to]
}

/// The releases above both the target and another one.
pub(crate) fn origins_above(doors: &[Door], target: usize, to: usize) -> &[Door]
    requires within { target < length doors.now }
    requires there { to < length doors.now }
    ensures { result.now ≡ origins_above target doors.now to }
{
    let highest = if to > target { to } else { target };
    &doors[highest + 1..]
}
