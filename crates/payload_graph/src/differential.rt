//! Differentials between indexes.

ghost use Rattle.std.specs.Prelude.{◌≡◌, ◌-◌, ◌^◌, ◌<◌, ◌≤◌, true, IfOk, length, map};
ghost use Rattle.std.specs.List.{filter, list_all, AllWithin};
ghost use Rattle.std.specs.List.Sorted.{IsNonDecreasingBy};
ghost use Rattle.values.specs.Ordered.{ascend};
ghost use Rattle.catalogue.specs.Validity.{is_diff_before, is_valid_diff, is_release_below};
ghost use Rattle.payload_graph.specs.Chains.{index_of};
ghost use Rattle.payload_graph.specs.Net.{edge_of, leaves};
ghost use Rattle.payload_graph.specs.declared.edge.Edge.{Edge};
ghost use Rattle.payload_graph.specs.Soundness.{is_reached, AreReaches, AreResolved};

use crate::door::Door;
use crate::edge::{Edge, Kind};
use catalogue::{Diff, Release, Version};
use std::alloc::{AllocError, Global};
use values::Shared;

// The index of a version, sought from one on that is not past it.
fn seek(releases: &[Release], start: usize, version: &Version) -> usize
    requires { start ≤ index_of releases.now version.now }
    ensures { result ≡ index_of releases.now version.now }
{
    let mut index = start;
    while index < releases.len() && !version.is_equal(&releases[index].version) {
        index += 1;
    }
    index
}

// Where the search for a destination begins: after the last one of the same origin, or at the origin.
fn first_end(last_from: usize, last_to: usize, from: usize) -> usize
    ensures same { from ≡ last_from → result ≡ last_to }
    ensures other { (from ≡ last_from → ⊥) → result ≡ from }
{
    if from == last_from { last_to } else { from }
}

/// Resolves differentials to indexes, by one walk along them and along the releases.
pub(crate) fn resolve(
    alloc: Global,
    releases: &[Release],
    diffs: &[Shared<Diff>],
) -> Result<Vec<Edge>, AllocError>
    requires rises { ascend is_release_below releases.now ≡ true }
    requires sorted { ascend is_diff_before diffs.now ≡ true }
    requires good { list_all (is_valid_diff releases.now) diffs.now ≡ true }
    ensures { IfOk result (λ edges. edges.items ≡ map (edge_of releases.now) diffs.now) }
{
    catalogue::version_laws::order();
    let mut edges = Vec::with_capacity(alloc, diffs.len())?;
    let mut from = 0;
    let mut to = 0;
    for shared in diffs {
        let diff = shared.get();
        let next = seek(releases, from, &diff.from);
        let start = first_end(from, to, next);
        from = next;
        to = seek(releases, start, &diff.to);
        edges.push(Edge {
            from,
            to,
            kind: Kind::Differ,
            bytes: diff.size,
        })?;
    }
    Ok(edges)
}

fn is_reached(edge: &Edge, doors: &[Door], reaches: &[usize], target: usize) -> bool
    requires within { target < length doors.now }
    requires reached { AreReaches target doors.now reaches.now }
    requires there { edge.now.to < length doors.now }
    ensures { result ≡ is_reached target doors.now edge.now }
{
    edge.from <= target && (edge.to < reaches[edge.from] && doors[edge.to].opens(edge.from))
}

/// The permitted ones of resolved differentials, in order.
pub(crate) fn reached_in(
    alloc: Global,
    resolved: &[Edge],
    doors: &[Door],
    reaches: &[usize],
    target: usize,
) -> Result<Vec<Edge>, AllocError>
    requires within { target < length doors.now }
    requires reached { AreReaches target doors.now reaches.now }
    requires resolved { AreResolved (length doors.now) resolved.now }
    ensures { IfOk result (λ edges. edges.items ≡ filter (is_reached target doors.now) resolved.now) }
{
    let mut edges = Vec::with_capacity(alloc, resolved.len())?;
    for edge in resolved {
        if is_reached(edge, doors, reaches, target) {
            edges.push(*edge)?;
        }
    }
    Ok(edges)
}

/// Where the differentials that leave a release, or a higher one, begin.
pub(crate) fn start_of(differs: &[Edge], from: usize) -> usize
    requires { IsNonDecreasingBy (λ (edge : Edge). edge.from) differs.now }
    ensures bound { result ≤ length differs.now }
    ensures before { AllWithin (λ (edge : Edge). edge.from < from) differs.now 0 result }
    ensures behind { AllWithin (λ (edge : Edge). from ≤ edge.from) differs.now result (length differs.now) }
{
    differs.partition_point(|edge| edge.from < from)
}

/// The differentials that leave a release.
pub(crate) fn leaving(differs: &[Edge], from: usize) -> &[Edge]
    requires sorted { IsNonDecreasingBy (λ (edge : Edge). edge.from) differs.now }
    requires fits { from < 2 ^ 64 - 1 }
    ensures { result.now ≡ filter (leaves from) differs.now }
{
    let start = start_of(differs, from);
    let end = start_of(differs, from + 1);
    &differs[start..end]
}
