// The graphs of three tracks, worked by hand: how many payloads leave each release, and how many lead to it.

ghost use Rattle.std.specs.Prelude.{◌≡◌, ◌<◌, IfSome, Some, length};
ghost use Rattle.payload_graph.specs.Net.{net_among};

use catalogue::Catalogue;
use cohorts::{Lane, Pin};
use fixtures::{CHAINED, catalogue_of_profile, keep};
use payload_graph::{Graph, Payload, Place, TrackKey, permits};
use std::alloc::Global;

/// The key of the clients without a pin of a cohort, by its index.
pub(crate) fn key_of(cohort: usize, lane: Lane, rollback: bool) -> TrackKey {
    TrackKey {
        app: 0,
        cohort,
        lane,
        rollback,
        pin: Pin::Any,
    }
}

/// The graph of a track, `None` if the track has no target or memory ran out.
pub(crate) fn graph_of(
    alloc: Global,
    catalogue: &Catalogue,
    key: &TrackKey,
) -> Option<&'static Graph>
    ensures { IfSome result (λ graph. net_among catalogue.now graph.now.key ≡ Some graph.now) }
{
    match Graph::of_track(alloc, catalogue, key) {
        Ok(Some(graph)) => keep(alloc, graph),
        _ => None,
    }
}

// How many payloads leave a release.
fn count_from(graph: &Graph, release: usize) -> usize
    requires { release < length graph.now.doors }
{
    let mut count: usize = 0;
    for _edge in graph.edges_from(release) {
        count = count.saturating_add(1);
    }
    count
}

// How many payloads lead to a release.
fn count_into(graph: &Graph, release: usize) -> usize
    requires { release < length graph.now.doors }
{
    let mut count: usize = 0;
    for _edge in graph.edges_into(release) {
        count = count.saturating_add(1);
    }
    count
}

// The payloads of the app.
const PAYLOADS: [Payload; 9] = [
    Payload::Full(0),
    Payload::Full(1),
    Payload::Full(2),
    Payload::Full(3),
    Payload::Differ(0),
    Payload::Differ(1),
    Payload::Differ(2),
    Payload::Differ(3),
    Payload::Differ(4),
];

// How many payloads the rule permits to the clients at a release.
fn permitted_at(catalogue: &Catalogue, key: &TrackKey, release: usize) -> usize {
    let place = Place::At(release);
    let mut count: usize = 0;
    for payload in PAYLOADS {
        if permits(catalogue, key, &place, &payload) {
            count = count.saturating_add(1);
        }
    }
    count
}

// A track, how many payloads leave each release, and how many lead to it.
const TRACKS: [(usize, Lane, bool, [usize; 4], [usize; 4]); 3] = [
    (0, Lane::Target, false, [2, 4, 2, 0], [0, 2, 2, 4]),
    (0, Lane::Held, false, [2, 2, 0, 0], [0, 2, 2, 0]),
    (1, Lane::Target, true, [2, 2, 0, 3], [1, 3, 3, 0]),
];

// Whether the payloads of each release are so many.
fn has_counts(catalogue: &Catalogue, graph: &Graph, from: [usize; 4], into: [usize; 4]) -> bool {
    let key = graph.key();
    for release in 0..graph.doors().len() {
        let counts = (count_from(graph, release), count_into(graph, release));
        let permitted = permitted_at(catalogue, &key, release);
        let wanted = (from.get(release).copied(), into.get(release).copied());
        if (Some(counts.0), Some(counts.1)) != wanted || permitted != counts.0 {
            return false;
        }
    }
    graph.doors().len() == 4
}

// Whether each of the tracks is as it says.
fn are_counted(alloc: Global) -> Option<bool> {
    let catalogue = catalogue_of_profile(alloc, CHAINED)?;
    for (cohort, lane, rollback, from, into) in TRACKS {
        let graph = graph_of(alloc, catalogue, &key_of(cohort, lane, rollback))?;
        if !has_counts(catalogue, graph, from, into) {
            return Some(false);
        }
    }
    Some(true)
}

// rule: Graph of a track
// rule: Payloads from a release
// rule: Payloads into a release
// rule: Permitted on a track
#[test]
fn graphs_have_the_permitted_payloads(rt: HostRuntime) {
    assert!(rt; are_counted(rt.alloc()) == Some(true));
}
