//! The graph of a track of a catalogue.

ghost use Rattle.std.specs.Prelude.{◌≡◌, ◌<◌, true, IfOk, IfSome, length};
ghost use Rattle.values.specs.Ordered.{ascend};
ghost use Rattle.catalogue.specs.Validity.{is_release_below};
ghost use Rattle.payload_graph.specs.Chains.{cohort_target};
ghost use Rattle.payload_graph.specs.Net.{net_among, resolved_at};
ghost use Rattle.payload_graph.specs.Soundness.{net_in_cohort, net_in_app, AreBounded, AreResolved};

use crate::differential::resolve;
use crate::edge::Edge;
use crate::graph::Graph;
use crate::payload::TrackKey;
use catalogue::{App, Catalogue, Cohort};
use cohorts::track_target;
use std::alloc::{AllocError, Global};
use std::marker::Model;

/// The differentials of an app between the indexes of its releases, which contracts see as their list.
///
/// They are resolved once an app, and borrowed by the graph of each of its tracks.
#[derive(Drop)]
pub struct Differentials {
    edges: Vec<Edge>,
}

impl Model for Differentials {
    ghost use Rattle.std.specs.Prelude.{List};
    ghost use Rattle.payload_graph.specs.declared.edge.Edge.{Edge};

    ghost Value = { List Edge };

    ghost view = { λ d. d.edges.items };
}

impl Differentials {
    /// Resolves the differentials of the app at an index, which is in range.
    ///
    /// It walks once along the differentials, and along the releases for each origin.
    pub fn of_app(
        alloc: Global,
        catalogue: &Catalogue,
        app: usize,
    ) -> Result<Differentials, AllocError>
        requires { app < length catalogue.now }
        ensures { IfOk result (λ resolved. resolved ≡ resolved_at catalogue.now app) }
    {
        catalogue.validity();
        let app = &catalogue.apps()[app];
        let edges = resolve(alloc, app.releases.as_slice(), app.diffs.as_slice())?;
        Ok(Differentials { edges })
    }
}

fn find_target(app: &App, cohort: &Cohort, key: &TrackKey) -> Option<usize>
    ensures target { result ≡ cohort_target app.now cohort.now key.now }
    ensures within { IfSome result (λ target. target < length app.now.releases) }
{
    let releases = app.releases.as_slice();
    let version = track_target(releases, cohort, key.lane, &key.pin)?;
    app.find_release(&version)
}

fn graph_in_cohort(
    alloc: Global,
    app: &App,
    key: &TrackKey,
    cohort: &Cohort,
    resolved: &[Edge],
) -> Result<Option<Graph>, AllocError>
    requires rises { ascend is_release_below app.now.releases ≡ true }
    requires bounded { AreBounded app.now.releases }
    requires resolved { AreResolved (length app.now.releases) resolved.now }
    ensures { IfOk result (λ graph. graph ≡ net_in_cohort app.now key.now cohort.now resolved.now) }
{
    let Some(target) = find_target(app, cohort, key) else {
        return Ok(None);
    };
    let releases = app.releases.as_slice();
    let graph = Graph::of_parts(alloc, key, cohort, releases, target, resolved)?;
    Ok(Some(graph))
}

fn graph_in_app(
    alloc: Global,
    app: &App,
    key: &TrackKey,
    resolved: &[Edge],
) -> Result<Option<Graph>, AllocError>
    requires rises { ascend is_release_below app.now.releases ≡ true }
    requires bounded { AreBounded app.now.releases }
    requires resolved { AreResolved (length app.now.releases) resolved.now }
    ensures { IfOk result (λ graph. graph ≡ net_in_app app.now key.now resolved.now) }
{
    match app.cohorts.as_slice().get(key.cohort) {
        Some(cohort) => graph_in_cohort(alloc, app, key, cohort, resolved),
        None => Ok(None),
    }
}

impl Graph {
    /// Makes the graph of a track with the resolved differentials of its app, `None` if the track has
    /// no target.
    ///
    /// The key's app is in range, and `differentials` are its own.
    pub fn with_differentials(
        alloc: Global,
        catalogue: &Catalogue,
        key: &TrackKey,
        differentials: &Differentials,
    ) -> Result<Option<Graph>, AllocError>
        requires app { key.now.app < length catalogue.now }
        requires resolved { differentials.now ≡ resolved_at catalogue.now key.now.app }
        ensures { IfOk result (λ graph. graph ≡ net_among catalogue.now key.now) }
    {
        catalogue::version_laws::order();
        catalogue.validity();
        let app = &catalogue.apps()[key.app];
        graph_in_app(alloc, app, key, differentials.edges.as_slice())
    }

    // rule: Graph of a track
    /// Makes the graph of a track, `None` if the track has no target or there is no such track.
    ///
    /// To make the graphs of several tracks of an app, resolve its differentials once and call
    /// `with_differentials`.
    pub fn of_track(
        alloc: Global,
        catalogue: &Catalogue,
        key: &TrackKey,
    ) -> Result<Option<Graph>, AllocError>
        ensures { IfOk result (λ graph. graph ≡ net_among catalogue.now key.now) }
    {
        if key.app >= catalogue.apps().len() {
            return Ok(None);
        }
        let differentials = Differentials::of_app(alloc, catalogue, key.app)?;
        Graph::with_differentials(alloc, catalogue, key, &differentials)
    }
}
