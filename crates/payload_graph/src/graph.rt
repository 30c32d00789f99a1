ghost use Rattle.std.specs.Prelude.{◌≡◌, ◌<◌, ◌≤◌, All, true, IfOk, length};
ghost use Rattle.std.specs.List.{filter};
ghost use Rattle.payload_graph.specs.Edges.{edges_into_left, edges_left};
ghost use Rattle.payload_graph.specs.Net.{edges_from, edges_into, leaves, window};
ghost use Rattle.payload_graph.specs.Soundness.{net_from, openings, AreBounded, AreNumbered, AreResolved, IsBounded, IsNearing, LeadsNearer};
ghost use Rattle.payload_graph.specs.declared.edge.Edge.{Edge};
ghost use Rattle.values.specs.Ordered.{ascend};
ghost use Rattle.catalogue.specs.Validity.{is_release_below};

use crate::differential::{leaving, reached_in};
use crate::door::{Door, doors_of};
use crate::edge::Edge;
use crate::edges::{Edges, Fulls};
use crate::floor::openings_of;
use crate::incoming::EdgesInto;
use crate::origin::{origins_above, origins_below};
use crate::payload::TrackKey;
use crate::permitted::rolls_back;
use crate::reach::{doors_above, reaches_of};
use catalogue::{Cohort, Release};
use std::alloc::{AllocError, Global};
use std::marker::Model;

/// The permitted payloads of a track, which contracts see as a `Net`.
///
/// It keeps a door and a number for each release, its differentials, and the full packages that open late.
pub struct Graph {
    key: TrackKey,
    target: usize,
    rollback: bool,
    doors: Vec<Door>,
    reaches: Vec<usize>,
    late: Vec<Edge>,
    differs: Vec<Edge>,
}

// Written out, so that no caller proves again how each part is dropped.
impl Drop for Graph {
    fn drop(self) {
        let Graph {
            key: _,
            target: _,
            rollback: _,
            doors: _,
            reaches: _,
            late: _,
            differs: _,
        } = self;
    }
}

impl Model for Graph {
    ghost use Rattle.payload_graph.specs.Net.{Net};

    ghost Value = { Net };

    ghost use Rattle.payload_graph.specs.Soundness.{IsSound};

    ghost view = { λ g. record {
      key = g.key;
      target = g.target;
      rollback = g.rollback;
      doors = g.doors.items;
      differs = g.differs.items;
    } };

    ghost invariant = { λ g. IsSound (record {
      key = g.key;
      target = g.target;
      rollback = g.rollback;
      doors = g.doors.items;
      differs = g.differs.items;
    }) g.reaches.items g.late.items };
}

impl Graph {
    /// Makes a graph of its app's releases and resolved differentials.
    pub(crate) fn of_parts(
        alloc: Global,
        key: &TrackKey,
        cohort: &Cohort,
        releases: &[Release],
        target: usize,
        resolved: &[Edge],
    ) -> Result<Graph, AllocError>
        requires within { target < length releases.now }
        requires rises { ascend is_release_below releases.now ≡ true }
        requires bounded { AreBounded releases.now }
        requires resolved { AreResolved (length releases.now) resolved.now }
        ensures { IfOk result (λ graph. graph ≡ net_from key.now cohort.now releases.now target resolved.now) }
    {
        let doors = doors_of(alloc, cohort, &key.pin, releases)?;
        let reaches = reaches_of(alloc, doors.as_slice(), target)?;
        let differs = reached_in(
            alloc,
            resolved,
            doors.as_slice(),
            reaches.as_slice(),
            target,
        )?;
        let late = openings_of(alloc, doors.as_slice())?;
        Ok(Graph {
            key: *key,
            target,
            rollback: rolls_back(cohort, key),
            doors,
            reaches,
            late,
            differs,
        })
    }

    // rule: Window of a release
    /// Borrows the window of a release.
    pub fn window(&self, from: usize) -> &[Door]
        requires { from < length self.now.doors }
        ensures { result.now ≡ window self.now from }
    {
        if from > self.target {
            if self.rollback {
                &self.doors[..from]
            } else {
                &[]
            }
        } else {
            doors_above(
                self.doors.as_slice(),
                self.reaches.as_slice(),
                self.target,
                from,
            )
        }
    }

    /// Borrows the differentials of a release, by ascending destination.
    pub fn differs_from(&self, from: usize) -> &[Edge]
        requires { from < length self.now.doors }
        ensures { result.now ≡ filter (leaves from) self.now.differs }
    {
        leaving(self.differs.as_slice(), from)
    }

    // rule: Payloads from a release
    /// Goes through the payloads that leave a release.
    ///
    /// The full packages come first, then the differentials, each by ascending destination.
    pub fn edges_from(&self, from: usize) -> Edges<'_>
        requires { from < length self.now.doors }
        ensures edges { edges_left result ≡ edges_from self.now from }
        ensures nearer { All (λ (edge : Edge). LeadsNearer self.now.target from edge.to) (edges_from self.now from) }
    {
        let differs = leaving(self.differs.as_slice(), from);
        Edges::new(Fulls::new(from, self.window(from)), differs)
    }

    // rule: Payloads into a release
    /// Goes through the payloads that lead to a release.
    ///
    /// The full packages come first, then the differentials, each by ascending origin. It walks along
    /// the releases that the full packages leave, and along all differentials.
    pub fn edges_into(&self, to: usize) -> EdgesInto<'_>
        requires { to < length self.now.doors }
        ensures { edges_into_left result ≡ edges_into self.now to }
    {
        let doors = self.doors.as_slice();
        let differs = self.differs.as_slice();
        let below = origins_below(doors, self.reaches.as_slice(), self.target, to);
        let above = if self.rollback {
            origins_above(doors, self.target, to)
        } else {
            &[]
        };
        EdgesInto::new(doors[to], below, above, to, differs)
    }

    /// Returns the index of the target.
    pub fn target(&self) -> usize
        ensures target { result ≡ self.now.target }
        ensures within { self.now.target < length self.now.doors }
    {
        self.target
    }

    /// Whether payloads lead down from above the target.
    pub fn rolls_back(&self) -> bool
        ensures { result ≡ self.now.rollback }
    {
        self.rollback
    }

    /// Borrows the releases as destinations, in order.
    ///
    /// There are at most 512, and each package of the graph has 1 to 2^40 bytes.
    pub fn doors(&self) -> &[Door]
        ensures doors { result.now ≡ self.now.doors }
        ensures numbered { AreNumbered self.now.doors }
        ensures bounded { IsBounded self.now }
    {
        self.doors.as_slice()
    }

    /// Borrows the full packages that open at an index, up to the number of releases: clients there may take them to
    /// lower releases, and those below it may not.
    ///
    /// They are of the doors below the index that have it as their floor, by ascending destination. All other doors
    /// below it open from it exactly if they open from the release before it.
    pub fn openings(&self, index: usize) -> &[Edge]
        requires { index ≤ length self.now.doors }
        ensures { result.now ≡ openings self.now.doors index }
    {
        leaving(self.late.as_slice(), index)
    }

    /// Borrows all differentials, by ascending origin.
    pub fn differs(&self) -> &[Edge]
        ensures differs { result.now ≡ self.now.differs }
        ensures nearing { All (IsNearing self.now.target) self.now.differs }
    {
        self.differs.as_slice()
    }

    /// Returns the key of the track that it is the graph of.
    pub fn key(&self) -> TrackKey
        ensures { result ≡ self.now.key }
    {
        self.key
    }
}
