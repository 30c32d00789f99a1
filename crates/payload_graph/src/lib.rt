//! The rules of payloads, who may be offered what, and the graph of a track, which has all of them.
//!
//! A `Place` is where a client is among the releases of an app, found by `place_of`. A `Payload`
//! is a full package or a differential, a `TrackKey` names the clients that are served alike, and
//! `permits` tests whether a payload may be offered on a track at a place. Read
//! `specs/Permitted.antt` for the rule, line by line, `specs/Places.antt` for places,
//! `specs/Chains.antt` for the chains of permitted payloads that lead to a target, and
//! `specs/Examples.antt` for a catalogue that is worked by hand.
//!
//! A `Graph` is seen as a `Net`: its key, its target, and the payloads by the release that they leave.
//! `edges_from` gives those of a release as `Edge`s, and `edges_into` those that lead to one. Full
//! packages are not listed: each release has a window of others, a slice of `Door`s, and its clients may
//! pass those that are offered to them and whose floor isn't above it. A pin closes the doors of all releases
//! that it doesn't match, and may lower the target. Read `specs/Net.antt` for the graph,
//! and `laws` for what holds of all graphs: a window's full packages are the permitted ones, and each payload
//! leads nearer the target, so that there is no cycle.
//!
//! It knows no prices, and doesn't choose among payloads: crates above do.

#![tactic(auto)]

mod differential;
mod door;
mod edge;
mod edges;
mod fingerprint;
mod floor;
mod graph;
mod incoming;
pub mod laws;
mod origin;
mod payload;
mod permitted;
mod place;
mod reach;
mod track;

pub use crate::door::Door;
pub use crate::edge::{Edge, Kind};
pub use crate::edges::{Edges, Fulls};
pub use crate::graph::Graph;
pub use crate::incoming::EdgesInto;
pub use crate::payload::{Payload, TrackKey};
pub use crate::permitted::{is_offered_at, permits, rolls_back};
pub use crate::place::{Place, place_of};
pub use crate::track::Differentials;
