//! Payloads, and the keys of tracks.

use cohorts::{Lane, Pin};

/// A package that leads a client from its place to a release.
#[derive(Clone, Copy)]
pub enum Payload {
    /// The full package of the release at an index, by ascending version.
    Full(usize),
    /// The differential at an index, by ascending pair.
    Differ(usize),
}

/// Names the clients of an app that are offered the same payloads.
#[derive(Clone, Copy, PartialEq, Eq, Hash)]
pub struct TrackKey {
    /// The index of the app, in the order of addition.
    pub app: usize,
    /// The index of the cohort that serves the clients, in the app's cohorts.
    pub cohort: usize,
    /// The lane of the clients in the cohort.
    pub lane: Lane,
    /// Whether the clients allow a downgrade; it takes the cohort's mark as well.
    pub rollback: bool,
    /// Which versions the clients' administrator allows.
    pub pin: Pin,
}
