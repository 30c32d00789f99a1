//! Payloads between releases.

/// Whether a payload is a full package or a differential.
#[derive(Clone, Copy, PartialEq, Eq)]
pub enum Kind {
    /// The full package of the destination.
    Full,
    /// A differential, of which a pair of releases has at most one.
    Differ,
}

/// A payload between two releases of an app, given by index.
#[derive(Clone, Copy)]
pub struct Edge {
    /// The release that it leaves.
    pub from: usize,
    /// The release that it leads to.
    pub to: usize,
    /// Whether it is a full package or a differential.
    pub kind: Kind,
    /// Its bytes.
    pub bytes: u64,
}
