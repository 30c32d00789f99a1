//! What update checks came to.

/// The cohort that serves a client, by the positions in the catalogue's lists.
///
/// No edit of a catalogue moves an app or a cohort.
#[derive(Clone, Copy, PartialEq, Eq)]
pub struct Track {
    /// The app's index.
    pub app: usize,
    /// The cohort's index in the app.
    pub cohort: usize,
}

/// The kind of a payload.
#[derive(Clone, Copy, PartialEq, Eq)]
pub enum Kind {
    /// The full package of a release.
    Full,
    /// A differential.
    Differential,
}

/// The bytes that a mirror granted for an update check.
#[derive(Clone, Copy)]
pub struct Grant {
    /// The mirror's index.
    pub mirror: usize,
    /// The kind of the payload.
    pub kind: Kind,
    /// The payload's bytes.
    pub bytes: u64,
}

/// An update check that was replied to.
#[derive(Clone, Copy)]
pub enum Check {
    /// The catalogue doesn't have the app.
    Unknown,
    /// The reply is `noupdate`.
    NoUpdate(Track),
    /// No mirror granted the bytes: the reply is `error-internal`.
    Internal(Track),
    /// The reply has an offer.
    Offered(Track, Grant),
}

/// What an update check of a known app came to.
#[derive(Clone, Copy)]
pub enum Outcome {
    /// The reply has an offer.
    Offered,
    /// The reply is `noupdate`.
    NoUpdate,
    /// The reply is `error-internal`.
    Internal,
}

/// Is shown each update check that was replied to.
///
/// It gets copies of numbers, so what it does changes no byte of a reply.
pub trait CountChecks: Copy {
    /// An update check was replied to.
    fn count(&self, check: Check);
}

/// Counts nothing.
#[derive(Clone, Copy, Drop)]
pub struct Uncounted;

impl CountChecks for Uncounted {
    fn count(&self, _check: Check) {}
}
