use values::{Items, Text};

/// A reply of the Omaha protocol 3.1, JSON form.
#[derive(Drop)]
pub struct Reply {
    /// Whole days since 1 January 2007, UTC, the member `elapsed_days`.
    pub days: u64,
    /// Seconds since the day began, UTC, the member `elapsed_seconds`.
    pub seconds: u64,
    /// The replies to the request's apps, in their order.
    pub apps: Items<AppReply>,
}

/// The reply to one app of a request.
#[derive(Drop)]
pub struct AppReply {
    /// The identifier as the client spelled it.
    pub appid: Text,
    /// The state of the app of that identifier.
    pub state: AppState,
}

/// What a server knows of an app.
#[derive(Drop)]
pub enum AppState {
    /// The app is known.
    Known(KnownApp),
    /// The app is unknown, the status `error-unknownApplication`.
    Unknown,
    /// Another status, which this server never sends.
    Other,
}

/// The reply to an app that is known.
#[derive(Drop)]
pub struct KnownApp {
    /// The cohort text that the client sends back next time.
    pub cohort: Text,
    /// The cohort's name.
    pub name: Text,
    /// Whether a ping is acknowledged.
    pub ping: bool,
    /// How many events are acknowledged.
    pub events: usize,
    /// The reply to the update check, if there was one.
    pub check: Option<CheckReply>,
}

/// The reply to an update check.
#[derive(Drop)]
pub enum CheckReply {
    /// There is nothing to install, the status `noupdate`.
    NoUpdate,
    /// The server could not offer what there is, the status `error-internal`.
    Internal,
    /// An update is offered, the status `ok`.
    Offered(Offer),
    /// Another status, which this server never sends.
    Other,
}

/// An offer of one version.
#[derive(Drop)]
pub struct Offer {
    /// The version as the catalogue spells it.
    pub version: Text,
    /// The fingerprint of the full package.
    pub fp: Text,
    /// The full package.
    pub full: Part,
    /// The differential from what is installed, if one is offered.
    pub diff: Option<Part>,
}

/// A file that a client may download.
pub struct Part {
    /// The address that the file's name is appended to.
    pub codebase: Text,
    /// The file's name.
    pub name: Text,
    /// The file's length in bytes.
    pub size: u64,
    /// The SHA-256 of the file's bytes.
    pub hash: [u8; 32],
}

// Written out, so that no caller proves again how each part is dropped.
impl Drop for Part {
    fn drop(self) {
        let Part {
            codebase: _,
            name: _,
            size: _,
            hash: _,
        } = self;
    }
}
