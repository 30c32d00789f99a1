use values::{Items, Text};

/// What one request of the Omaha protocol 3.1, JSON form, asks.
pub struct Request {
    /// The member `sessionid`, empty if it is missing.
    pub session: Text,
    /// The elements of `app` in order, at most 256, repeated ones too.
    pub apps: Items<AppAsk>,
}

// Written out, so that no caller proves again how each part is dropped.
impl Drop for Request {
    fn drop(self) {
        let Request {
            session: _,
            apps: _,
        } = self;
    }
}

/// What a request asks for one app.
pub struct AppAsk {
    /// The identifier as the client spells it, 1 to 256 bytes.
    pub appid: Text,
    /// The installed version as the client spells it, empty if it is missing.
    pub version: Text,
    /// The fingerprint of the first installed package, empty if it is missing.
    pub fp: Text,
    /// The member `cohort`, empty if it is missing.
    pub cohort: Text,
    /// The member `cohorthint`, empty if it is missing.
    pub hint: Text,
    /// The update check: the member `updatecheck`, if there is one.
    pub check: Option<Check>,
    /// Whether there is a member `ping`.
    pub ping: bool,
    /// How many events the member `event` lists.
    pub events: usize,
}

// Written out, so that no caller proves again how each part is dropped.
impl Drop for AppAsk {
    fn drop(self) {
        let AppAsk {
            appid: _,
            version: _,
            fp: _,
            cohort: _,
            hint: _,
            check: _,
            ping: _,
            events: _,
        } = self;
    }
}

/// An update check: what a client says when it asks for an update.
pub struct Check {
    /// Whether updates are disabled, the member `updatedisabled`.
    pub disabled: bool,
    /// Whether a lower version may be offered, the member `rollback_allowed`.
    pub rollback: bool,
    /// The member `targetversionprefix`, empty if it is missing.
    pub prefix: Text,
}

// Written out, so that no caller proves again how each part is dropped.
impl Drop for Check {
    fn drop(self) {
        let Check {
            disabled: _,
            rollback: _,
            prefix: _,
        } = self;
    }
}
