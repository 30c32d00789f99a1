// Where a service is served.

ghost use Rattle.std.specs.Prelude.{◌<◌, ◌≤◌};

use values::Text;

/// Where a service is served, by how many workers, and for how long.
pub struct Place {
    /// The address and the port to listen on.
    pub address: Text,
    /// The address and the port to listen on for the operator, or `None` for no operator.
    pub operator: Option<Text>,
    /// The path of the folder of packages.
    pub packages: Text,
    /// How many workers serve, each in a thread of its own: 1 to 8.
    pub workers: usize,
    /// How many sessions of clients there are, or `None` for no end.
    pub sessions: Option<u64>,
    /// How many sessions of the operator there are, or `None` for no end.
    pub edits: Option<u64>,
    /// The path of the log of replies, `-` for the standard error, or `None` for no log.
    pub log: Option<Text>,
    /// How many seconds a whole message may take, and each part of a reply; at least one.
    pub seconds: u64,
    /// How many seconds a connection may wait for its next message, at least one.
    pub idle: u64,
    /// How many connections of clients may be open at once, if the system allows as many.
    pub connections: u64,
    /// How many tables of pinned clients' tracks each worker keeps.
    pub pinned_tables: u64,
    /// Whether each package of the catalogue must be in the folder with its size, before it is published.
    pub packages_must_exist: bool,
    /// What is served, by its name, if the server says on the standard error what it does; `None` if it says nothing.
    pub named: Option<Text>,
    /// The version of the program that serves.
    pub version: Text,
    ghost limited: { (0 < seconds) × (0 < idle) },
    ghost manned: { (1 ≤ workers) × (workers ≤ 8) },
}

// Written out, so that no caller proves again how each part is dropped.
impl Drop for Place {
    fn drop(self) {
        let Place {
            address: _,
            operator: _,
            packages: _,
            workers: _,
            sessions: _,
            edits: _,
            log: _,
            seconds: _,
            idle: _,
            connections: _,
            pinned_tables: _,
            packages_must_exist: _,
            named: _,
            version: _,
        } = self;
    }
}
