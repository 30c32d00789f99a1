// What the calls of a port come to.

/// What a port reports.
#[derive(Clone, Copy, Drop)]
pub enum Event {
    /// A connection was accepted at this slot.
    Accepted(usize),
    /// The connection of this slot may be read or written.
    Ready(usize),
    /// The time of this slot's connection is up.
    Expired(usize),
    /// No connection is open, and none will be accepted.
    Done,
}

/// What a read gave.
#[derive(Clone, Copy, Drop)]
pub enum Received {
    /// So many bytes, at least one.
    Bytes(usize),
    /// No byte yet.
    Nothing,
    /// There are no more bytes.
    End,
    /// The connection failed.
    Failure,
}

/// What a write took.
#[derive(Clone, Copy, Drop)]
pub enum Sent {
    /// So many bytes, at least one.
    Bytes(usize),
    /// No byte yet.
    Nothing,
    /// The connection failed.
    Failure,
}
