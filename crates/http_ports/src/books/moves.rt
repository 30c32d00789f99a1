use crate::last::Last;
use streams::Trace;

/// A change of a slot's connection.
#[derive(Drop)]
pub enum Change {
    /// The last call for it came to this, and no byte passed.
    Marked(Last),
    /// Its time is up.
    Expired,
    /// It was given a timestamp, so many seconds after the start of 1970, and these bytes waited, if a message could begin
    /// with them.
    Timed(u64, Option<Trace<u8>>),
    /// These bytes were received.
    Received(Trace<u8>),
    /// These bytes were sent.
    Sent(Trace<u8>),
}

/// What happened at a slot.
#[derive(Drop)]
pub enum Move {
    /// A connection was accepted.
    Accepted(usize),
    /// Its connection changed.
    Changed(usize, Change),
    /// Its connection was closed.
    Closed(usize),
}
