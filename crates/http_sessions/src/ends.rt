use thiserror::Error;

/// How a session ended.
#[derive(Clone, Copy, Drop)]
pub enum End {
    /// After a whole message, or before the first.
    Finished,
    /// The input ended within a message, which got no reply.
    Unfinished,
    /// A message was rejected with a reply that closes the connection.
    Refused,
    /// A package was not sent whole.
    Cut,
}

/// What a session came to.
#[derive(Clone, Copy, Drop)]
pub struct Served {
    /// How many replies were begun, at most 1000.
    pub requests: u32,
    /// How the session ended.
    pub end: End,
}

/// Why a session was given up.
#[derive(Clone, Copy, Debug, Drop, PartialEq, Eq, Error)]
pub enum Fault {
    /// The source failed.
    #[error("reading from the connection failed")]
    Read,
    /// The sink failed.
    #[error("writing to the connection failed")]
    Write,
    /// Out of memory; nothing was read or written.
    #[error("out of memory for the buffers of a session")]
    Memory,
}
