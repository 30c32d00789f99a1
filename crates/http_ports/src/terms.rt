/// What a port serves by, from its start to its end.
#[derive(Clone, Copy, Drop)]
pub struct Terms {
    /// The number of its listener, as whoever opened the port counts its listeners.
    pub listener: u64,
    /// How many connections may be open at once.
    pub capacity: usize,
    /// How many connections are accepted in all.
    pub limit: u64,
    /// How many seconds a whole message may take, from its first byte, or from when the connection was accepted if it is
    /// the first one; and each part of a reply.
    pub message: u64,
    /// How many seconds a connection may wait for the first byte of the next message.
    pub idle: u64,
}
