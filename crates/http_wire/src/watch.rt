use std::net::IpAddr;

/// Is shown the connections of a server, one after the other.
///
/// It gets shared references alone, so what it does changes no byte of a connection.
pub trait Watch {
    /// A connection was accepted, from this address if the system gives it.
    fn opens(&self, peer: Option<IpAddr>);

    /// A message may begin: whatever came before it on the connection has had its reply. The bytes that wait are
    /// the message's first.
    fn begins(&self, waiting: &[u8]);

    /// These bytes were read.
    fn reads(&self, bytes: &[u8]);

    /// These bytes were written.
    fn writes(&self, bytes: &[u8]);

    /// The connection's session has ended.
    fn ends(&self);
}

/// The watch that looks at nothing.
#[derive(Clone, Copy, Drop)]
pub struct Unwatched;

impl Watch for Unwatched {
    fn opens(&self, _peer: Option<IpAddr>) {}

    fn begins(&self, _waiting: &[u8]) {}

    fn reads(&self, _bytes: &[u8]) {}

    fn writes(&self, _bytes: &[u8]) {}

    fn ends(&self) {}
}
