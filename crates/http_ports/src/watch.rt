use http_wire::Unwatched;
use std::net::IpAddr;

/// Is shown many connections that are open at once, and keeps of each what it has seen.
///
/// It gets shared references to what passes, so what it does changes no byte of a connection.
pub trait WatchEach {
    /// What is kept of a connection.
    type Seen: Drop;

    /// A connection was accepted, from this address if the system gives it.
    fn opens(&self, peer: Option<IpAddr>) -> Self::Seen;

    /// A message may begin: whatever came before it on the connection has had its reply. The bytes that wait are
    /// the message's first.
    fn begins(&self, seen: &mut Self::Seen, waiting: &[u8]);

    /// These bytes of a reply were written.
    fn writes(&self, seen: &mut Self::Seen, bytes: &[u8]);

    /// The server ends the connection, and has written all that it made of its replies: of a package whose file is
    /// missing, or isn't the declared one, a first part.
    fn finishes(&self, _seen: &mut Self::Seen) {}

    /// The connection has ended.
    fn ends(&self, seen: Self::Seen);
}

impl WatchEach for Unwatched {
    type Seen = ();

    fn opens(&self, _peer: Option<IpAddr>) {}

    fn begins(&self, _seen: &mut (), _waiting: &[u8]) {}

    fn writes(&self, _seen: &mut (), _bytes: &[u8]) {}

    fn ends(&self, _seen: ()) {}
}

/// A watch, or none.
impl<V: WatchEach> WatchEach for Option<V> {
    type Seen = Option<V::Seen>;

    fn opens(&self, peer: Option<IpAddr>) -> Option<V::Seen> {
        match self {
            Some(watch) => Some(watch.opens(peer)),
            None => None,
        }
    }

    fn begins(&self, seen: &mut Option<V::Seen>, waiting: &[u8]) {
        if let (Some(watch), Some(seen)) = (self, seen) {
            watch.begins(seen, waiting);
        }
    }

    fn writes(&self, seen: &mut Option<V::Seen>, bytes: &[u8]) {
        if let (Some(watch), Some(seen)) = (self, seen) {
            watch.writes(seen, bytes);
        }
    }

    fn finishes(&self, seen: &mut Option<V::Seen>) {
        if let (Some(watch), Some(seen)) = (self, seen) {
            watch.finishes(seen);
        }
    }

    fn ends(&self, seen: Option<V::Seen>) {
        if let (Some(watch), Some(seen)) = (self, seen) {
            watch.ends(seen);
        }
    }
}
