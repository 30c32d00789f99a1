ghost use Rattle.std.specs.Prelude.{◌≡◌, option_map};

use streams::Trace;

/// A timestamp that a port gave for a connection, for contracts alone.
#[derive(Drop)]
pub struct Timestamp {
    /// How many seconds had passed since 1970.
    pub seconds: u64,
    /// The bytes that waited, if a message could begin with them.
    pub waiting: Option<Trace<u8>>,
    /// How many bytes had come on the connection.
    pub received: usize,
    /// How many bytes had been sent on it.
    pub sent: usize,
}

/// Returns the bytes that wait as a timestamp has them, for whoever makes one.
pub fn trace_waiting(waiting: Option<&[u8]>) -> Option<Trace<u8>>
    ensures { result ≡ option_map (λ bytes. bytes.now) waiting.entry }
{
    match waiting {
        Some(bytes) => Some(Trace::of(bytes)),
        None => None,
    }
}
