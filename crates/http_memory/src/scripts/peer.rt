// One connection of a script.

ghost use Rattle.std.specs.Prelude.{◌≡◌, ◌≤◌, vec_len};
ghost use Rattle.http_ports.specs.declared.last.Last.TheVariants.{InputEnded};

use http_ports::{Last, Timestamp};
use streams::Trace;

/// What a peer does once it has sent its input, or got as much as it takes.
#[derive(Clone, Copy, Drop)]
pub enum Finish {
    /// Its input ends; it takes no more, and a write to it fails.
    Ends,
    /// Reads of it and writes to it fail.
    Fails,
    /// It stays silent, and takes no more.
    Stays,
}

/// A peer: it sends its input in pieces, and takes pieces of that length, as a rule with a pause after each.
#[derive(Drop)]
pub struct Peer {
    /// What it sends.
    pub input: Vec<u8>,
    /// How much of that was read.
    pub read: usize,
    /// What it got; it takes as much as there is room for.
    pub got: Vec<u8>,
    /// The length of a piece; 0 counts as 1.
    pub piece: usize,
    /// What it does after its input.
    pub after_input: Finish,
    /// What it does once it took as much as it takes.
    pub when_full: Finish,
    /// Whether it pauses after each piece.
    pub is_slow: bool,
    /// Whether it pauses now.
    pub pauses: bool,
    /// The timestamps that its connection was given; for contracts alone.
    pub timestamps: Trace<Timestamp>,
    /// What the last call for the connection came to.
    pub last: Last,
    /// Whether its time is up.
    pub expired: bool,
    ghost within: { read ≤ vec_len input },
    ghost ended: { last ≡ InputEnded → read ≡ vec_len input },
}
