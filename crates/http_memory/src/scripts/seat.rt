// A slot of a script.

ghost use Rattle.std.specs.Prelude.{◌≡◌, ◌≤◌, ◌<◌, true, vec_len};

use crate::scripts::peer::Peer;

/// A slot of a script, with its peers, which connect one after the other.
#[derive(Drop)]
pub struct Seat {
    /// The peers, the first one first.
    pub peers: Vec<Peer>,
    /// How many of them have ended.
    pub ended: usize,
    /// Whether the next one is connected.
    pub is_open: bool,
    ghost within: { ended ≤ vec_len peers },
    ghost opened: { is_open ≡ true → ended < vec_len peers },
}
