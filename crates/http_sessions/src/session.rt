ghost use Rattle.std.specs.Prelude.{◌<◌};

use crate::ends::Served;
use http_wire::Window;

/// The most messages of a session.
pub const MAX_MESSAGES: u32 = 1000;

/// An open session between two messages: the bytes that were read and not yet used, and how many
/// replies were begun, below `MAX_MESSAGES`.
#[derive(Drop)]
pub struct Session {
    pub(crate) window: Window,
    pub(crate) begun: u32,
    ghost few: { begun < 1000 },
}

/// What a session is after one message.
#[derive(Drop)]
pub enum Turn {
    /// Still open.
    Open(Session),
    /// Ended.
    Ended(Served),
}
