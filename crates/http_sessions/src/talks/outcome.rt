// What a reply leaves of a connection.

ghost use Rattle.std.specs.Prelude.{◌<◌};

use crate::talks::talk::Sending;

// A session that goes on: how many replies were begun, what is kept, and what was made.
#[derive(Drop)]
pub(crate) struct Opened {
    pub(crate) begun: u32,
    pub(crate) kept: Vec<u8>,
    pub(crate) made: Vec<u8>,
    ghost few: { begun < 1000 },
}

// A package whose head was made: how many replies will have been begun, and what is kept.
#[derive(Drop)]
pub(crate) struct Started {
    pub(crate) sending: Sending,
    pub(crate) begun: u32,
    pub(crate) kept: Vec<u8>,
    pub(crate) made: Vec<u8>,
    ghost few: { begun < 1000 },
}

// What is left.
#[derive(Drop)]
pub(crate) enum After {
    // The session goes on.
    Open(Opened),
    // A package is sent.
    Sends(Started),
    // It has ended, and this was made.
    Over(Vec<u8>),
    // Memory ran out for the reply, and this was made in its place.
    Failed(Vec<u8>),
    // Memory ran out before the desk was called.
    Lost,
}
