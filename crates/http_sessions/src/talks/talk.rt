ghost use Rattle.std.specs.Prelude.{◌<◌, ◌≤◌, vec_len};

use http_desks::{Declared, Transfer};

// A package that is being sent.
#[derive(Drop)]
pub(crate) struct Sending {
    pub(crate) transfer: Transfer,
    pub(crate) name: Vec<u8>,
    pub(crate) declared: Declared,
    // whether the connection ends after it
    pub(crate) closes: bool,
}

// How far a connection's session is.
#[derive(Drop)]
pub(crate) enum Stage {
    // What is kept may be a message.
    Busy,
    // What is kept is less than a message.
    Part,
    // The reply to the last message is a package of which there are more blocks.
    Sends(Sending),
    // The session has ended.
    Over,
    // Memory ran out for the last reply, and another one takes its place.
    Failed,
    // Memory ran out before the desk was called, or within a package.
    Lost,
}

/// A connection between two calls of its port.
pub struct Talk {
    pub(crate) stage: Stage,
    // how many replies were begun; while a package is sent after which the connection goes on, one more
    pub(crate) begun: u32,
    // what was received and not yet used
    pub(crate) kept: Vec<u8>,
    // what is kept is less than a message as long as there are fewer bytes than so many
    pub(crate) need: usize,
    // the replies that were made, of which so many bytes are sent
    pub(crate) made: Vec<u8>,
    pub(crate) sent: usize,
    ghost few: { begun < 1000 },
    ghost within: { sent ≤ vec_len made },
}

// Written out, so that no caller proves again how each part is dropped.
impl Drop for Talk {
    fn drop(self) {
        let Talk {
            stage: _,
            begun: _,
            kept: _,
            need: _,
            made: _,
            sent: _,
        } = self;
    }
}
