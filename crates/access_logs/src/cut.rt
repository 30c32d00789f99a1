// Replies of which a part was written.

ghost use Rattle.std.specs.Prelude.{[]};
ghost use Rattle.access_logs.specs.Replies.{begun};
ghost use Rattle.access_logs.specs.Sights.{IsSeenOf};

use crate::seen::Seen;
use std::alloc::Global;

// The most bytes of a message that are kept: more than its first line has.
const MAX_LINE: usize = 2048;

/// A reply that has fewer bytes than its head says.
#[derive(Clone, Copy)]
pub struct CutReply<'a> {
    /// The first line of the message.
    pub line: &'a [u8],
    /// How many bytes the body was to have.
    pub size: u64,
}

/// What was seen of the last reply of a connection.
#[derive(Drop)]
pub struct LastReply {
    seen: Seen,
}

impl LastReply {
    /// No reply yet.
    pub fn new(alloc: Global) -> LastReply
        ensures { IsSeenOf (begun []) result.seen }
    {
        LastReply {
            seen: Seen::new(alloc, None),
        }
    }

    /// Notes that a message may begin with these bytes, after the reply to the one before it.
    pub fn begin(&mut self, message: &[u8]) {
        let count = message.len().min(MAX_LINE);
        self.seen.forget();
        self.seen.read(&message[..count]);
    }

    /// Notes bytes of the reply.
    pub fn write(&mut self, bytes: &[u8]) {
        self.seen.write(bytes);
    }

    /// Returns the reply, if it is cut off: its head was written, and says of more bytes than were written after it.
    pub fn cut(&self) -> Option<CutReply<'_>> {
        self.seen.cut()
    }
}
