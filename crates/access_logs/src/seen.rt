ghost use Rattle.std.specs.Prelude.{◌≡◌, [], length, nat_lt};
ghost use Rattle.access_logs.specs.Entries.{IsEntry, size_of};
ghost use Rattle.access_logs.specs.Replies.{Piece, begun, with_message, with_more};
ghost use Rattle.access_logs.specs.Sights.{IsSeenOf};

use crate::cut::CutReply;
use crate::entry::Entry;
use crate::kept::Kept;
use crate::message::{asker_of, first_line, replied_in};
use std::alloc::Global;
use std::net::IpAddr;

// The most bytes of a message that are kept: those of the longest head.
const MAX_MESSAGE: usize = 16384;

// The most bytes of a reply that are kept: more than a head has.
const MAX_REPLY: usize = 1024;

/// What was seen of a connection's reply that is under way.
pub struct Seen {
    address: Option<IpAddr>,
    pub(crate) message: Kept,
    pub(crate) reply: Kept,
    pub(crate) written: u64,
}

// Written out, so that no caller proves again how each part is dropped.
impl Drop for Seen {
    fn drop(self) {
        let Seen {
            address: _,
            message: _,
            reply: _,
            written: _,
        } = self;
    }
}

impl Seen {
    // Nothing yet, of a connection from this address.
    pub(crate) fn new(alloc: Global, address: Option<IpAddr>) -> Seen
        ensures { IsSeenOf (begun []) result }
    {
        Seen {
            address,
            message: Kept::new(alloc, MAX_MESSAGE),
            reply: Kept::new(alloc, MAX_REPLY),
            written: 0,
        }
    }

    // Notes bytes of the message.
    pub(crate) fn read(&mut self, bytes: &[u8])
        ensures { (piece : Piece) → IsSeenOf piece self.old → IsSeenOf (with_message piece bytes.now) self.new }
    {
        self.message.add(bytes);
    }

    // Notes bytes of the reply.
    pub(crate) fn write(&mut self, bytes: &[u8])
        ensures { (piece : Piece) → IsSeenOf piece self.old → IsSeenOf (with_more piece bytes.now) self.new }
    {
        self.reply.add(bytes);
        self.written = self.written.saturating_add(bytes.len() as u64);
    }

    // Whether a part of a reply was written.
    pub(crate) fn is_replied(&self) -> bool
        ensures { (piece : Piece) → IsSeenOf piece self.now → result ≡ nat_lt 0 (length piece.reply) }
    {
        self.written > 0
    }

    // The reply, if its head was written, and says of more bytes than were written after it.
    pub(crate) fn cut(&self) -> Option<CutReply<'_>> {
        let replied = replied_in(&self.reply.bytes);
        let (head, size) = (replied.head?, replied.size?);
        if self.written.saturating_sub(head) >= size {
            return None;
        }
        Some(CutReply {
            line: first_line(&self.message.bytes),
            size,
        })
    }

    // rule: Line of a reply
    // What a line says of the reply, at a time.
    pub(crate) fn entry(&self, seconds: u64) -> Entry<'_>
        ensures { (piece : Piece) → IsSeenOf piece self.now
            → IsEntry self.now.message.bytes.items self.now.reply.bytes.items (size_of piece.reply) result }
    {
        let asker = asker_of(&self.message.bytes);
        let replied = replied_in(&self.reply.bytes);
        Entry {
            address: self.address,
            seconds,
            line: first_line(&self.message.bytes),
            status: replied.status,
            size: self
                .written
                .saturating_sub(replied.head.unwrap_or(self.written)),
            referrer: asker.referrer,
            agent: asker.agent,
        }
    }

    // Forgets the message and its reply.
    pub(crate) fn forget(&mut self)
        ensures { (piece : Piece) → IsSeenOf piece self.old → IsSeenOf (begun []) self.new }
    {
        self.message.clear();
        self.reply.clear();
        self.written = 0;
    }
}
