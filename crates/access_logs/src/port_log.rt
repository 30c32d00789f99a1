ghost use Rattle.std.specs.Prelude.{◌≡◌, ◌<◌, ◌++◌, ◌||◌, [], ℕ, None, Some, vec_len};
ghost use Rattle.rtrb.specs.Ring.{SameProducer};
ghost use Rattle.access_logs.specs.Queues.{Sending};
ghost use Rattle.access_logs.specs.Logs.{LogsAt, LogsOne};
ghost use Rattle.access_logs.specs.Replies.{Piece, begun, piece_if, with_more};
ghost use Rattle.access_logs.specs.Sights.{Becomes, IsSeenOf, Sight, no_sight};
ghost use Rattle.access_logs.specs.Tracks.{Tracks};

use crate::lines::line_of;
use crate::places::{Places, put, set};
use crate::queues::LineSender;
use crate::seen::Seen;
use std::alloc::Global;
use std::net::IpAddr;

/// The log of a port: the sender of its lines, and what was seen of the reply that is under way at each slot.
#[derive(Drop)]
pub(crate) struct PortLog {
    pub(crate) alloc: Global,
    pub(crate) lines: LineSender,
    pub(crate) seens: Vec<Option<Seen>>,
}

// rule: Line of a reply
// Sends the line of a reply; one that memory is lacking for is lost.
fn send_line(alloc: Global, lines: &mut LineSender, seconds: u64, seen: &Seen)
    ensures logs { (slot : ℕ) (piece : Piece) → IsSeenOf piece seen.now
        → LogsOne lines.old
        (record { slot = slot; piece = piece; is_short = seen.now.message.is_short || seen.now.reply.is_short })
        lines.new }
    ensures ring { SameProducer lines.old.end lines.new.end }
{
    match line_of(alloc, &seen.entry(seconds)) {
        Ok(line) => lines.send(&line),
        Err(_) => lines.lose(),
    }
}

// rule: Line of a reply
// Sends the line of a slot's reply, if a byte of it was written.
fn log_reply(alloc: Global, lines: &mut LineSender, seconds: u64, seen: &Seen)
    ensures logs { (slot : ℕ) (piece : Piece) → IsSeenOf piece seen.now
        → LogsAt slot (piece_if piece.message piece.reply) lines.old lines.new }
    ensures ring { SameProducer lines.old.end lines.new.end }
{
    if seen.is_replied() {
        send_line(alloc, lines, seconds, seen);
    }
}

impl PortLog {
    /// Makes the log of slots at which nothing has happened, over a sender.
    pub(crate) fn new(alloc: Global, lines: LineSender, places: Places) -> PortLog
        ensures slots { vec_len result.seens ≡ places }
        ensures tracks { Tracks lines result (λ k. no_sight) }
    {
        let Places { seens } = places;
        PortLog {
            alloc,
            lines,
            seens,
        }
    }

    /// A connection was accepted at a slot, from this address if the system gives it.
    pub(crate) fn accept(&mut self, slot: usize, peer: Option<IpAddr>)
        requires within { slot < vec_len self.old.seens }
        ensures tracks { (start : Sending) (was is : ℕ → Sight)
            → Becomes slot (record { done = (was slot).done; going = Some (begun []) }) was is
            → Tracks start self.old was → Tracks start self.new is }
        ensures slots { vec_len self.new.seens ≡ vec_len self.old.seens }
    {
        set(&mut self.seens, slot, Seen::new(self.alloc, peer));
    }

    // rule: Replies of a connection
    /// A message may begin with these bytes, at a time: the reply before it is done.
    pub(crate) fn begin(&mut self, slot: usize, seconds: u64, waiting: &[u8])
        requires within { slot < vec_len self.old.seens }
        ensures tracks { (start : Sending) (was is : ℕ → Sight) (piece : Piece) → (was slot).going ≡ Some piece
            → Becomes slot
            (record { done = (was slot).done ++ piece_if piece.message piece.reply; going = Some (begun waiting.now) })
            was is
            → Tracks start self.old was → Tracks start self.new is }
        ensures slots { vec_len self.new.seens ≡ vec_len self.old.seens }
    {
        if let Some(seen) = put(&mut self.seens, slot, None) {
            log_reply(self.alloc, &mut self.lines, seconds, &seen);
            let mut seen = seen;
            seen.forget();
            seen.read(waiting);
            set(&mut self.seens, slot, seen);
        }
    }

    /// These bytes of a reply were written.
    pub(crate) fn write(&mut self, slot: usize, bytes: &[u8])
        requires within { slot < vec_len self.old.seens }
        ensures tracks { (start : Sending) (was is : ℕ → Sight) (piece : Piece) → (was slot).going ≡ Some piece
            → Becomes slot (record { done = (was slot).done; going = Some (with_more piece bytes.now) }) was is
            → Tracks start self.old was → Tracks start self.new is }
        ensures slots { vec_len self.new.seens ≡ vec_len self.old.seens }
    {
        if let Some(seen) = put(&mut self.seens, slot, None) {
            let mut seen = seen;
            seen.write(bytes);
            set(&mut self.seens, slot, seen);
        }
    }

    // rule: Replies of a connection
    /// The connection has ended, at a time, and its last reply with it.
    pub(crate) fn end(&mut self, slot: usize, seconds: u64)
        requires within { slot < vec_len self.old.seens }
        ensures tracks { (start : Sending) (was is : ℕ → Sight) (piece : Piece) → (was slot).going ≡ Some piece
            → Becomes slot
            (record { done = (was slot).done ++ piece_if piece.message piece.reply; going = None }) was is
            → Tracks start self.old was → Tracks start self.new is }
        ensures slots { vec_len self.new.seens ≡ vec_len self.old.seens }
    {
        if let Some(seen) = put(&mut self.seens, slot, None) {
            log_reply(self.alloc, &mut self.lines, seconds, &seen);
        }
    }
}
