ghost use Rattle.std.specs.Prelude.{◌≡◌, ◌⊎◌, ◌++◌, ◌≤◌, IsOk, IsTrue, IsFalse, Ok, length};
ghost use Rattle.rtrb.specs.Ring.{SameProducer, known_free};
ghost use Rattle.access_logs.specs.Queues.{Loses, Sends, note_of};

use crate::queues::notes::{MAX_NOTE, after_note, lost_note};
use crate::queues::signal::Signal;
use rtrb::Producer;
use std::alloc::Global;
use std::io;
use std::io::Write;
use std::marker::Model;
use std::sync::Arc;

/// One thread's end of a log. It takes no lock and waits for nobody. `finish` ends it.
#[derive(Drop)]
pub struct LineSender {
    pub(crate) alloc: Global,
    pub(crate) ring: Producer<u8>,
    // how many lines were lost since the last one that went
    pub(crate) lost: u64,
    pub(crate) signal: Arc<Signal, Global>,
    // room for the last note
    ghost room: { 61 ≤ known_free ring },
}

impl Model for LineSender {
    ghost use Rattle.std.specs.Prelude.{◌-◌};
    ghost use Rattle.rtrb.specs.Ring.{known_free, sent};
    ghost use Rattle.access_logs.specs.Queues.{Sending};

    ghost Value = { Sending };

    ghost view = { λ sender. record {
      end = sender.ring;
      sent = sent sender.ring;
      lost = sender.lost;
      free = known_free sender.ring - 61;
    } };

    ghost invariant = { λ _. Unit {0} };
}

/// A sender that has ended: what it has sent is all that comes from it.
#[derive(Drop)]
pub struct EndedSender {
    pub(crate) ring: Producer<u8>,
}

impl Model for EndedSender {
    ghost use Rattle.rtrb.specs.Ring.{sent};
    ghost use Rattle.access_logs.specs.Queues.{Ended};

    ghost Value = { Ended };

    ghost view = { λ ended. record { end = ended.ring; sent = sent ended.ring } };

    ghost invariant = { λ _. Unit {0} };
}

impl LineSender {
    // Puts bytes into the ring, all or none, and keeps room for the last note; whether there was room.
    fn push(&mut self, bytes: &[u8]) -> bool
        ensures ok { IsTrue result → self.new.sent ≡ self.old.sent ++ bytes.now }
        ensures full { IsFalse result → self.new.sent ≡ self.old.sent }
        ensures fits { length bytes.now ≤ self.old.free → IsTrue result }
        ensures lost { self.new.lost ≡ self.old.lost }
        ensures ring { SameProducer self.old.end self.new.end }
    {
        let room = self.ring.slots();
        if room - MAX_NOTE < bytes.len() {
            return false;
        }
        self.ring.push_entire_slice(bytes).is_ok()
    }

    // Puts a line into the ring, after the note of those that were lost; whether there was room.
    fn push_noted(&mut self, line: &[u8]) -> bool
        ensures ok { IsTrue result → self.new.sent ≡ self.old.sent ++ note_of self.old.lost ++ line.now }
        ensures full { IsFalse result → self.new.sent ≡ self.old.sent }
        ensures fits { self.old.lost ≡ 0 → length line.now ≤ self.old.free → IsTrue result }
        ensures lost { self.new.lost ≡ self.old.lost }
        ensures ring { SameProducer self.old.end self.new.end }
    {
        if self.lost == 0 {
            return self.push(line);
        }
        match after_note(self.alloc, self.lost, line) {
            Ok(bytes) => self.push(&bytes),
            Err(_) => false,
        }
    }

    // rule: Line that is sent
    /// Sends a line, which ends in a line feed, to the log's writer, after a line that says how many were lost before it.
    ///
    /// If there is no room, the line is lost and counted. It returns at once, whatever the writer does.
    pub fn send(&mut self, line: &[u8])
        ensures sends { Sends self.old self.new line.now ⊎ Loses self.old self.new }
        ensures fits { self.old.lost ≡ 0 → length line.now ≤ self.old.free → Sends self.old self.new line.now }
        ensures ring { SameProducer self.old.end self.new.end }
    {
        if self.push_noted(line) {
            self.lost = 0;
            self.signal.wake();
        } else {
            self.lost = self.lost.saturating_add(1);
        }
    }

    /// Counts a line as lost that isn't sent.
    pub fn lose(&mut self)
        ensures loses { Loses self.old self.new }
        ensures ring { SameProducer self.old.end self.new.end }
    {
        self.lost = self.lost.saturating_add(1);
    }

    // rule: Note of lost lines
    /// Ends a sender. If lines were lost after the last one that went, it sends one more line, which says how many.
    ///
    /// There is always room for that line. Senders are finished before the log's signal ends.
    pub fn finish(self) -> EndedSender
        ensures sent { result.sent ≡ self.sent ++ note_of self.lost }
        ensures ring { SameProducer self.end result.end }
    {
        let mut ring = self.ring;
        if self.lost > 0 {
            let note = lost_note(self.lost);
            let _ = ring.push_entire_slice(note.as_slice());
            self.signal.wake();
        }
        EndedSender { ring }
    }
}

impl Write for LineSender {
    ghost use Rattle.std.specs.Prelude.{None};

    // what was lost is not written
    ghost contents = { λ _. None };

    /// Sends a line as `send` does, and takes all of its bytes.
    fn write(&mut self, bytes: &[u8]) -> io::Result<usize>
        ensures taken { result ≡ Ok (length bytes.now) }
        ensures sends { Sends self.old self.new bytes.now ⊎ Loses self.old self.new }
        ensures ring { SameProducer self.old.end self.new.end }
    {
        self.send(bytes);
        Ok(bytes.len())
    }

    fn flush(&mut self) -> io::Result<()>
        ensures ok { IsOk result }
        ensures kept { self.new ≡ self.old }
    {
        Ok(())
    }
}
