// The one thread that writes a log.

ghost use Rattle.std.specs.Prelude.{◌≡◌, ◌≤◌, All, IsFalse, IsTrue, length, map};
ghost use Rattle.std.specs.List.{AllZip};
ghost use Rattle.rtrb.specs.Ring.{SameConsumer, consumer_capacity};
ghost use Rattle.access_logs.specs.Queues.{AreEndsOf, HasReceived, HaveLogged, HaveWritten};

use crate::queues::page::Page;
use crate::queues::rings::{write_rests, write_rings};
use crate::queues::sender::EndedSender;
use crate::queues::signal::Signal;
use rtrb::Consumer;
use std::alloc::Global;
use std::marker::Model;
use std::sync::{Arc, Wait};
use streams::WriteWhole;

/// What the senders of a log send to.
pub struct LogWriter {
    pub(crate) rings: Vec<Consumer<u8>>,
    pub(crate) room: Vec<u8>,
    pub(crate) signal: Arc<Signal, Global>,
    // room for all that is in a ring
    ghost roomy: { All (λ ring. consumer_capacity ring ≤ length room.items) rings.items },
}

// Written out, so that no caller proves again how each part is dropped.
impl Drop for LogWriter {
    fn drop(self) {
        let LogWriter {
            rings: _,
            room: _,
            signal: _,
        } = self;
    }
}

impl Model for LogWriter {
    ghost use Rattle.std.specs.Prelude.{map};
    ghost use Rattle.rtrb.specs.Ring.{received};
    ghost use Rattle.access_logs.specs.Queues.{Receiving};

    ghost Value = { Receiving };

    ghost view = { λ writer. record { ends = writer.rings.items; received = map received writer.rings.items } };

    ghost invariant = { λ _. Unit {0} };
}

impl LogWriter {
    // rule: Written log
    /// Writes what has come from each sender, without waiting for more, and returns whether it was anything.
    ///
    /// A line that can't be written is lost. If a part of one was written, the next one is preceded by a line feed.
    pub fn write_now<W: WriteWhole>(&mut self, page: &mut Page<'_, W>) -> bool
        ensures written { HaveWritten self.old.received self.new.received (W.output page.old.out.now)
            (W.output page.new.out.now) page.old.is_cut page.new.is_cut }
        ensures out { page.new.out.ghost_name ≡ page.old.out.ghost_name }
        ensures none { IsFalse result → self.new.received ≡ self.old.received }
        ensures some { IsTrue result → self.new.received ≡ self.old.received → ⊥ }
        ensures same { AllZip SameConsumer self.old.ends self.new.ends }
    {
        write_rings(&mut self.rings, &mut self.room, page)
    }

    // rule: Written log
    /// Writes what the senders send as it comes, until the signal's end, and all that was sent before it.
    pub fn write_all<R: Wait, W: WriteWhole>(&mut self, rt: &R, page: &mut Page<'_, W>)
        ensures written { HaveLogged self.old.received self.new.received (W.output page.old.out.now)
            (W.output page.new.out.now) page.old.is_cut page.new.is_cut }
        ensures out { page.new.out.ghost_name ≡ page.old.out.ghost_name }
        ensures same { AllZip SameConsumer self.old.ends self.new.ends }
    {
        for _ in rt.forever() {
            let is_over = self.signal.is_over();
            if self.write_now(page) {
                continue;
            }
            if is_over {
                return;
            }
            self.signal.wait(rt);
        }
    }

    // rule: Written log
    /// Writes the rest of what the first senders have sent, once they have ended, and what has come from the others; they
    /// are in the order in which they were opened.
    ///
    /// Then all that they have sent was received. A line that can't be written is lost.
    pub fn write_rest<W: WriteWhole>(&mut self, ended: Vec<EndedSender>, page: &mut Page<'_, W>)
        requires ends { AreEndsOf ended.items self.old.ends }
        ensures written { HaveWritten self.old.received self.new.received (W.output page.old.out.now)
            (W.output page.new.out.now) page.old.is_cut page.new.is_cut }
        ensures out { page.new.out.ghost_name ≡ page.old.out.ghost_name }
        ensures all { HasReceived (map (λ sender. sender.sent) ended.items) self.new.received }
        ensures same { AllZip SameConsumer self.old.ends self.new.ends }
    {
        let mut ended = ended;
        write_rests(&mut self.rings, &mut ended, &mut self.room, page);
    }
}
