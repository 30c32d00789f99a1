// A thread of its own for a log's writer.

ghost use Rattle.std.specs.Prelude.{◌≡◌, ◌-◌, length, map};
ghost use Rattle.access_logs.specs.Queues.{HaveEnded, IsWhole};

use crate::queues::page::Page;
use crate::queues::sender::EndedSender;
use crate::queues::signal::LastLine;
use crate::queues::task::{Ending, Task};
use crate::queues::writer::LogWriter;
use crate::queues::writing::Writing;
use std::snapshot::Snapshot;
use std::sync::Wait;
use std::thread::{PromisedHandle, Threads};
use streams::WriteWhole;

/// What the thread of a log's writer does: what writes, and what it writes to.
#[derive(Drop)]
pub(crate) struct WriterTask<'s, 'p, R, W: WriteWhole> {
    pub(crate) rt: &'s R,
    /// What writes.
    pub(crate) writer: LogWriter,
    /// What it writes to.
    pub(crate) page: Page<'p, W>,
}

impl<'s, 'p, R: Wait, W: WriteWhole + Send> Task for WriterTask<'s, 'p, R, W> {
    ghost use Rattle.std.specs.Prelude.{◌≡◌};
    ghost use Rattle.std.specs.List.{AllZip};
    ghost use Rattle.rtrb.specs.Ring.{SameConsumer};
    ghost use Rattle.access_logs.specs.Queues.{HaveLogged};

    type End = (LogWriter, Page<'p, W>);

    ghost comes_to = { λ task end.
        (end.1.out.ghost_name ≡ task.page.out.ghost_name)
        × AllZip SameConsumer task.writer.ends end.0.ends
        × HaveLogged task.writer.received end.0.received (W.output task.page.out.now) (W.output end.1.out.now)
        task.page.is_cut end.1.is_cut };

    fn run(self) -> (LogWriter, Page<'p, W>) {
        let WriterTask { rt, writer, page } = self;
        let (mut writer, mut page) = (writer, page);
        writer.write_all(rt, &mut page);
        (writer, page)
    }
}

/// The thread of a log's writer. If it is dropped, the thread writes what was sent, and ends.
#[derive(Drop)]
pub struct WriterThread<'s, 'p, R: Wait, W: WriteWhole + Send> {
    /// What it began with.
    pub began: Snapshot<Writing<'p, W>>,
    pub(crate) last: LastLine,
    pub(crate) handle: PromisedHandle<(LogWriter, Page<'p, W>), Ending<WriterTask<'s, 'p, R, W>>>,
    ghost writer: { handle.promise.0.value.writer ≡ began.value.writer },
    ghost page: { handle.promise.0.value.page ≡ began.value.page },
}

impl<'s, 'p, R: Wait, W: WriteWhole + Send> WriterThread<'s, 'p, R, W> {
    // rule: Whole log
    /// Ends a log whose first senders have ended, and gives back what it is written to. All that they have sent was received
    /// and, unless a write failed, written.
    ///
    /// They are in the order in which they were opened. It waits for the thread's end.
    pub fn finish<T: Threads>(self, rt: &T, ended: Vec<EndedSender>) -> Page<'p, W>
        requires ended { HaveEnded self.began.value.opened.value.items ended.items }
        ensures whole { IsWhole (length self.entry.began.value.opened.value.items - length ended.items)
            (map (λ sender. sender.sent) ended.items) (W.output self.entry.began.value.page.out.now) (W.output result.out.now) }
        ensures out { result.out.ghost_name ≡ self.entry.began.value.page.out.ghost_name }
    {
        let WriterThread {
            began: _,
            last,
            handle,
        } = self;
        drop(last);
        let (mut writer, mut page) = handle.join(rt);
        writer.write_rest(ended, &mut page);
        page
    }
}
