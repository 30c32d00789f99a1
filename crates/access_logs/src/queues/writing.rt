// A log that is opened with what it is written to.

ghost use Rattle.std.specs.Prelude.{◌≡◌, [], All, IfOk, IfSome, IsFalse, length};
ghost use Rattle.std.specs.List.{AllZip};
ghost use Rattle.access_logs.specs.Facts.{AllEnds-prop};
ghost use Rattle.access_logs.specs.Pages.{IsUncut};
ghost use Rattle.access_logs.specs.Queues.{AreEnds, IsOpened};

use crate::queues::opening::{Log, open_log};
use crate::queues::page::Page;
use crate::queues::sender::LineSender;
use crate::queues::signal::{LastLine, Signal};
use crate::queues::task::start;
use crate::queues::thread::{WriterTask, WriterThread};
use crate::queues::writer::LogWriter;
use std::alloc::{AllocError, Global};
use std::snapshot::Snapshot;
use std::sync::{Arc, Wait};
use std::thread::Scope;
use streams::WriteWhole;

/// What writes the lines of a log, and what it writes to, before its thread begins.
#[derive(Drop)]
pub struct Writing<'p, W: WriteWhole> {
    pub(crate) writer: LogWriter,
    /// What it writes to.
    pub page: Page<'p, W>,
    pub(crate) signal: Arc<Signal, Global>,
    /// The senders as they were opened.
    pub opened: Snapshot<Vec<LineSender>>,
    // the writer has the other ends of their rings
    ghost ends: { AllZip (λ sender end. AreEnds sender.end end) opened.value.items writer.ends } by { AllEnds-prop opened.value.items writer.ends },
    // it has no others
    ghost many: { length writer.received ≡ length opened.value.items },
    // nothing has come out of them
    ghost unread: { All (λ received. received ≡ []) writer.received },
    // the page ends in a whole line, or has none
    ghost whole: { IsFalse page.is_cut },
}

impl<'p, W: WriteWhole + Send> Writing<'p, W> {
    /// Opens a log of so many senders, each with room for `bytes` and a note, that is written to a page.
    pub fn open(
        alloc: Global,
        count: usize,
        bytes: usize,
        page: Page<'p, W>,
    ) -> Result<(Vec<LineSender>, Writing<'p, W>), AllocError>
        requires whole { IsUncut page }
        ensures many { IfOk result (λ made. length made.0.items ≡ count) }
        ensures fresh { IfOk result (λ made. All (IsOpened bytes) made.0.items) }
        ensures opened { IfOk result (λ made. made.1.opened.value ≡ made.0) }
        ensures page { IfOk result (λ made. made.1.page ≡ page.entry) }
    {
        let Log {
            senders,
            writer,
            signal,
        } = open_log(alloc, count, bytes)?;
        let opened = Snapshot::of(&senders);
        let writing = Writing {
            writer,
            page,
            signal,
            opened,
        };
        Ok((senders, writing))
    }

    /// Writes what the senders send in a thread of its own, as `write_all` does; or `None` if there can be none.
    pub fn start<'s, E, R: Wait + Sync>(
        self,
        scope: &Scope<'s, E>,
        rt: &'s R,
    ) -> Option<WriterThread<'s, 'p, R, W>>
    where
        'p: 's,
        ensures began { IfSome result (λ thread. thread.began.value ≡ self.entry) }
    {
        let began = Snapshot::of(&self);
        let Writing {
            writer,
            page,
            signal,
            opened: _,
        } = self;
        let handle = start(scope, WriterTask { rt, writer, page })?;
        Some(WriterThread {
            began,
            last: LastLine(signal),
            handle,
        })
    }
}
