// A log that is opened.

ghost use Rattle.std.specs.Prelude.{◌≡◌, ◌+◌, [], All, IfOk, length, replicate};
ghost use Rattle.std.specs.List.{AllZip};
ghost use Rattle.rtrb.specs.Ring.{consumer_capacity, received};
ghost use Rattle.access_logs.specs.Queues.{AreEnds, IsOpened};

use crate::queues::notes::MAX_NOTE;
use crate::queues::sender::LineSender;
use crate::queues::signal::Signal;
use crate::queues::writer::LogWriter;
use rtrb::{Consumer, RingBuffer};
use std::alloc::{AllocError, Global};
use std::sync::Arc;

/// A log: the senders, what writes their lines, and what ends it.
#[derive(Drop)]
pub struct Log {
    /// One for each thread that sends lines.
    pub senders: Vec<LineSender>,
    /// What writes their lines.
    pub writer: LogWriter,
    /// Ends the writer once all lines are sent.
    pub signal: Arc<Signal, Global>,
}

// So many bytes of room.
fn room_of(alloc: Global, bytes: usize) -> Result<Vec<u8>, AllocError>
    ensures { IfOk result (λ room. length room.items ≡ bytes) }
{
    vec![in alloc; 0; bytes]
}

// So many bytes and a note.
fn with_note(bytes: usize) -> Result<usize, AllocError>
    ensures { IfOk result (λ all. all ≡ bytes + 61) }
{
    bytes.checked_add(MAX_NOTE).ok_or(AllocError)
}

// A sender and the other end of its ring.
fn open_ring(
    alloc: Global,
    bytes: usize,
    signal: &Arc<Signal, Global>,
) -> Result<(LineSender, Consumer<u8>), AllocError>
    ensures sender { IfOk result (λ made. IsOpened bytes made.0) }
    ensures end { IfOk result (λ made. received made.1 ≡ []) }
    ensures ends { IfOk result (λ made. AreEnds made.0.end made.1) }
    ensures capacity { IfOk result (λ made. consumer_capacity made.1 ≡ bytes + 61) }
{
    let (ring, end) = RingBuffer::new(alloc, with_note(bytes)?)?;
    let signal = Arc::try_clone(signal)?;
    let sender = LineSender {
        alloc,
        ring,
        lost: 0,
        signal,
    };
    Ok((sender, end))
}

// So many senders, and the other ends of their rings, through which nothing has come.
fn open_rings(
    alloc: Global,
    count: usize,
    bytes: usize,
    signal: &Arc<Signal, Global>,
) -> Result<(Vec<LineSender>, Vec<Consumer<u8>>), AllocError>
    ensures many { IfOk result (λ made. length made.0.items ≡ count) }
    ensures fresh { IfOk result (λ made. All (IsOpened bytes) made.0.items) }
    ensures ends { IfOk result (λ made. AllZip (λ sender end. AreEnds sender.end end) made.0.items made.1.items) }
    ensures unread { IfOk result (λ made. All (λ end. received end ≡ []) made.1.items) }
    ensures capacity { IfOk result (λ made. All (λ end. consumer_capacity end ≡ bytes + 61) made.1.items) }
{
    let mut senders = Vec::new(alloc);
    let mut rings = Vec::new(alloc);
    for _ in 0..count {
        let (sender, end) = open_ring(alloc, bytes, signal)?;
        senders.push(sender)?;
        rings.push(end)?;
    }
    Ok((senders, rings))
}

/// Opens a log of so many senders, each with room for `bytes` and a note.
pub fn open_log(alloc: Global, count: usize, bytes: usize) -> Result<Log, AllocError>
    ensures many { IfOk result (λ log. length log.senders.items ≡ count) }
    ensures fresh { IfOk result (λ log. All (IsOpened bytes) log.senders.items) }
    ensures ends { IfOk result (λ log. AllZip (λ sender end. AreEnds sender.end end) log.senders.items log.writer.ends) }
    ensures unread { IfOk result (λ log. All (λ received. received ≡ []) log.writer.received) }
    ensures receives { IfOk result (λ log. length log.writer.received ≡ count) }
{
    let signal = Arc::new(alloc, Signal::new())?;
    let (senders, rings) = open_rings(alloc, count, bytes, &signal)?;
    let writer = LogWriter {
        rings,
        room: room_of(alloc, with_note(bytes)?)?,
        signal: Arc::try_clone(&signal)?,
    };
    Ok(Log {
        senders,
        writer,
        signal,
    })
}
