// Why records could not be kept or read.

use crate::words::Words;
use thiserror::Error;

/// Why no server of a shared history gave a reply that counts.
#[derive(Clone, Copy, Debug, Drop, PartialEq, Eq, Error)]
pub enum Unreached {
    /// None replies.
    #[error("no server of the history replies")]
    NoReply,
    /// One replies, of another cluster than those that replied before.
    #[error("its servers are of another cluster than before")]
    OtherCluster,
    /// One replies, with a state that is older than one that was seen before.
    #[error("its servers have an older state than before")]
    OlderState,
}

/// What made a call fail.
#[derive(Clone, Copy, Debug, Drop, PartialEq, Eq, Error)]
pub enum Cause {
    /// An allocation failed.
    #[error("out of memory")]
    Memory,
    /// The disk has no room.
    #[error("the disk is full")]
    DiskFull,
    /// A read, a write or a sync of the disk failed.
    #[error("the disk failed")]
    Disk,
    /// What is stored was changed or damaged.
    #[error("the stored records are damaged")]
    Damaged,
    /// The record is larger than the store accepts.
    #[error("the record is too large")]
    TooLarge,
    /// An earlier failure closed it, and nothing is written until it is opened again.
    #[error("an earlier failure closed it, restart the server")]
    Closed,
    /// No server of a shared history replies, or none whose reply counts.
    #[error("{0}")]
    Unreachable(Unreached),
    /// A reply of the servers of a shared history can't be read.
    #[error("a reply of the history's servers cannot be read")]
    Unreadable,
    /// A server of a shared history rejected the request, with a message that begins so.
    #[error("{0}")]
    Rejected(Words),
    /// The record of this number is missing: it was removed from where the history is kept.
    #[error("record {0}: missing")]
    Missing(u64),
    /// The record of this number isn't the one that was kept.
    #[error("record {0}: damaged")]
    Changed(u64),
    /// Other servers share the history, and know its records by their numbers.
    #[error("a shared history isn't compacted, export it and begin another")]
    Shared,
}

/// Why a record was not appended.
#[derive(Clone, Copy, Debug, Drop, PartialEq, Eq, Error)]
pub enum AppendFault {
    /// Another record has the next number: `next` reads it.
    #[error("another record has the next number")]
    Taken,
    /// The record may be stored, or not: the next read or the next start shows which.
    #[error("the record may be stored or not: {0}")]
    Unknown(Cause),
    /// The record isn't stored.
    #[error("the record is not stored: {0}")]
    Failed(Cause),
    /// There is no room for it within the limit of all records, and it isn't stored.
    #[error("the history is full: compact it, or raise its limit")]
    Full,
}

/// Why the next record was not read.
#[derive(Clone, Copy, Debug, Drop, PartialEq, Eq, Error)]
pub enum ReadFault {
    /// A read failed.
    #[error("the next record could not be read: {0}")]
    Failed(Cause),
}

/// Why records were not opened. What is stored is as before.
#[derive(Clone, Copy, Debug, Drop, PartialEq, Eq, Error)]
pub enum OpenFault {
    /// What is stored isn't a history: a file of another program, or one whose records aren't numbered in order.
    #[error("it isn't a history")]
    Foreign,
    /// Another program has it open.
    #[error("another program has it open")]
    Busy,
    /// There is no such folder, no permission, or no regular file of the name.
    #[error("it cannot be opened")]
    Unopened,
    /// There is a log with records, and the file that it belongs to is missing or empty.
    #[error("it has a log, but its file is missing or empty")]
    Parted,
    /// There is a page without a table, as a file that lost its log has, or one whose first start was cut off.
    #[error("it has no table: its log is missing or damaged")]
    Bare,
    /// The log isn't that of the file: it is older, or another file's.
    #[error("its log is older than its file, or another file's")]
    Astray,
    /// The record of this number isn't the one that was kept, or is missing.
    #[error("record {0} is damaged")]
    Damaged(u64),
    /// A call failed.
    #[error("{0}")]
    Failed(Cause),
}
