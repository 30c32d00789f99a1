// What is wrong with a history.

ghost use Rattle.std.specs.Prelude.{◌≡◌, Some};
ghost use Rattle.failures.specs.HistoryFaults.{append_string, cause_string, history_fault_string, unreached_string};

use crate::record_fault::RecordFault;
use kept_records::{AppendFault, Cause, OpenFault, Unreached};
use std::error::Error;
use std::fmt;

/// What is wrong with a history; it prints as the reason after its path.
#[derive(Debug)]
pub enum HistoryFault {
    /// It can't be opened.
    Open(OpenFault),
    /// A record can't be kept.
    Append(AppendFault),
    /// The record of this number begins nothing, or doesn't follow those before it.
    Record(u64, RecordFault),
    /// Its first record isn't the profile that is named.
    OtherProfile,
    /// It has no records, and no profile is named.
    Empty,
    /// It has no edition of this number.
    NoEdition(u64),
}

// Written out, so that no caller proves again how each part is dropped.
impl Drop for HistoryFault {
    fn drop(self) {
        match self {
            HistoryFault::Open(_) => {}
            HistoryFault::Append(_) => {}
            HistoryFault::Record(_, _) => {}
            HistoryFault::OtherProfile => {}
            HistoryFault::Empty => {}
            HistoryFault::NoEdition(_) => {}
        }
    }
}

// Why no server of a history gave a reply that counts.
fn unreached_string(unreached: Unreached) -> &'static str
    ensures { result.now ≡ unreached_string unreached }
{
    match unreached {
        Unreached::NoReply => "none of its servers replies",
        Unreached::OtherCluster => "its servers are of another cluster than before",
        Unreached::OlderState => "its servers have an older state than before",
    }
}

// What made a call fail, as it prints.
#[derive(Clone, Copy)]
struct Reason {
    cause: Cause,
}

impl fmt::Display for Reason {
    ghost output = { λ reason. Some (cause_string reason.cause) };

    fn fmt<W: fmt::Write>(&self, f: &mut fmt::Formatter<W>) -> fmt::Result {
        match self.cause {
            Cause::Memory => f.write_str("out of memory"),
            Cause::DiskFull => f.write_str("the disk is full"),
            Cause::Disk => f.write_str("the disk failed"),
            Cause::Damaged => f.write_str("damaged"),
            Cause::TooLarge => f.write_str("the record is too large"),
            Cause::Closed => f.write_str("closed by an earlier failure"),
            Cause::Unreachable(unreached) => f.write_str(unreached_string(unreached)),
            Cause::Unreadable => f.write_str("a reply of its servers cannot be read"),
            Cause::Rejected(words) => write!(f, "its servers rejected it: {words}"),
            Cause::Missing(number) => write!(f, "record {number}: missing"),
            Cause::Changed(number) => write!(f, "record {number}: damaged"),
            Cause::Shared => f.write_str("shared by servers, so it isn't compacted"),
        }
    }
}

// Why a record can't be kept, as it prints.
#[derive(Clone, Copy)]
struct Unkept {
    fault: AppendFault,
}

impl fmt::Display for Unkept {
    ghost output = { λ unkept. Some (append_string unkept.fault) };

    fn fmt<W: fmt::Write>(&self, f: &mut fmt::Formatter<W>) -> fmt::Result {
        match self.fault {
            AppendFault::Taken => f.write_str("another program has added a record"),
            AppendFault::Full => f.write_str("full"),
            AppendFault::Failed(cause) => Reason { cause }.fmt(f),
            AppendFault::Unknown(cause) => Reason { cause }.fmt(f),
        }
    }
}

impl fmt::Display for HistoryFault {
    ghost output = { λ fault. Some (history_fault_string fault) };

    fn fmt<W: fmt::Write>(&self, f: &mut fmt::Formatter<W>) -> fmt::Result {
        match self {
            HistoryFault::Open(OpenFault::Foreign) => f.write_str("not a history"),
            HistoryFault::Open(OpenFault::Busy) => f.write_str("in use by another program"),
            HistoryFault::Open(OpenFault::Unopened) => f.write_str("cannot be opened"),
            HistoryFault::Open(OpenFault::Parted) => f.write_str(
                "has a log, but its file is missing or empty: put the file back, or move the log away",
            ),
            HistoryFault::Open(OpenFault::Bare) => f.write_str(
                "has no table, as without its log: put the log back, or remove the file to begin anew",
            ),
            HistoryFault::Open(OpenFault::Astray) => f.write_str(
                "has a log that is older than it, or another file's: move the log away",
            ),
            HistoryFault::Open(OpenFault::Damaged(number)) => {
                write!(f, "record {number}: damaged or missing")
            }
            HistoryFault::Open(OpenFault::Failed(cause)) => Reason { cause: *cause }.fmt(f),
            HistoryFault::Append(fault) => Unkept { fault: *fault }.fmt(f),
            HistoryFault::Record(number, fault) => write!(f, "record {number}: {fault}"),
            HistoryFault::OtherProfile => f.write_str(
                "begins with another profile: leave --profile out, or begin another file",
            ),
            HistoryFault::Empty => f.write_str("has no records: name a profile"),
            HistoryFault::NoEdition(number) => write!(f, "no edition {number}"),
        }
    }
}

impl Error for HistoryFault {}
