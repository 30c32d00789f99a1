// The history in a file.

ghost use Rattle.std.specs.Prelude.{◌≡◌, ◌↔◌, ◌<◌, ◌≤◌, ◌^◌, Err, IfErr, IfOk, IsTrue, length, true};
ghost use Rattle.kept_records.specs.declared.fault.AppendFault.TheVariants.{Full};
ghost use Rattle.kept_records.specs.declared.record.Kind.TheVariants.{Profile};
ghost use Rattle.kept_records.specs.Keeping.{Appends, Compacts, HasRoom, Numbers, record_of};
ghost use Rattle.sqlite.specs.Files.{IsOpened, file_state};
ghost use Rattle.sqlite.specs.Start.{FindsIn};
ghost use Rattle.sqlite.specs.State.{HasCleanDisk};
ghost use Rattle.sqlite.specs.WalFiles.{image_at};
ghost use Rattle.history.specs.Changes.{HasNoRoom, IsNumbered, Makes, ReportsChange};
ghost use Rattle.history.specs.Logs.{IsKnown, Reports, ReportsCompaction};
ghost use Rattle.history.specs.Openings.{IsOpenedAt};

use crate::appending::Change;
use crate::causes::open_fault_of;
use crate::history::History;
use crate::lone_files::{Lone, check_log, read_lone};
use crate::opening::take_opened;
use crate::parting::{Pair, check_parted};
use kept_records::{AppendFault, Cause, Kind, OpenFault, ReadFault, Record, Records, Stores};
use sqlite::{Connection, FileFrom, FileStore, Start, Wary};
use sqlite_pager::Options;
use sqlite_std_file::OpenError as PathError;
use std::alloc::Global;
use std::hash::{BuildHasher, RandomState};
use std::io::ErrorKind;
use std::marker::Model;
use std::rt::HostRuntime;

// How many pages a log has if it is copied into the database file before the next transaction: that of a checksum comes after
// each record, so the record is copied.
const LOG_PAGES: usize = 1;

// Opens the database in the files at a path.
fn open_files<S: Start>(
    rt: &HostRuntime,
    path: &str,
    start: S,
) -> Result<Connection<FileStore<FileFrom<S>>>, OpenFault>
    ensures opened { IfOk result (λ conn. HasCleanDisk (file_state conn) → IsOpened conn) }
    ensures found { IfOk result (λ conn. HasCleanDisk (file_state conn) → FindsIn (image_at S.Start) (file_state conn)) }
{
    let files = match sqlite_std_file::open(rt, path, start) {
        Ok(files) => files,
        Err(PathError::OutOfMemory) => return Err(OpenFault::Failed(Cause::Memory)),
        Err(PathError::Busy) => return Err(OpenFault::Busy),
        Err(PathError::Io(error)) if error.kind() == ErrorKind::OutOfMemory => {
            return Err(OpenFault::Failed(Cause::Memory));
        }
        Err(_) => return Err(OpenFault::Unopened),
    };
    let Ok(seed) = RandomState::new(rt) else {
        return Err(OpenFault::Unopened);
    };
    let mut options = Options::new(seed.hash_one(&0u8));
    options.checkpoint_frames = LOG_PAGES;
    match Connection::open_files(rt.alloc(), files, options) {
        Ok(conn) => Ok(conn),
        Err((error, _left)) => Err(open_fault_of(error)),
    }
}

// The records that the file at a path has without its log, if it has one.
fn read_logged(rt: &HostRuntime, path: &str, pair: Pair) -> Result<Option<Lone>, OpenFault> {
    if !pair.is_logged {
        return Ok(None);
    }
    match read_lone(rt, path) {
        Ok(lone) => Ok(lone),
        Err(_) => Err(OpenFault::Failed(Cause::Memory)),
    }
}

// rule: Opened history
/// Opens the history in the file at a path, or makes one in a new or empty file, and returns its records in order.
///
/// The file has a log beside it, whose name is the path and `-wal`: the two belong together. Once a call that changes the
/// records has succeeded, the file has them without its log, but for a checksum. `start` says what contracts suppose of the
/// files before; a program passes `Wary`, which syncs each commit twice.
///
/// Fails with `Parted` if the file is missing or empty and its log may have records, which an open would drop; then nothing is
/// opened, made or written. Fails with `Bare` if the file has no table, and isn't new: then nothing is made of it. Fails with
/// `Astray` if the records that are read with the log don't go on from those that the file has without it: the log is older,
/// or another file's. Then both stay as they are.
pub fn open_at<S: Start>(
    rt: &HostRuntime,
    path: &str,
    limit: u64,
    start: S,
) -> Result<(History<FileStore<FileFrom<S>>>, Vec<Record>), OpenFault>
    ensures known { IfOk result (λ opened. IsKnown opened.0 opened.1.items limit) }
    ensures opened { IfOk result (λ opened. HasCleanDisk (file_state opened.0.conn) → IsOpenedAt (image_at S.Start) opened.0) }
{
    let pair = check_parted(rt, path)?;
    let lone = read_logged(rt, path, pair)?;
    let conn = open_files(rt, path, start)?;
    let (history, records) = take_opened(rt.alloc(), conn, pair.is_new, limit)?;
    if let Some(lone) = &lone {
        check_log(rt.alloc(), lone, history.first, &records)?;
    }
    Ok((history, records))
}

/// A history in a file of the system.
///
/// Contracts see the records that it is known to hold, the number of the first one, how many bytes all may have and whether
/// calls still reach the disk, and nothing of the database. So whoever names this type proves nothing again of the types
/// below it. Its end closes the history: the database file then has all records, unless that fails.
pub struct FileHistory {
    history: History<FileStore<FileFrom<Wary>>>,
}

// The log is copied into the database file, which then has all records without it. If that fails the next open takes the
// two together, as after a crash.
impl Drop for FileHistory {
    fn drop(self) {
        let FileHistory { history } = self;
        drop(history.close());
    }
}

impl Model for FileHistory {
    ghost use Rattle.history.specs.Files.{FileLog, file_log_code};

    ghost Value = { FileLog };

    ghost coded = { file_log_code };

    ghost view = { λ h. record { first = h.history.first; kept = h.history.kept; limit = h.history.limit; is_live = h.history.is_live } };
}

impl FileHistory {
    // Makes a change. Each function that calls a history over files has the code of its database proved again, so both
    // changes are made here, and `first`, `next` and `unread` go by the fields.
    fn change(&mut self, alloc: Global, change: Change, bytes: &[u8]) -> Result<(), AppendFault>
        requires { IsNumbered change }
        ensures makes { Makes change bytes.now result self.old.first self.old.kept self.new.first self.new.kept }
        ensures full { (result ≡ Err Full) ↔ (IsTrue self.old.is_live × HasNoRoom change self.old.limit self.old.kept (length bytes.now)) }
        ensures reports { IfErr result (ReportsChange change self.old.is_live self.new.is_live) }
    {
        self.history.change(alloc, change, bytes)
    }
}

impl Records for FileHistory {
    ghost kept = { λ file. file.kept };

    ghost first = { λ file. file.first };

    ghost was_read = { λ _. ⊥ };

    ghost lasts = { λ _. true };

    fn first(&self) -> u64 {
        self.history.first
    }

    fn lasts(&self) -> bool {
        true
    }

    fn append(&mut self, alloc: Global, kind: Kind, bytes: &[u8]) -> Result<(), AppendFault>
        ensures appends { Appends (record_of kind bytes.now) result self.old.kept self.new.kept }
        ensures first { self.new.first ≡ self.old.first }
        ensures full { (result ≡ Err Full) ↔ (IsTrue self.old.is_live × (HasRoom self.old.limit self.old.kept (length bytes.now) → ⊥)) }
        ensures reports { IfErr result (Reports self.new.is_live) }
    {
        self.change(alloc, Change::Append(kind), bytes)
    }

    fn next(&mut self, _alloc: Global) -> Result<Option<Record>, ReadFault> {
        if self.history.is_live {
            Ok(None)
        } else {
            Err(ReadFault::Failed(Cause::Closed))
        }
    }

    fn unread(&mut self) -> bool {
        false
    }

    fn compact(&mut self, alloc: Global, number: u64, bytes: &[u8]) -> Result<(), AppendFault>
        requires { (1 ≤ number) × (number ≤ 2 ^ 53) }
        ensures compacts { Compacts (record_of Profile bytes.now) result self.old.kept self.new.kept }
        ensures first { Numbers number result self.old.first self.new.first }
        ensures full { (result ≡ Err Full) ↔ (IsTrue self.old.is_live × (self.old.limit < length bytes.now)) }
        ensures reports { IfErr result (ReportsCompaction self.old.is_live self.new.is_live) }
    {
        self.change(alloc, Change::Compact(number), bytes)
    }
}

/// Histories in files of the system, by their paths.
#[derive(Clone, Copy)]
pub struct HistoryFiles<'a> {
    /// What opens the files.
    pub rt: &'a HostRuntime,
}

impl Stores for HistoryFiles<'_> {
    type Kept = FileHistory;

    ghost use Rattle.std.specs.Prelude.{⊤};

    ghost found = { λ _ _ _ _. ⊤ };

    fn open_records(
        &self,
        path: &str,
        limit: u64,
    ) -> Result<(FileHistory, Vec<Record>), OpenFault> {
        let (history, records) = open_at(self.rt, path, limit, Wary)?;
        Ok((FileHistory { history }, records))
    }
}
