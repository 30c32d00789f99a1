// Files in memory, on a disk that stops at some call, and what is done with a history in them.

ghost use Rattle.std.specs.Prelude.{IfSome};
ghost use Rattle.sqlite.specs.Files.{file_state};
ghost use Rattle.sqlite.specs.Held.{state};
ghost use Rattle.sqlite.specs.State.{HasCleanDisk, Opens};

use history::History;
use kept_records::{Record, Records};
use sqlite::{Alter, Connection, FileStore, Files, Options};
use sqlite_disk::{Crash, Fuse, Memory};
use std::alloc::Global;

/// Two files of a database in memory, which stop after so many calls each.
pub(crate) struct Disk {
    files: Files<Fuse<Memory>>,
}

// Written out, so that no caller proves again how each part is dropped.
impl Drop for Disk {
    fn drop(self) {
        let Disk { files: _ } = self;
    }
}

impl Disk {
    /// Two empty files.
    pub(crate) fn empty(alloc: Global, log_calls: u64, db_calls: u64) -> Disk {
        Disk {
            files: Files {
                log: Fuse::new(Memory::new(alloc), log_calls),
                db: Fuse::new(Memory::new(alloc), db_calls),
            },
        }
    }
}

/// What is done with the records of a history.
pub(crate) trait Life {
    /// Makes its calls on the records, of which the open found these.
    fn live<R: Records>(&mut self, alloc: Global, records: &mut R, found: &[Record]);

    /// Notes whether the history's calls still reach the disk.
    fn end(&mut self, _is_live: bool) {}
}

// Opens the database in two files.
fn connect<D: Crash + Drop>(alloc: Global, files: Files<D>) -> Option<Connection<FileStore<D>>>
    ensures { IfSome result (λ conn. HasCleanDisk (file_state conn) → Opens (file_state conn)) }
{
    if !files.may_be_used() {
        return None;
    }
    match Connection::open_files(alloc, files, Options::new(7)) {
        Ok(conn) => Some(conn),
        Err(_) => None,
    }
}

// What is left of a history that was lived with.
#[derive(Drop)]
enum Left<S: Alter> {
    // The store of a history that is there no more.
    Store(S),
    // The history.
    History(History<S>),
}

// Opens the history of a database, or makes one, whose records may have 10 bytes together, and lives with it.
fn live_over<S: Alter + Drop, L: Life>(
    alloc: Global,
    conn: Connection<S>,
    life: &mut L,
    crashes: bool,
) -> Option<Left<S>>
    requires { HasCleanDisk (state S.Store conn) → Opens (state S.Store conn) }
{
    match History::open_or_create(alloc, conn, 10) {
        Ok((history, found)) => {
            let mut history = history;
            life.live(alloc, &mut history, &found);
            life.end(history.is_live());
            if crashes {
                Some(Left::Store(history.into_connection().into_store()))
            } else {
                Some(Left::History(history))
            }
        }
        Err((_fault, _conn)) => None,
    }
}

// Files as a crash leaves them.
fn crashed<D: Crash>(files: Files<D>) -> Files<D> {
    let mut files = files;
    files.log.crash();
    files.db.crash();
    files
}

// Lives with the history in two files; then a crash, or a close. One function does both, since each that calls a history
// over files has the code of its database proved again.
fn live_in<D: Crash + Drop, L: Life>(
    alloc: Global,
    files: Files<D>,
    life: &mut L,
    crashes: bool,
) -> Option<Files<D>> {
    let conn = connect(alloc, files)?;
    match live_over(alloc, conn, life, crashes)? {
        Left::Store(store) => Some(crashed(store.close())),
        Left::History(history) => history.close().ok(),
    }
}

impl Disk {
    /// Opens the history on the disk, or makes one, whose records may have 10 bytes together, and lives with it; then gives
    /// back the disk, as a crash leaves it. `None` if there is no history, and nothing was done.
    pub(crate) fn crash_after<L: Life>(self, alloc: Global, life: &mut L) -> Option<Disk> {
        let Disk { files } = self;
        let files = live_in(alloc, files, life, true)?;
        Some(Disk { files })
    }

    /// The same, but closes the history. `None` also if that fails.
    pub(crate) fn close_after<L: Life>(self, alloc: Global, life: &mut L) -> Option<Disk> {
        let Disk { files } = self;
        let files = live_in(alloc, files, life, false)?;
        Some(Disk { files })
    }
}
