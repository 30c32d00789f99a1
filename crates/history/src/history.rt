// The records of a database, what is known of them, and the end of a history.

ghost use Rattle.std.specs.Prelude.{◌≡◌, IfOk, IsTrue};
ghost use Rattle.history.specs.Openings.{IsClosed};

use crate::causes::cause_of;
use crate::marks::Mark;
use kept_records::Cause;
use sqlite::{Alter, Connection, FileStore, Files};
use sqlite_disk::Disk;
use std::marker::Model;
use streams::Trace;

/// Records in a database, which are committed before `append` returns.
///
/// Contracts see its connection, the records that it is known to hold, the number of the first one, how many bytes all may
/// have, and whether its calls still reach the disk.
pub struct History<S: Alter> {
    pub(crate) conn: Connection<S>,
    pub(crate) first: u64,
    pub(crate) len: u32,
    pub(crate) size: u64,
    pub(crate) sum: [u8; 32],
    pub(crate) limit: u64,
    pub(crate) is_live: bool,
    pub(crate) marks: Trace<Mark>,
}

// Written out, so that no caller proves again how each part is dropped.
impl<S: Alter + Drop> Drop for History<S> {
    fn drop(self) {
        let History {
            conn: _,
            first: _,
            len: _,
            size: _,
            sum: _,
            limit: _,
            is_live: _,
            marks: _,
        } = self;
    }
}

impl<S: Alter> Model for History<S> {
    ghost use Rattle.history.specs.Logs.{IsLog, Log, log_code};

    ghost Value = { Log S };

    ghost coded = { log_code S.code };

    ghost view = { λ h. record { conn = h.conn; first = h.first; kept = h.marks; limit = h.limit; is_live = h.is_live } };

    ghost invariant = { λ h. IsLog S.Store h.conn h.first h.len h.size h.sum h.marks h.is_live };
}

impl<S: Alter + Drop> History<S> {
    /// Gives the connection back.
    pub fn into_connection(self) -> Connection<S>
        ensures { result ≡ self.conn }
    {
        let History {
            conn,
            first: _,
            len: _,
            size: _,
            sum: _,
            limit: _,
            is_live: _,
            marks: _,
        } = self;
        conn
    }
}

impl<D: Disk + Drop> History<FileStore<D>> {
    // rule: Closed history
    /// Copies the log into the database file, and gives both back.
    ///
    /// If that fails the files are closed as they are; the next open takes the two together.
    pub fn close(self) -> Result<Files<D>, Cause>
        ensures kept { IfOk result (IsClosed self) }
        ensures usable { IfOk result (λ files. IsTrue (D.Disk.is_usable files.log) × IsTrue (D.Disk.is_usable files.db)) }
    {
        // By its fields, since a call at the type of the store has the code of that proved again.
        let History {
            conn,
            first: _,
            len: _,
            size: _,
            sum: _,
            limit: _,
            is_live: _,
            marks: _,
        } = self;
        match conn.close_files() {
            Ok(files) => Ok(files),
            Err((error, store)) => {
                drop(store.close());
                Err(cause_of(error))
            }
        }
    }
}
