// The making and the opening of a history.

ghost use Rattle.std.specs.Prelude.{◌≡◌, ◌≢◌, ◌+◌, ◌<◌, ◌≤◌, ◌^◌, ◌⊎◌, [], All, false, true, IfErr, IfOk, Ok, length, IsTrue};
ghost use Rattle.kept_records.specs.Checksums.{checksum_from, checksums_from, no_checksum};
ghost use Rattle.kept_records.specs.declared.fault.OpenFault.TheVariants.{Foreign};
ghost use Rattle.sqlite.specs.Held.{state};
ghost use Rattle.sqlite.specs.State.{HasCleanDisk, Opens};
ghost use Rattle.history.specs.Holdings.{CrashLeaves, HasChecksum, Holds, IsBare, IsHistory};
ghost use Rattle.history.specs.Logs.{IsKnown, KeepsKnown};
ghost use Rattle.history.specs.Openings.{FindsOrMakes, IsRead};

use crate::causes::{cause_of, open_fault_of};
use crate::checksums::{checksums_of, count_checksums, wrong_checksum};
use crate::history::History;
use crate::marks::{marks_of, size_of};
use crate::reading::{first_of, read_rows};
use crate::schema::{is_empty, is_ours};
use crate::statements::{create_table, list};
use kept_records::{Cause, MAX_RECORDS, NO_CHECKSUM, OpenFault, Record};
use sqlite::{Alter, Connection, Row};
use std::alloc::Global;
use streams::Trace;

/// What rows say: the records, the number of the first one, and the checksum of the last one.
pub(crate) struct Listed {
    pub(crate) first: u64,
    pub(crate) kept: Vec<Record>,
    pub(crate) sum: [u8; 32],
}

// Looks whether the checksums of records are these, and returns the last one's.
fn check_sums(
    alloc: Global,
    rows: &[Row],
    first: u64,
    kept: &[Record],
) -> Result<[u8; 32], OpenFault>
    requires { first + length kept.now < 2 ^ 63 }
    ensures checked { IfOk result (λ _. All (HasChecksum first (checksums_from first no_checksum kept.now)) rows.now) }
    ensures last { IfOk result (λ sum. sum ≡ checksum_from first no_checksum kept.now) }
{
    let (sums, last) = match checksums_of(alloc, first, kept) {
        Ok(made) => made,
        Err(_) => return Err(OpenFault::Failed(Cause::Memory)),
    };
    match wrong_checksum(rows, first, &sums) {
        Some(number) => Err(OpenFault::Damaged(number)),
        None => Ok(last),
    }
}

// The records of rows that were listed, the number of the first, and the checksum of the last. Those of checksums come first.
fn read_listed(alloc: Global, rows: &[Row]) -> Result<Listed, OpenFault>
    ensures { IfOk result (λ read. IsRead rows.now read.first read.kept.items read.sum) }
{
    let (sums, rest) = rows.split_at(count_checksums(rows));
    if rest.len() > MAX_RECORDS {
        return Err(OpenFault::Foreign);
    }
    let first = first_of(rest);
    let kept = match read_rows(alloc, rest, first) {
        Ok(Some(kept)) => kept,
        Ok(None) => return Err(OpenFault::Foreign),
        Err(_) => return Err(OpenFault::Failed(Cause::Memory)),
    };
    match check_sums(alloc, sums, first, &kept) {
        Ok(sum) => Ok(Listed { first, kept, sum }),
        Err(fault) => Err(fault),
    }
}

/// Returns the records of a database that was just opened, the number of the first and the checksum of the last.
pub(crate) fn read_all<S: Alter>(
    alloc: Global,
    conn: &mut Connection<S>,
) -> Result<Listed, OpenFault>
    requires opens { HasCleanDisk (state S.Store conn.old) → Opens (state S.Store conn.old) }
    ensures numbered { IfOk result (λ read. (1 ≤ read.first) × (read.first ≤ 2 ^ 53) × (length read.kept.items ≤ 65536)) }
    ensures summed { IfOk result (λ read. read.sum ≡ checksum_from read.first no_checksum read.kept.items) }
    ensures holds { HasCleanDisk (state S.Store conn.new)
        → IfOk result (λ read. IsHistory (state S.Store conn.new) read.first read.kept.items) }
    ensures same { HasCleanDisk (state S.Store conn.new)
        → IfOk result (λ _. (state S.Store conn.new).committed ≡ (state S.Store conn.old).committed) }
    ensures leaves { CrashLeaves (state S.Store conn.old) (state S.Store conn.new) (λ _. ⊥) }
{
    if !is_ours(conn.schema()) {
        return Err(OpenFault::Foreign);
    }
    match list(conn) {
        Ok(rows) => read_listed(alloc, &rows),
        Err(error) => Err(open_fault_of(error)),
    }
}

impl<S: Alter> History<S> {
    /// Makes the history of no records in an empty database. The first one will have the number 1.
    ///
    /// If it fails, the connection is returned.
    pub fn create(conn: Connection<S>, limit: u64) -> Result<History<S>, (Cause, Connection<S>)>
        requires bare { HasCleanDisk (state S.Store conn) → IsBare (state S.Store conn) }
        ensures none { IfOk result (λ made. IsKnown made [] limit) }
        ensures first { IfOk result (λ made. made.first ≡ 1) }
        ensures keeps { IfOk result (λ made. HasCleanDisk (state S.Store made.conn) → KeepsKnown S.Store made) }
        ensures clean { IfOk result (λ made. HasCleanDisk (state S.Store made.conn) → HasCleanDisk (state S.Store conn)) }

        ensures err { IfErr result (λ left. CrashLeaves (state S.Store conn) (state S.Store left.1) (λ db. Holds db 1 [])) }
    {
        let mut conn = conn;
        match create_table(&mut conn) {
            Ok(_) => Ok(History {
                conn,
                first: 1,
                len: 0,
                size: 0,
                sum: NO_CHECKSUM,
                limit,
                is_live: true,
                marks: Trace::new(),
            }),
            Err(error) => Err((cause_of(error), conn)),
        }
    }

    // rule: Opened history
    /// Takes the history that a database holds, and returns its records in order.
    ///
    /// Fails with `Foreign` if the schema is another one, or the records aren't numbered in order, have another kind, or
    /// are more than 65536; and with `Damaged`, which names a record, if the checksum of one is another one than its own. The
    /// connection is returned, and nothing was written.
    pub fn open_over(
        alloc: Global,
        conn: Connection<S>,
        limit: u64,
    ) -> Result<(History<S>, Vec<Record>), (OpenFault, Connection<S>)>
        requires opens { HasCleanDisk (state S.Store conn) → Opens (state S.Store conn) }
        ensures known { IfOk result (λ opened. IsKnown opened.0 opened.1.items limit) }
        ensures keeps { IfOk result (λ opened. HasCleanDisk (state S.Store opened.0.conn) → KeepsKnown S.Store opened.0) }
        ensures same { IfOk result (λ opened. HasCleanDisk (state S.Store opened.0.conn)
            → (state S.Store opened.0.conn).committed ≡ (state S.Store conn).committed) }
        ensures clean { IfOk result (λ opened. HasCleanDisk (state S.Store opened.0.conn) → HasCleanDisk (state S.Store conn)) }

        ensures err { IfErr result (λ left. CrashLeaves (state S.Store conn) (state S.Store left.1) (λ _. ⊥)) }
    {
        let mut conn = conn;
        let Listed { first, kept, sum } = match read_all(alloc, &mut conn) {
            Ok(read) => read,
            Err(fault) => return Err((fault, conn)),
        };
        let Some(size) = size_of(&kept) else {
            return Err((OpenFault::Foreign, conn));
        };
        let history = History {
            conn,
            first,
            len: kept.len() as u32,
            size,
            sum,
            limit,
            is_live: true,
            marks: marks_of(&kept),
        };
        Ok((history, kept))
    }

    // rule: Opened history
    /// Takes the history that a database holds, or makes one if the database has no table, and returns its records.
    ///
    /// Fails as `open_over` and `create` do.
    pub fn open_or_create(
        alloc: Global,
        conn: Connection<S>,
        limit: u64,
    ) -> Result<(History<S>, Vec<Record>), (OpenFault, Connection<S>)>
        requires opens { HasCleanDisk (state S.Store conn) → Opens (state S.Store conn) }
        ensures known { IfOk result (λ opened. IsKnown opened.0 opened.1.items limit) }
        ensures keeps { IfOk result (λ opened. HasCleanDisk (state S.Store opened.0.conn) → KeepsKnown S.Store opened.0) }
        ensures finds { IfOk result (λ opened. HasCleanDisk (state S.Store opened.0.conn) → FindsOrMakes S.Store conn opened.0) }
        ensures clean { IfOk result (λ opened. HasCleanDisk (state S.Store opened.0.conn) → HasCleanDisk (state S.Store conn)) }

        ensures err { IfErr result (λ left. CrashLeaves (state S.Store conn) (state S.Store left.1) (λ db. Holds db 1 [])) }
    {
        if !is_empty(conn.schema()) {
            return History::open_over(alloc, conn, limit);
        }
        match History::create(conn, limit) {
            Ok(history) => Ok((history, Vec::new(alloc))),
            Err((cause, conn)) => Err((OpenFault::Failed(cause), conn)),
        }
    }
}

/// Takes the history of a database, or makes one in a new database.
///
/// Fails with `Bare` if the database has no table and isn't new, and as `open_or_create` does.
pub(crate) fn take_opened<S: Alter + Drop>(
    alloc: Global,
    conn: Connection<S>,
    is_new: bool,
    limit: u64,
) -> Result<(History<S>, Vec<Record>), OpenFault>
    requires { HasCleanDisk (state S.Store conn) → Opens (state S.Store conn) }
    ensures known { IfOk result (λ taken. IsKnown taken.0 taken.1.items limit) }
    ensures taken { IfOk result (λ taken. HasCleanDisk (state S.Store taken.0.conn)
        → HasCleanDisk (state S.Store conn) × FindsOrMakes S.Store conn taken.0 × KeepsKnown S.Store taken.0) }
    ensures finds { is_new ≡ false → IfOk result (λ taken. HasCleanDisk (state S.Store taken.0.conn)
        → (state S.Store taken.0.conn).committed ≡ (state S.Store conn).committed) }
{
    if is_new {
        return match History::open_or_create(alloc, conn, limit) {
            Ok(taken) => Ok(taken),
            Err((fault, _conn)) => Err(fault),
        };
    }
    if is_empty(conn.schema()) {
        return Err(OpenFault::Bare);
    }
    match History::open_over(alloc, conn, limit) {
        Ok(taken) => Ok(taken),
        Err((fault, _conn)) => Err(fault),
    }
}
