// The checksum after a record.

ghost use Rattle.std.specs.Prelude.{◌≡◌, ◌<◌, ◌≤◌, ◌^◌, ℕ, List, OnOk};
ghost use Rattle.kept_records.specs.Checksums.{checksums_from, no_checksum};
ghost use Rattle.kept_records.specs.declared.record.Record.{Record};
ghost use Rattle.sqlite.specs.Held.{state};
ghost use Rattle.sqlite.specs.State.{HasCleanDisk};
ghost use Rattle.history.specs.Holdings.{CrashLeaves, HasChecksum, Holds, IsHistory};
ghost use Rattle.history.specs.Tables.{checksum_row, history_schema};

use crate::statements::{insert_checksum, probe};
use sqlite::{Alter, Connection, Error};

// rule: Checksum of a record
/// Adds the checksum of the last record, in a transaction of its own.
///
/// Before a transaction the log of an earlier one may be copied into the database file, which then has the record without
/// the log. If the checksum can't be added and the connection stays open, the records are as before; it fails only with a
/// connection that is closed.
pub(crate) fn seal<S: Alter>(
    conn: &mut Connection<S>,
    number: u64,
    sum: &[u8; 32],
) -> Result<(), Error>
    requires fits { (1 ≤ number) × (number < 2 ^ 63) }
    requires ready { HasCleanDisk (state S.Store conn.old) → (state S.Store conn.old).now.schema ≡ history_schema }
    ensures keeps { HasCleanDisk (state S.Store conn.new) → (first : ℕ) → (kept : List Record)
        → HasChecksum first (checksums_from first no_checksum kept) (checksum_row number sum.now)
        → IsHistory (state S.Store conn.old) first kept → OnOk result (IsHistory (state S.Store conn.new) first kept) }
    ensures leaves { CrashLeaves (state S.Store conn.old) (state S.Store conn.new) (λ db. (first : ℕ) → (kept : List Record)
        → HasChecksum first (checksums_from first no_checksum kept) (checksum_row number sum.now)
        → Holds (state S.Store conn.old).now.trees first kept → Holds db first kept) }
{
    match insert_checksum(conn, number, sum) {
        Ok(_) => Ok(()),
        Err(error) => { if probe(conn) { Ok(()) } else { Err(error) } }
    }
}
