// The statements on the database, each with what it does.

ghost use Rattle.std.specs.Prelude.{◌≡◌, ◌<◌, ◌++◌, ◌∷◌, ◌^◌, [], IfOk, IsTrue, OnErr, OnOk, false, map, pos, true};
ghost use Rattle.std.specs.List.Sorted.{IsPermutation};
ghost use Rattle.kept_records.specs.Keeping.{record_of};
ghost use Rattle.sqlite.specs.Held.{state};
ghost use Rattle.sqlite.specs.State.{HasCleanDisk, IsUnchanged, Shows};
ghost use Rattle.sqlite.specs.Value.{owned};
ghost use Rattle.sqlite.specs.declared.types.Value.TheVariants.{Int};
ghost use Rattle.sqlite_trees.specs.Tree.{put_row};
ghost use Rattle.history.specs.Holdings.{CrashLeaves, IsAsBefore, IsNext, Leads};
ghost use Rattle.history.specs.Tables.{checksum_key, empty_schema, history_schema, shown_row, stored_cells, stored_row};

use kept_records::Kind;
use sqlite::types::ValueRef;
use sqlite::{Alter, Connection, Error, Row};

/// Makes the table in a database without one.
pub(crate) fn create_table<S: Alter>(conn: &mut Connection<S>) -> Result<usize, Error>
    requires bare { HasCleanDisk (state S.Store conn.old) → (state S.Store conn.old).now.schema ≡ empty_schema }
    ensures made { HasCleanDisk (state S.Store conn.new)
        → OnOk result (Leads (state S.Store conn.old) (state S.Store conn.new) history_schema) }
    ensures empty { HasCleanDisk (state S.Store conn.new) → OnOk result ((state S.Store conn.new).now.trees 0 ≡ []) }
    ensures leaves { CrashLeaves (state S.Store conn.old) (state S.Store conn.new)
        (λ db. ((state S.Store conn.old).in_transaction ≡ false) × (db 0 ≡ [])) }
{
    conn.execute(
        "CREATE TABLE record (number INTEGER PRIMARY KEY, kind INTEGER NOT NULL, bytes BLOB NOT NULL) STRICT",
        &[],
    )
}

/// Drops the table.
pub(crate) fn drop_table<S: Alter>(conn: &mut Connection<S>) -> Result<usize, Error>
    requires ready { HasCleanDisk (state S.Store conn.old) → (state S.Store conn.old).now.schema ≡ history_schema }
    ensures dropped { HasCleanDisk (state S.Store conn.new)
        → OnOk result (Leads (state S.Store conn.old) (state S.Store conn.new) empty_schema) }
    ensures leaves { CrashLeaves (state S.Store conn.old) (state S.Store conn.new)
        (λ _. (state S.Store conn.old).in_transaction ≡ false) }
{
    conn.execute("DROP TABLE record", &[])
}

// A number as a parameter.
fn number_value<'a>(number: u64) -> ValueRef<'a>
    requires { number < 2 ^ 63 }
    ensures { owned result ≡ Int (pos number) }
{
    ValueRef::Int(number as i64)
}

// The key of a checksum as a parameter.
fn key_value<'a>(number: u64) -> ValueRef<'a>
    requires { number < 2 ^ 63 }
    ensures { owned result ≡ Int (checksum_key number) }
{
    ValueRef::Int(-(number as i64))
}

/// Adds a record with the next number.
pub(crate) fn insert<S: Alter>(
    conn: &mut Connection<S>,
    number: u64,
    kind: Kind,
    bytes: &[u8],
) -> Result<usize, Error>
    requires fits { number < 2 ^ 63 }
    requires ready { HasCleanDisk (state S.Store conn.old) → (state S.Store conn.old).now.schema ≡ history_schema }
    requires next { HasCleanDisk (state S.Store conn.old) → IsNext (state S.Store conn.old).now.trees number }
    ensures made { HasCleanDisk (state S.Store conn.new)
        → OnOk result (Leads (state S.Store conn.old) (state S.Store conn.new) history_schema) }
    ensures added { HasCleanDisk (state S.Store conn.new) → OnOk result ((state S.Store conn.new).now.trees 0
        ≡ (state S.Store conn.old).now.trees 0 ++ stored_row number (record_of kind bytes.now) ∷ []) }
    ensures failed { HasCleanDisk (state S.Store conn.new)
        → OnErr result (IsAsBefore (state S.Store conn.old) (state S.Store conn.new)) }
    ensures leaves { CrashLeaves (state S.Store conn.old) (state S.Store conn.new)
        (λ db. ((state S.Store conn.old).in_transaction ≡ false)
        × (db 0 ≡ (state S.Store conn.old).now.trees 0 ++ stored_row number (record_of kind bytes.now) ∷ [])) }
{
    let number = number_value(number);
    let kind = number_value(u64::from(kind.number()));
    conn.execute(
        "INSERT INTO record (number, kind, bytes) VALUES (?1, ?2, ?3)",
        &[number, kind, ValueRef::Blob(bytes)],
    )
}

// rule: Checksum of a record
/// Adds the checksum of the record of a number.
pub(crate) fn insert_checksum<S: Alter>(
    conn: &mut Connection<S>,
    number: u64,
    sum: &[u8; 32],
) -> Result<usize, Error>
    requires fits { number < 2 ^ 63 }
    requires ready { HasCleanDisk (state S.Store conn.old) → (state S.Store conn.old).now.schema ≡ history_schema }
    ensures made { HasCleanDisk (state S.Store conn.new)
        → OnOk result (Leads (state S.Store conn.old) (state S.Store conn.new) history_schema) }
    ensures put { HasCleanDisk (state S.Store conn.new) → OnOk result ((state S.Store conn.new).now.trees 0
        ≡ put_row (stored_cells (checksum_key number) 0 sum.now) ((state S.Store conn.old).now.trees 0)) }
    ensures failed { HasCleanDisk (state S.Store conn.new)
        → OnErr result (IsAsBefore (state S.Store conn.old) (state S.Store conn.new)) }
    ensures leaves { CrashLeaves (state S.Store conn.old) (state S.Store conn.new)
        (λ db. ((state S.Store conn.old).in_transaction ≡ false)
        × (db 0 ≡ put_row (stored_cells (checksum_key number) 0 sum.now) ((state S.Store conn.old).now.trees 0))) }
{
    let key = key_value(number);
    let kind = number_value(0);
    conn.execute(
        "INSERT INTO record (number, kind, bytes) VALUES (?1, ?2, ?3)",
        &[key, kind, ValueRef::Blob(sum)],
    )
}

/// Returns the number, the kind and the bytes of each record, in no order that is promised.
pub(crate) fn list<S: Alter>(conn: &mut Connection<S>) -> Result<Vec<Row>, Error>
    requires ready { HasCleanDisk (state S.Store conn.old) → (state S.Store conn.old).now.schema ≡ history_schema }
    ensures rows { HasCleanDisk (state S.Store conn.new)
        → IfOk result (λ rows. IsPermutation (map shown_row ((state S.Store conn.old).now.trees 0)) rows.items) }
    ensures same { HasCleanDisk (state S.Store conn.new)
        → OnOk result (IsUnchanged (state S.Store conn.old) (state S.Store conn.new)) }
    ensures leaves { CrashLeaves (state S.Store conn.old) (state S.Store conn.new) (λ _. ⊥) }
{
    conn.query_all("SELECT number, kind, bytes FROM record", &[])
}

/// Whether the connection is open, by a query of no table.
pub(crate) fn probe<S: Alter>(conn: &mut Connection<S>) -> bool
    ensures same { HasCleanDisk (state S.Store conn.new) → IsTrue result
        → IsUnchanged (state S.Store conn.old) (state S.Store conn.new) }
    ensures leaves { CrashLeaves (state S.Store conn.old) (state S.Store conn.new) (λ _. ⊥) }
{
    conn.query_row("SELECT 1", &[]).is_ok()
}

/// Begins a transaction.
pub(crate) fn begin<S: Alter>(conn: &mut Connection<S>) -> Result<usize, Error>
    ensures begun { HasCleanDisk (state S.Store conn.new) → OnOk result (Shows (state S.Store conn.old)
        (state S.Store conn.new) (state S.Store conn.old).now (state S.Store conn.old).committed true) }
    ensures leaves { CrashLeaves (state S.Store conn.old) (state S.Store conn.new) (λ _. ⊥) }
{
    conn.execute("BEGIN", &[])
}

/// Commits the transaction.
pub(crate) fn commit<S: Alter>(conn: &mut Connection<S>) -> Result<usize, Error>
    ensures done { HasCleanDisk (state S.Store conn.new) → OnOk result (Shows (state S.Store conn.old)
        (state S.Store conn.new) (state S.Store conn.old).now (state S.Store conn.old).now false) }
    ensures leaves { CrashLeaves (state S.Store conn.old) (state S.Store conn.new)
        (λ db. db ≡ (state S.Store conn.old).now.trees) }
{
    conn.execute("COMMIT", &[])
}
