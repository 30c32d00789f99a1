// One transaction that replaces all records by one.

ghost use Rattle.std.specs.Prelude.{◌≡◌, ◌<◌, ◌≤◌, ◌^◌, ◌∷◌, [], OnOk, true};
ghost use Rattle.kept_records.specs.Checksums.{checksum_of, no_checksum};
ghost use Rattle.kept_records.specs.Keeping.{record_of};
ghost use Rattle.kept_records.specs.declared.record.Kind.TheVariants.{Profile};
ghost use Rattle.sqlite.specs.Held.{state};
ghost use Rattle.sqlite.specs.State.{HasCleanDisk};
ghost use Rattle.history.specs.Holdings.{CrashLeaves, Holds, IsHistory, IsInside};
ghost use Rattle.history.specs.Tables.{history_schema};

use crate::sealing::seal;
use crate::statements::{begin, commit, create_table, drop_table, insert};
use kept_records::Kind;
use sqlite::{Alter, Connection, Error};

// Makes the table anew, with one record, in a transaction.
fn refill<S: Alter>(conn: &mut Connection<S>, number: u64, bytes: &[u8]) -> Result<(), Error>
    requires fits { number < 2 ^ 63 }
    requires within { HasCleanDisk (state S.Store conn.old) → (state S.Store conn.old).in_transaction ≡ true }
    requires ready { HasCleanDisk (state S.Store conn.old) → (state S.Store conn.old).now.schema ≡ history_schema }
    ensures inside { HasCleanDisk (state S.Store conn.new)
        → OnOk result (IsInside (state S.Store conn.new) number (record_of Profile bytes.now ∷ [])) }
    ensures leaves { CrashLeaves (state S.Store conn.old) (state S.Store conn.new) (λ _. ⊥) }
{
    drop_table(conn)?;
    create_table(conn)?;
    insert(conn, number, Kind::Profile, bytes)?;
    Ok(())
}

// rule: Compaction
/// Replaces all records by a profile with this number and this checksum.
pub(crate) fn replace<S: Alter>(
    conn: &mut Connection<S>,
    number: u64,
    bytes: &[u8],
    sum: &[u8; 32],
) -> Result<(), Error>
    requires fits { (1 ≤ number) × (number < 2 ^ 63) }
    requires sum { sum.now ≡ checksum_of number (record_of Profile bytes.now) no_checksum }
    requires ready { HasCleanDisk (state S.Store conn.old) → (state S.Store conn.old).now.schema ≡ history_schema }
    ensures done { HasCleanDisk (state S.Store conn.new)
        → OnOk result (IsHistory (state S.Store conn.new) number (record_of Profile bytes.now ∷ [])) }
    ensures leaves { CrashLeaves (state S.Store conn.old) (state S.Store conn.new)
        (λ db. Holds db number (record_of Profile bytes.now ∷ [])) }
{
    begin(conn)?;
    refill(conn, number, bytes)?;
    commit(conn)?;
    seal(conn, number, sum)
}
