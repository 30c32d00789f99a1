// The rows of the table as records.

ghost use Rattle.std.specs.Prelude.{◌≡◌, ◌+◌, ◌<◌, ◌≤◌, ◌^◌, [], IfOk, IfSome, length, pos};
ghost use Rattle.kept_records.specs.Keeping.{number_of};
ghost use Rattle.history.specs.Tables.{entries_from, entry_of};

use kept_records::{Kind, Record};
use sqlite::Row;
use sqlite::types::ValueRef;
use std::alloc::{AllocError, Global};

fn kind_of(number: i64) -> Option<Kind>
    ensures { IfSome result (λ kind. number ≡ pos (number_of kind)) }
{
    match number {
        1 => Some(Kind::Profile),
        2 => Some(Kind::Script),
        3 => Some(Kind::Raise),
        _ => None,
    }
}

// The record of a row, if the row has this number.
fn read_row(alloc: Global, row: &Row, number: u64) -> Result<Option<Record>, AllocError>
    requires { number < 2 ^ 63 }
    ensures { IfOk result (λ found. IfSome found (λ kept. row.now ≡ entry_of number kept)) }
{
    if row.column_count() != 3 {
        return Ok(None);
    }
    let (Ok(ValueRef::Int(at)), Ok(ValueRef::Int(kind)), Ok(ValueRef::Blob(bytes))) = (
        row.get_ref(0),
        row.get_ref(1),
        row.get_ref(2),
    ) else {
        return Ok(None);
    };
    if at != number as i64 {
        return Ok(None);
    }
    match kind_of(kind) {
        Some(kind) => Ok(Some(Record::copy_of(alloc, kind, bytes)?)),
        None => Ok(None),
    }
}

// rule: Records of a database
/// Returns the records of rows, if these are numbered in order from this number on.
pub(crate) fn read_rows(
    alloc: Global,
    rows: &[Row],
    first: u64,
) -> Result<Option<Vec<Record>>, AllocError>
    requires { first + length rows.now < 2 ^ 63 }
    ensures { IfOk result (λ found. IfSome found (λ kept. rows.now ≡ entries_from first kept.items)) }
{
    let mut kept = Vec::with_capacity(alloc, rows.len())?;
    for (at, row) in rows.iter().enumerate() {
        let Some(next) = read_row(alloc, row, first + at as u64)? else {
            return Ok(None);
        };
        kept.push(next)?;
    }
    Ok(Some(kept))
}

/// Returns the number of the first row, from 1 to 2^53, or 1 if it has none of these.
pub(crate) fn first_of(rows: &[Row]) -> u64
    ensures { (1 ≤ result) × (result ≤ 2 ^ 53) }
{
    let Some(row) = rows.first() else {
        return 1;
    };
    match row.get::<u64>(0) {
        Ok(number) if 1 <= number && number <= 1 << 53 => number,
        _ => 1,
    }
}
