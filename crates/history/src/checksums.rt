// The checksums of the table.

ghost use Rattle.std.specs.Prelude.{◌≡◌, ◌+◌, ◌≤◌, ◌<◌, ◌^◌, All, IfNone, IfOk, IsTrue, length};
ghost use Rattle.kept_records.specs.Checksums.{checksum_from, checksums_from, no_checksum};
ghost use Rattle.history.specs.Holdings.{HasChecksum};
ghost use Rattle.history.specs.Tables.{checksum_key, checksum_row};

use kept_records::{NO_CHECKSUM, Record, checksum_of};
use sqlite::Row;
use sqlite::types::ValueRef;
use std::alloc::{AllocError, Global};

// rule: Checksum of a record
/// Returns the checksums of records that are numbered from this number on, and the last one.
pub(crate) fn checksums_of(
    alloc: Global,
    first: u64,
    kept: &[Record],
) -> Result<(Vec<[u8; 32]>, [u8; 32]), AllocError>
    requires { first + length kept.now < 2 ^ 63 }
    ensures all { IfOk result (λ made. made.0.items ≡ checksums_from first no_checksum kept.now) }
    ensures last { IfOk result (λ made. made.1 ≡ checksum_from first no_checksum kept.now) }
{
    let mut sums = Vec::with_capacity(alloc, kept.len())?;
    let mut last = NO_CHECKSUM;
    for (at, it) in kept.iter().enumerate() {
        last = checksum_of(first + at as u64, it.kind, it.bytes.as_slice(), &last);
        sums.push(last)?;
    }
    Ok((sums, last))
}

// The number of the record that a row has the checksum of, or `None` if it has a number of its own.
fn number_of(row: &Row) -> Option<u64> {
    match row.get_ref(0) {
        Ok(ValueRef::Int(key)) if key < 0 => Some(key.unsigned_abs()),
        _ => None,
    }
}

/// Returns how many rows at the front are those of checksums.
pub(crate) fn count_checksums(rows: &[Row]) -> usize
    ensures { result ≤ length rows.now }
{
    rows.iter()
        .position(|row| number_of(row).is_none())
        .unwrap_or(rows.len())
}

fn is_key_of(key: i64, number: u64) -> bool
    requires { number < 2 ^ 63 }
    ensures { IsTrue result → key ≡ checksum_key number }
{
    key == -(number as i64)
}

fn is_sum(bytes: &[u8], sum: &[u8; 32]) -> bool
    ensures { IsTrue result → bytes.now ≡ sum.now }
{
    bytes == sum.as_slice()
}

// Whether a row is the checksum of the record of a number.
fn is_checksum_of(row: &Row, number: u64, sum: &[u8; 32]) -> bool
    requires { number < 2 ^ 63 }
    ensures { IsTrue result → row.now ≡ checksum_row number sum.now }
{
    if row.column_count() != 3 {
        return false;
    }
    let (Ok(ValueRef::Int(key)), Ok(ValueRef::Int(kind)), Ok(ValueRef::Blob(bytes))) = (
        row.get_ref(0),
        row.get_ref(1),
        row.get_ref(2),
    ) else {
        return false;
    };
    is_key_of(key, number) && kind == 0 && is_sum(bytes, sum)
}

// Whether a row has one of these checksums.
fn has_checksum(row: &Row, first: u64, sums: &[[u8; 32]]) -> bool
    requires { first + length sums.now < 2 ^ 63 }
    ensures { IsTrue result → HasChecksum first sums.now row.now }
{
    let Some(number) = number_of(row) else {
        return false;
    };
    if number < first {
        return false;
    }
    match sums.get((number - first) as usize) {
        Some(sum) => is_checksum_of(row, number, sum),
        None => false,
    }
}

// rule: Checksum of a record
/// Returns the number of the first record whose checksum is none of these, of records that are numbered from this number on.
///
/// The rows come with the last record's first, as the table has them.
pub(crate) fn wrong_checksum(rows: &[Row], first: u64, sums: &[[u8; 32]]) -> Option<u64>
    requires { first + length sums.now < 2 ^ 63 }
    ensures { IfNone result (All (HasChecksum first sums.now) rows.now) }
{
    let mut wrong = None;
    for row in rows {
        if !has_checksum(row, first, sums) {
            wrong = Some(number_of(row).unwrap_or(first));
        }
    }
    wrong
}
