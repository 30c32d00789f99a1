// How much may be kept.

ghost use Rattle.std.specs.Prelude.{◌≡◌, ◌↔◌, ◌+◌, ◌<◌, IsTrue, MatchOption};
ghost use Rattle.kept_records.specs.Keeping.{HasRoom, bytes_in};

use crate::record::Record;

/// How many records a history may have.
pub const MAX_RECORDS: usize = 65536;

/// How many bytes all records may have together, unless another limit is set: 64 MiB.
pub const DEFAULT_LIMIT: u64 = 67108864;

// How many bytes are left of the limit, or `None` if the records have more.
fn bytes_left(records: &[Record], limit: u64) -> Option<u64>
    ensures { MatchOption result
        (limit < bytes_in records.now)
        (λ left. left + bytes_in records.now ≡ limit) }
{
    let mut left = limit;
    for record in records {
        left = left.checked_sub(record.bytes.len() as u64)?;
    }
    Some(left)
}

// rule: Limit of all records
/// Whether a record of so many bytes may be added to these records.
pub fn has_room(records: &[Record], limit: u64, bytes: usize) -> bool
    ensures { IsTrue result ↔ HasRoom limit records.now bytes }
{
    if records.len() >= MAX_RECORDS {
        return false;
    }
    match bytes_left(records, limit) {
        Some(left) => bytes as u64 <= left,
        None => false,
    }
}
