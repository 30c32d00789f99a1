// Checksums of records.

ghost use Rattle.std.specs.Prelude.{◌≡◌, ◌≤◌};
ghost use Rattle.kept_records.specs.Checksums.{checksum_of, no_checksum};
ghost use Rattle.kept_records.specs.Keeping.{record_of};

use crate::record::Kind;
use sha2::{Digest, Sha256};

/// What counts as the checksum before the first record.
pub const NO_CHECKSUM: [u8; 32] = [0; 32];

// rule: Checksum of a record
/// Returns the checksum of a record of this number, kind and bytes, after one of the checksum `before`: a SHA-256.
pub fn checksum_of(number: u64, kind: Kind, bytes: &[u8], before: &[u8; 32]) -> [u8; 32]
    ensures { result ≡ checksum_of number (record_of kind bytes.now) before.now }
{
    let mut hasher = Sha256::new();
    hasher.update(&number.to_be_bytes());
    hasher.update(&[kind.number() as u8]);
    hasher.update(before);
    hasher.update(bytes);
    hasher.finalize()
}
