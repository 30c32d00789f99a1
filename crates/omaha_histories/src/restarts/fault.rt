// Why records lead to nothing.

use failures::RecordFault;
use std::alloc::AllocError;

/// Why records lead to nothing.
#[derive(Debug, Drop)]
pub enum RestoreError {
    /// There are no records.
    Empty,
    /// The record at this index, from 0, is the first that doesn't follow.
    Record(usize, RecordFault),
    /// Memory ran out.
    Memory,
}

impl From<AllocError> for RestoreError {
    ghost use Rattle.std.specs.Prelude.{◌≡◌};
    ghost use Rattle.omaha_histories.specs.declared.restarts.fault.RestoreError.TheVariants.{Memory};

    ghost from_gives = { λ _ error. error ≡ Memory };

    fn from(_refused: AllocError) -> RestoreError {
        RestoreError::Memory
    }
}
