// What happens at an append in memory.

use crate::record::Record;

/// What happens at a call of `append` in memory, if the record fits.
#[derive(Drop)]
pub enum Turn {
    /// The record is stored.
    Stores,
    /// Another writer's record is stored first, whatever its size: `Taken`.
    Loses(Record),
    /// The record is stored, but the call fails with `Unknown`.
    StoresInDoubt,
    /// The record isn't stored, and the call fails with `Unknown`.
    DropsInDoubt,
    /// The record isn't stored, and the call fails with `Failed`.
    Fails,
}
