// The records of a store in memory.

ghost use Rattle.std.specs.Prelude.{◌≤◌, ◌^◌, length};

use crate::record::Record;
use crate::turn::Turn;
use values::Items;

/// Records in memory, of which some may be those of other writers that aren't known yet.
pub struct MemoryRecords {
    /// The number of the first record, from 1 to 2^53.
    pub first: u64,
    /// The records, in order.
    pub stored: Items<Record>,
    /// How many of them are known.
    pub known: usize,
    /// How many bytes all of them together may have.
    pub limit: u64,
    /// What happens at the next appends, the next one last. Without a turn a record is stored.
    pub turns: Vec<Turn>,
    /// How many more reads succeed before one fails; `None` if all do.
    pub fails_after: Option<usize>,
    ghost within: { known ≤ length stored },
    ghost numbered: { (1 ≤ first) × (first ≤ 2 ^ 53) },
}

// Written out, so that no caller proves again how each part is dropped.
impl Drop for MemoryRecords {
    fn drop(self) {
        let MemoryRecords {
            first: _,
            stored: _,
            known: _,
            limit: _,
            turns: _,
            fails_after: _,
        } = self;
    }
}
