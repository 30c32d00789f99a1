ghost use Rattle.std.specs.Prelude.{List, ℕ, IfOk};
ghost use Rattle.http_devices.specs.declared.entry.Entry.{Entry};

use crate::entry::Entry;
use std::alloc::AllocError;

/// Opens packages by their names, or says why one can't be opened.
pub trait OpenPackages {
    // what there may be under a name
    ghost opens: { Self → List ℕ → Entry → Type 0 };

    /// Opens the file of a package if there is a regular one, and returns what there is. Fails if memory ran out.
    fn open(&self, name: &[u8]) -> Result<Entry, AllocError>
        ensures { IfOk result (opens self.now name.now) };
}
