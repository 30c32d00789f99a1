ghost use Rattle.std.specs.Prelude.{ℕ, List, Option, length};
ghost use Rattle.http_desks.specs.Downloads.{bytes_read};

use http_wire::Failed;

/// Reads packages by their names.
pub trait Packages {
    // what may be read of a name, from a place on, so many bytes: these, or a failure
    ghost reads: { Self → List ℕ → ℕ → ℕ → Option (List ℕ) → Type 0 };

    // what its size may be, if there is one
    ghost sizes: { Self → List ℕ → Option ℕ → Type 0 };

    /// Returns the size of a package, or `None` if there is none.
    fn size(&self, name: &[u8]) -> Option<u64>
        ensures { sizes self.now name.now result };

    /// Reads the bytes of a package from `at` on, until `into` is full.
    fn read_at(&self, name: &[u8], at: u64, into: &mut [u8]) -> Result<(), Failed>
        ensures { reads self.now name.now at (length into.old) (bytes_read result into.new) };
}
