// Where records are kept.

ghost use Rattle.std.specs.Prelude.{◌≡◌, ◌≤◌, ◌^◌, ℕ, Bool, true, false, List, IfOk, IfSome, IsOk, IsTrue};
ghost use Rattle.kept_records.specs.declared.record.Record.{Record};
ghost use Rattle.kept_records.specs.declared.record.Kind.TheVariants.{Profile};
ghost use Rattle.kept_records.specs.Keeping.{Appends, Compacts, Forgets, Learns, Numbers, record_of};

use crate::fault::{AppendFault, OpenFault, ReadFault};
use crate::record::{Kind, Record};
use std::alloc::Global;

/// Numbered records, of which this handle knows the first ones.
///
/// Others may append too, so there may be more than it knows.
pub trait Records {
    // the records that this handle knows to be stored, in order
    ghost kept: { Self → List Record };

    // the number of the first record, which is that of its edition
    ghost first: { Self → ℕ };

    // the last known record was given by `next`
    ghost was_read: { Self → Type 0 };

    // whether a restart finds them
    ghost lasts: { Self → Bool };

    /// Returns the number of the first record, from 1 to 2^53: 1, unless earlier ones were removed.
    ///
    /// The first record is a profile, and this is the number of its edition too.
    fn first(&self) -> u64
        ensures is { result ≡ first self.now }
        ensures bound { (1 ≤ result) × (result ≤ 2 ^ 53) };

    /// Returns whether a restart finds the records.
    fn lasts(&self) -> bool
        ensures { result ≡ lasts self.now };

    /// Appends a record after the last one that is known.
    ///
    /// Fails with `Taken` if there is a record after that already, with `Full` if all records would be too large together,
    /// and with `Failed` or `Unknown` if the store fails: then the record isn't stored, or it may be. It doesn't fail if no
    /// restart finds the records.
    fn append(&mut self, alloc: Global, kind: Kind, bytes: &[u8]) -> Result<(), AppendFault>
        ensures appends { Appends (record_of kind bytes.now) result (kept self.old) (kept self.new) }
        ensures succeeds { lasts self.old ≡ false → IsOk result }
        ensures first { first self.new ≡ first self.old }
        ensures lasts { lasts self.new ≡ lasts self.old };

    /// Reads the record after the last one that is known, or returns `None` if there is none, as always if no
    /// restart finds the records.
    fn next(&mut self, alloc: Global) -> Result<Option<Record>, ReadFault>
        ensures learns { Learns result (kept self.old) (kept self.new) }
        ensures read { IfOk result (λ found. IfSome found (λ _. was_read self.new)) }
        ensures lasting { IfOk result (λ found. IfSome found (λ _. lasts self.old ≡ true)) }
        ensures first { first self.new ≡ first self.old }
        ensures lasts { lasts self.new ≡ lasts self.old };

    /// Forgets the last known record, so that the next read may give it again; returns whether it did.
    ///
    /// It does if `next` gave that record. Some stores do so of other records, too.
    fn unread(&mut self) -> bool
        ensures forgets { Forgets result (kept self.old) (kept self.new) }
        ensures read { was_read self.old → IsTrue result }
        ensures first { first self.new ≡ first self.old }
        ensures lasts { lasts self.new ≡ lasts self.old };

    /// Replaces all records by one, a profile, which gets this number, from 1 to 2^53.
    ///
    /// Fails as `append` does, with `Full` if the profile alone would be too large; then all records are as before, or with
    /// `Unknown` replaced.
    fn compact(&mut self, alloc: Global, number: u64, bytes: &[u8]) -> Result<(), AppendFault>
        requires { (1 ≤ number) × (number ≤ 2 ^ 53) }
        ensures compacts { Compacts (record_of Profile bytes.now) result (kept self.old) (kept self.new) }
        ensures first { Numbers number result (first self.old) (first self.new) }
        ensures lasts { lasts self.new ≡ lasts self.old };
}

/// Opens records that are kept at a path.
pub trait Stores {
    /// A handle that knows all records which were there.
    type Kept: Records + Drop;

    // which records may be found at a path, of which the first has this number
    ghost found: { Self → List ℕ → ℕ → List Record → Type 0 };

    /// Opens the records at a path, or makes a store of none there, and returns those that there are.
    ///
    /// All records may have at most so many bytes together; if there are more already, none can be appended.
    fn open_records(&self, path: &str, limit: u64) -> Result<(Self::Kept, Vec<Record>), OpenFault>
        ensures known { IfOk result (λ opened. Self.Kept.kept opened.0 ≡ opened.1.items) }
        ensures found { IfOk result (λ opened. found self.now path.now (Self.Kept.first opened.0) opened.1.items) };
}
