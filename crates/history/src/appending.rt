// What calls make of a history.

ghost use Rattle.std.specs.Prelude.{◌≡◌, ◌↔◌, ◌<◌, ◌≤◌, ◌^◌, ◌++◌, ◌∷◌, [], Err, None, Ok, OnErr, OnOk, IfErr, IsTrue, false, length, true};
ghost use Rattle.kept_records.specs.declared.fault.AppendFault.TheVariants.{Failed, Full};
ghost use Rattle.kept_records.specs.declared.fault.Cause.TheVariants.{Closed};
ghost use Rattle.kept_records.specs.declared.fault.ReadFault.TheVariants as read;
ghost use Rattle.kept_records.specs.declared.record.Kind.TheVariants.{Profile};
ghost use Rattle.kept_records.specs.Keeping.{Appends, Compacts, HasRoom, Learns, Numbers, record_of};
ghost use Rattle.sqlite.specs.Held.{state};
ghost use Rattle.sqlite.specs.State.{HasCleanDisk};
ghost use Rattle.history.specs.Changes.{HasNoRoom, IsNumbered, Makes, ReportsChange};
ghost use Rattle.history.specs.Holdings.{LeavesEither};
ghost use Rattle.history.specs.Logs.{IsClean, KeepsKnown, Reports, ReportsCompaction};

use crate::causes::cause_of;
use crate::history::History;
use crate::marks::note;
use crate::refilling::replace;
use crate::sealing::seal;
use crate::statements::{insert, probe};
use kept_records::{
    AppendFault, Cause, Kind, MAX_RECORDS, NO_CHECKSUM, ReadFault, Record, Records, checksum_of,
};
use sqlite::Alter;
use std::alloc::Global;
use streams::Trace;

/// A call that changes the records.
#[derive(Drop)]
pub(crate) enum Change {
    /// Appends a record of this kind.
    Append(Kind),
    /// Replaces all records by a profile with this number.
    Compact(u64),
}

impl<S: Alter> History<S> {
    /// Makes a change.
    pub(crate) fn change(
        &mut self,
        alloc: Global,
        change: Change,
        bytes: &[u8],
    ) -> Result<(), AppendFault>
        requires { IsNumbered change }
        ensures makes { Makes change bytes.now result self.old.first self.old.kept self.new.first self.new.kept }
        ensures full { (result ≡ Err Full) ↔ (IsTrue self.old.is_live × HasNoRoom change self.old.limit self.old.kept (length bytes.now)) }
        ensures reports { IfErr result (ReportsChange change self.old.is_live self.new.is_live) }
    {
        match change {
            Change::Append(kind) => self.append(alloc, kind, bytes),
            Change::Compact(number) => self.compact(alloc, number, bytes),
        }
    }

    /// Whether its calls still reach the disk: no failure may have closed the database.
    pub fn is_live(&self) -> bool
        ensures live { result ≡ self.now.is_live }
        ensures keeps { IsTrue result → IsClean S.Store self.now → KeepsKnown S.Store self.now }
    {
        self.is_live
    }

    // rule: Limit of all records
    // Whether a record of so many bytes may be added.
    fn has_room(&self, bytes: usize) -> bool
        ensures { IsTrue result ↔ HasRoom self.now.limit self.now.kept bytes }
    {
        (self.len as usize) < MAX_RECORDS
            && self.size <= self.limit
            && bytes as u64 <= self.limit - self.size
    }
}

impl<S: Alter> Records for History<S> {
    ghost kept = { λ history. history.kept };

    ghost first = { λ history. history.first };

    ghost was_read = { λ _. ⊥ };

    ghost lasts = { λ _. true };

    fn first(&self) -> u64 {
        self.first
    }

    fn lasts(&self) -> bool {
        true
    }

    // rule: Failed append
    // rule: Kept records
    fn append(&mut self, _alloc: Global, kind: Kind, bytes: &[u8]) -> Result<(), AppendFault>
        ensures appends { Appends (record_of kind bytes.now) result self.old.kept self.new.kept }
        ensures first { self.new.first ≡ self.old.first }
        ensures limit { self.new.limit ≡ self.old.limit }
        ensures keeps { IsClean S.Store self.new → IsTrue self.new.is_live → KeepsKnown S.Store self.new }
        ensures crash { IsClean S.Store self.new → IsTrue self.old.is_live → LeavesEither (state S.Store self.new.conn)
            self.old.first self.old.kept self.old.first (self.old.kept ++ record_of kind bytes.now ∷ []) }

        ensures live { OnOk result (IsTrue self.new.is_live) }
        ensures full { (result ≡ Err Full) ↔ (IsTrue self.old.is_live × (HasRoom self.old.limit self.old.kept (length bytes.now) → ⊥)) }
        ensures shut { self.old.is_live ≡ false → (result ≡ Err (Failed Closed)) × (self.new ≡ self.old) }
        ensures reports { IfErr result (Reports self.new.is_live) }
    {
        if !self.is_live {
            return Err(AppendFault::Failed(Cause::Closed));
        }
        if !self.has_room(bytes.len()) {
            return Err(AppendFault::Full);
        }
        let number = self.first + self.len as u64;
        match insert(&mut self.conn, number, kind, bytes) {
            Ok(_) => {
                let sum = checksum_of(number, kind, bytes, &self.sum);
                match seal(&mut self.conn, number, &sum) {
                    Ok(()) => {
                        self.len += 1;
                        self.size += bytes.len() as u64;
                        self.sum = sum;
                        note(&mut self.marks, kind, bytes);
                        Ok(())
                    }
                    Err(error) => {
                        self.is_live = false;
                        Err(AppendFault::Unknown(cause_of(error)))
                    }
                }
            }
            Err(error) => {
                self.is_live = probe(&mut self.conn);
                if self.is_live {
                    Err(AppendFault::Failed(cause_of(error)))
                } else {
                    Err(AppendFault::Unknown(cause_of(error)))
                }
            }
        }
    }

    /// Returns `None`: nobody else appends. Fails once calls don't reach the disk any more.
    fn next(&mut self, _alloc: Global) -> Result<Option<Record>, ReadFault>
        ensures learns { Learns result self.old.kept self.new.kept }
        ensures first { self.new.first ≡ self.old.first }
        ensures same { self.new ≡ self.old }
        ensures none { self.old.is_live ≡ true → result ≡ Ok None }
        ensures shut { self.old.is_live ≡ false → result ≡ Err (read.Failed Closed) }
    {
        if self.is_live {
            Ok(None)
        } else {
            Err(ReadFault::Failed(Cause::Closed))
        }
    }

    /// Returns `false`: `next` gives no record.
    fn unread(&mut self) -> bool
        ensures same { self.new ≡ self.old }
        ensures none { result ≡ false }
    {
        false
    }

    // rule: Compaction
    // rule: Failed compaction
    /// Replaces all records by one in one transaction.
    ///
    /// Fails with `Failed(Closed)` if the history is closed, and with `Full` if the one has more bytes than the limit: then
    /// nothing changes. Any other failure is `Unknown`, and closes the history: all records are as before, or replaced.
    fn compact(&mut self, _alloc: Global, number: u64, bytes: &[u8]) -> Result<(), AppendFault>
        requires { (1 ≤ number) × (number ≤ 2 ^ 53) }
        ensures compacts { Compacts (record_of Profile bytes.now) result self.old.kept self.new.kept }
        ensures first { Numbers number result self.old.first self.new.first }
        ensures limit { self.new.limit ≡ self.old.limit }
        ensures keeps { IsClean S.Store self.new → IsTrue self.new.is_live → KeepsKnown S.Store self.new }
        ensures crash { IsClean S.Store self.new → IsTrue self.old.is_live → LeavesEither (state S.Store self.new.conn)
            self.old.first self.old.kept number (record_of Profile bytes.now ∷ []) }

        ensures live { OnOk result (IsTrue self.new.is_live) }
        ensures full { (result ≡ Err Full) ↔ (IsTrue self.old.is_live × (self.old.limit < length bytes.now)) }
        ensures reports { IfErr result (ReportsCompaction self.old.is_live self.new.is_live) }
        ensures shut { self.old.is_live ≡ false → (result ≡ Err (Failed Closed)) × (self.new ≡ self.old) }
    {
        if !self.is_live {
            return Err(AppendFault::Failed(Cause::Closed));
        }
        if bytes.len() as u64 > self.limit {
            return Err(AppendFault::Full);
        }
        let sum = checksum_of(number, Kind::Profile, bytes, &NO_CHECKSUM);
        match replace(&mut self.conn, number, bytes, &sum) {
            Ok(()) => {
                let mut marks = Trace::new();
                note(&mut marks, Kind::Profile, bytes);
                self.first = number;
                self.len = 1;
                self.size = bytes.len() as u64;
                self.sum = sum;
                self.marks = marks;
                Ok(())
            }
            Err(failed) => {
                self.is_live = false;
                Err(AppendFault::Unknown(cause_of(failed)))
            }
        }
    }
}
