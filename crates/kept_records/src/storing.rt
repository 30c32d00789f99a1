// What calls make of records in memory.

ghost use Rattle.std.specs.Prelude.{◌≡◌, ◌<◌, ◌≤◌, ◌+◌, ◌-◌, ◌^◌, [], None, if◌then◌else◌, is_ok, IfOk, IfSome, IsTrue};
ghost use Rattle.kept_records.specs.declared.record.Kind.TheVariants.{Profile};
ghost use Rattle.kept_records.specs.Keeping.{Appends, Compacts, Forgets, Learns, Numbers, record_of};
ghost use Rattle.kept_records.specs.Memories.{AppendsBy, IsCompacted, IsLost, IsPushed, IsSameBut, IsStored, Reads, after_read, fails, known_of, turn_of, turns_after};

use crate::fault::{AppendFault, Cause, ReadFault};
use crate::limits::{DEFAULT_LIMIT, has_room};
use crate::memory::MemoryRecords;
use crate::record::{Kind, Record};
use crate::records::Records;
use crate::turn::Turn;
use std::alloc::{AllocError, Global};
use values::Items;

// Adds a record, unless memory ran out when it was made.
fn push(stored: &mut Items<Record>, made: Result<Record, AllocError>) -> Result<(), AppendFault>
    ensures { IsPushed stored.old stored.new made result }
{
    let Ok(made) = made else {
        return Err(AppendFault::Failed(Cause::Memory));
    };
    match stored.push(made) {
        Ok(()) => Ok(()),
        Err(_) => Err(AppendFault::Failed(Cause::Memory)),
    }
}

// Counts a read, and returns whether it fails.
fn is_failing(left: &mut Option<usize>) -> bool
    ensures { (result ≡ fails left.old) × (left.new ≡ after_read left.old) }
{
    let Some(calls) = *left else {
        return false;
    };
    *left = calls.checked_sub(1);
    calls == 0
}

impl MemoryRecords {
    /// Makes the store of no records, whose first one will have the number 1, with the usual limit.
    pub fn new(alloc: Global) -> MemoryRecords
        ensures none { result.stored ≡ [] }
        ensures first { result.first ≡ 1 }
        ensures turns { result.turns.items ≡ [] }
        ensures fails { result.fails_after ≡ None }
        ensures limit { result.limit ≡ 67108864 }
    {
        MemoryRecords {
            first: 1,
            stored: Items::empty(alloc),
            known: 0,
            limit: DEFAULT_LIMIT,
            turns: Vec::new(alloc),
            fails_after: None,
        }
    }

    // Stores a record after those that are known, if it fits there.
    fn store(&mut self, alloc: Global, kind: Kind, bytes: &[u8]) -> Result<(), AppendFault>
        ensures stored { IsStored self.old.stored self.new.stored self.old.known self.old.limit (record_of kind bytes.now) result }
        ensures same { IsSameBut self.old self.new }
    {
        if self.known < self.stored.len() {
            return Err(AppendFault::Taken);
        }
        if !has_room(self.stored.as_slice(), self.limit, bytes.len()) {
            return Err(AppendFault::Full);
        }
        push(&mut self.stored, Record::copy_of(alloc, kind, bytes))
    }

    // Stores another writer's record.
    fn lose(&mut self, other: Record) -> Result<(), AppendFault>
        ensures lost { IsLost self.old.stored self.new.stored other result }
        ensures same { IsSameBut self.old self.new }
    {
        push(&mut self.stored, Ok(other))?;
        Err(AppendFault::Taken)
    }

    // rule: Records in memory
    // What an append comes to at a turn; the number of known records is as before.
    fn append_by(
        &mut self,
        alloc: Global,
        turn: Option<Turn>,
        kind: Kind,
        bytes: &[u8],
    ) -> Result<(), AppendFault>
        ensures by { AppendsBy turn self.old.stored self.new.stored self.old.known self.old.limit (record_of kind bytes.now) result }
        ensures same { IsSameBut self.old self.new }
    {
        match turn {
            None => self.store(alloc, kind, bytes),
            Some(Turn::Stores) => self.store(alloc, kind, bytes),
            Some(Turn::Loses(other)) => self.lose(other),
            Some(Turn::StoresInDoubt) => {
                self.store(alloc, kind, bytes)?;
                Err(AppendFault::Unknown(Cause::Disk))
            }
            Some(Turn::DropsInDoubt) => Err(AppendFault::Unknown(Cause::Disk)),
            Some(Turn::Fails) => Err(AppendFault::Failed(Cause::Disk)),
        }
    }
}

impl Records for MemoryRecords {
    ghost use Rattle.std.specs.Prelude.{◌≡◌, ◌+◌, ◌<◌, ◌≤◌, true};
    ghost use Rattle.kept_records.specs.Memories.{known_of};

    ghost kept = { known_of };

    ghost first = { λ memory. memory.first };

    ghost was_read = { λ memory. 0 < memory.known };

    ghost lasts = { λ _. true };

    fn first(&self) -> u64 {
        self.first
    }

    fn lasts(&self) -> bool {
        true
    }

    // rule: Appended record
    fn append(&mut self, alloc: Global, kind: Kind, bytes: &[u8]) -> Result<(), AppendFault>
        ensures appends { Appends (record_of kind bytes.now) result (known_of self.old) (known_of self.new) }
        ensures first { self.new.first ≡ self.old.first }
        ensures turn { AppendsBy (turn_of self.old.turns.items) self.old.stored self.new.stored self.old.known self.old.limit (record_of kind bytes.now) result }
        ensures turns { self.new.turns.items ≡ turns_after self.old.turns.items }
        ensures known { self.new.known ≡ (if is_ok result then self.old.known + 1 else self.old.known) }
        ensures limit { self.new.limit ≡ self.old.limit }
        ensures reads { self.new.fails_after ≡ self.old.fails_after }
    {
        let turn = self.turns.pop();
        self.append_by(alloc, turn, kind, bytes)?;
        self.known += 1;
        Ok(())
    }

    // rule: Next record
    fn next(&mut self, alloc: Global) -> Result<Option<Record>, ReadFault>
        ensures learns { Learns result (known_of self.old) (known_of self.new) }
        ensures read { IfOk result (λ found. IfSome found (λ _. 0 < self.new.known)) }
        ensures first { self.new.first ≡ self.old.first }
        ensures reads { Reads self.old result }
        ensures fails { self.new.fails_after ≡ after_read self.old.fails_after }
        ensures stored { self.new.stored ≡ self.old.stored }
        ensures limit { self.new.limit ≡ self.old.limit }
        ensures turns { self.new.turns.items ≡ self.old.turns.items }
    {
        if is_failing(&mut self.fails_after) {
            return Err(ReadFault::Failed(Cause::Disk));
        }
        let Some(next) = self.stored.as_slice().get(self.known) else {
            return Ok(None);
        };
        match Record::copy_of(alloc, next.kind, next.bytes.as_slice()) {
            Ok(next) => {
                self.known += 1;
                Ok(Some(next))
            }
            Err(_) => Err(ReadFault::Failed(Cause::Memory)),
        }
    }

    fn unread(&mut self) -> bool
        ensures forgets { Forgets result (known_of self.old) (known_of self.new) }
        ensures read { 0 < self.old.known → IsTrue result }
        ensures known { self.new.known ≡ self.old.known - 1 }
        ensures same { (self.new.stored ≡ self.old.stored) × (self.new.first ≡ self.old.first) }
        ensures limit { self.new.limit ≡ self.old.limit }
        ensures turns { self.new.turns.items ≡ self.old.turns.items }
        ensures reads { self.new.fails_after ≡ self.old.fails_after }
    {
        if self.known == 0 {
            return false;
        }
        self.known -= 1;
        true
    }

    // rule: Compaction
    fn compact(&mut self, alloc: Global, number: u64, bytes: &[u8]) -> Result<(), AppendFault>
        requires { (1 ≤ number) × (number ≤ 2 ^ 53) }
        ensures compacts { Compacts (record_of Profile bytes.now) result (known_of self.old) (known_of self.new) }
        ensures first { Numbers number result self.old.first self.new.first }
        ensures exact { IsCompacted self.old.stored self.new.stored self.old.known self.old.limit
            (record_of Profile bytes.now) result }
        ensures limit { self.new.limit ≡ self.old.limit }
        ensures turns { self.new.turns.items ≡ self.old.turns.items }
        ensures reads { self.new.fails_after ≡ self.old.fails_after }
    {
        if self.known < self.stored.len() {
            return Err(AppendFault::Taken);
        }
        if bytes.len() as u64 > self.limit {
            return Err(AppendFault::Full);
        }
        let mut stored = Items::empty(alloc);
        push(&mut stored, Record::copy_of(alloc, Kind::Profile, bytes))?;
        self.first = number;
        self.known = 1;
        self.stored = stored;
        Ok(())
    }
}
