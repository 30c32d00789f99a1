// Records that aren't kept.

ghost use Rattle.std.specs.Prelude.{◌≡◌, ◌≤◌, ◌^◌, []};

use crate::fault::{AppendFault, ReadFault};
use crate::record::{Kind, Record};
use crate::records::Records;
use std::alloc::Global;
use streams::Trace;

// What was appended, without its bytes.
struct Note {
    kind: Kind,
    bytes: Trace<u8>,
}

// Written out, so that no caller proves again how each part is dropped.
impl Drop for Note {
    fn drop(self) {
        let Note { kind: _, bytes: _ } = self;
    }
}

impl Note {
    fn of(kind: Kind, bytes: &[u8]) -> Note
        ensures kind { result.kind ≡ kind }
        ensures bytes { result.bytes ≡ bytes.now }
    {
        Note {
            kind,
            bytes: Trace::of(bytes),
        }
    }
}

/// Records that no restart finds, for a server without a history. It takes no memory and has no limit.
///
/// Contracts see those that were appended as known.
pub struct Unkept {
    first: u64,
    notes: Trace<Note>,
    ghost numbered: { (1 ≤ first) × (first ≤ 2 ^ 53) },
}

// Written out, so that no caller proves again how each part is dropped.
impl Drop for Unkept {
    fn drop(self) {
        let Unkept { first: _, notes: _ } = self;
    }
}

impl Unkept {
    /// Makes the store of no records, whose first one will have the number 1.
    pub fn new() -> Unkept
        ensures first { result.first ≡ 1 }
        ensures none { result.notes ≡ [] }
    {
        Unkept {
            first: 1,
            notes: Trace::new(),
        }
    }
}

impl Records for Unkept {
    ghost use Rattle.std.specs.Prelude.{false};
    ghost use Rattle.kept_records.specs.Unkept.{noted};

    ghost kept = { λ unkept. noted unkept.notes };

    ghost first = { λ unkept. unkept.first };

    ghost was_read = { λ _. ⊥ };

    ghost lasts = { λ _. false };

    fn first(&self) -> u64 {
        self.first
    }

    fn lasts(&self) -> bool {
        false
    }

    fn append(&mut self, _alloc: Global, kind: Kind, bytes: &[u8]) -> Result<(), AppendFault> {
        self.notes.push(&Note::of(kind, bytes));
        Ok(())
    }

    fn next(&mut self, _alloc: Global) -> Result<Option<Record>, ReadFault> {
        Ok(None)
    }

    fn unread(&mut self) -> bool {
        false
    }

    fn compact(&mut self, _alloc: Global, number: u64, bytes: &[u8]) -> Result<(), AppendFault> {
        self.first = number;
        self.notes = Trace::new();
        self.notes.push(&Note::of(Kind::Profile, bytes));
        Ok(())
    }
}
