// One record.

ghost use Rattle.std.specs.Prelude.{◌≡◌, IfOk, IfSome, IfNone, Some};
ghost use Rattle.kept_records.specs.Keeping.{kind_of, number_of, record_of};

use std::alloc::{AllocError, Global};
use values::Items;

/// What a record is.
#[derive(Clone, Copy, Drop, PartialEq, Eq)]
pub enum Kind {
    /// A profile, which begins a history.
    Profile,
    /// A script, which made an edition.
    Script,
    /// A raise of a mirror's budget.
    Raise,
}

/// A record.
pub struct Record {
    /// What it is.
    pub kind: Kind,
    /// Its bytes, as the operator sent them.
    pub bytes: Items<u8>,
}

// Written out, so that no caller proves again how each part is dropped.
impl Drop for Record {
    fn drop(self) {
        let Record { kind: _, bytes: _ } = self;
    }
}

impl Kind {
    // rule: Kinds of records
    /// Returns the number by which the kind is stored: 1, 2 or 3.
    pub fn number(self) -> u32
        ensures { result ≡ number_of self }
    {
        match self {
            Kind::Profile => 1,
            Kind::Script => 2,
            Kind::Raise => 3,
        }
    }

    // rule: Kinds of records
    /// Returns the kind that is stored by a number, or `None` if there is none.
    pub fn of(number: u32) -> Option<Kind>
        ensures { result ≡ kind_of number }
    {
        match number {
            1 => Some(Kind::Profile),
            2 => Some(Kind::Script),
            3 => Some(Kind::Raise),
            _ => None,
        }
    }
}

impl Record {
    /// Makes a record, and copies its bytes into new memory.
    pub fn copy_of(alloc: Global, kind: Kind, bytes: &[u8]) -> Result<Record, AllocError>
        ensures { IfOk result (λ copy. copy ≡ record_of kind bytes.now) }
    {
        let bytes = Vec::from_slice(alloc, bytes)?;
        Ok(Record {
            kind,
            bytes: Items::new(bytes),
        })
    }
}
