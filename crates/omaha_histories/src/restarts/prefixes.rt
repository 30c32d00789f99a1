// The records up to an edition.

ghost use Rattle.std.specs.Prelude.{◌≡◌};
ghost use Rattle.omaha_histories.specs.Numbering.{AreUpTo, edition_of, editions_in, makes_edition};

use kept_records::{Kind, Record};

// Whether a record makes the next edition.
fn makes_edition(kind: Kind) -> bool
    ensures { result ≡ makes_edition kind }
{
    match kind {
        Kind::Profile => true,
        Kind::Script => true,
        Kind::Raise => false,
    }
}

/// How many editions a record makes: one, or none if it is a raise.
pub(crate) fn edition_of(kind: Kind) -> u64
    ensures { result ≡ edition_of kind }
{
    if makes_edition(kind) { 1 } else { 0 }
}

/// How many editions records make.
pub fn count_editions(records: &[Record]) -> u64
    ensures { result ≡ editions_in records.now }
{
    let mut count: u64 = 0;
    for entry in records {
        count += edition_of(entry.kind);
    }
    count
}

// rule: Records up to an edition
/// The first records that make so many editions, with the raises after them; all, if they make no more.
pub fn records_until(records: &[Record], editions: u64) -> &[Record]
    ensures { AreUpTo editions records.now result.now }
{
    let mut left = editions;
    for index in 0..records.len() {
        let made = edition_of(records[index].kind);
        if left < made {
            return &records[..index];
        }
        left -= made;
    }
    records
}
