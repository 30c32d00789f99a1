ghost use Rattle.std.specs.Prelude.{◌≡◌, ◌≤◌, ◌<◌, ◌+◌, ℕ, length, IfOk, is_ok, if◌then◌else◌};
ghost use Rattle.std.specs.Io.KnownBytes.{ReadConsumes};

use crate::failures::Failures;
use http_wire::{Failed, Source};
use std::io::{ErrorKind, Read};
use std::sync::ledger::{Blank, Ledger};

/// The source over a reader. A read that a signal interrupts is no failure: it is tried again.
#[derive(Drop)]
pub struct Reading<R: Read + Drop, L: Ledger> {
    /// The reader.
    pub reader: R,
    /// How many reads failed.
    pub failures: Failures<L>,
}

impl<R: Read + Drop, L: Ledger> Reading<R, L> {
    /// Makes the source, with no failure. The ledger is the blank's, and has a part or more.
    pub fn new(reader: R, blank: Blank) -> Reading<R, L>
        requires name { blank.name ≡ L.name }
        requires parts { blank.parts ≡ L.parts }
        requires some { 0 < blank.parts }
        ensures reader { result.reader ≡ reader }
        ensures failures { result.failures ≡ 0 }
    {
        Reading {
            reader,
            failures: Failures::none(blank),
        }
    }
}

// Reads once, and tries again if a signal interrupts it.
fn read_once<R: Read>(reader: &mut R, into: &mut [u8]) -> Result<usize, Failed>
    ensures bound { IfOk result (λ count. count ≤ length into.new) }
    ensures bytes { ReadConsumes (R.remaining reader.old) (R.remaining reader.new) result into.new }
{
    for _ in 0..u64::MAX {
        match reader.read(into) {
            Ok(count) => return Ok(count),
            Err(error) if error.kind() == ErrorKind::Interrupted => {}
            Err(_) => return Err(Failed),
        }
    }
    Err(Failed)
}

impl<R: Read + Drop, L: Ledger> Source for Reading<R, L> {
    ghost remaining = { λ source. R.remaining source.reader };

    ghost failures = { λ source. source.failures };

    fn read(&mut self, into: &mut [u8]) -> Result<usize, Failed> {
        match read_once(&mut self.reader, into) {
            Ok(count) => Ok(count),
            Err(failed) => {
                self.failures.count();
                Err(failed)
            }
        }
    }
}
