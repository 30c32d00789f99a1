ghost use Rattle.std.specs.Prelude.{◌≡◌, ◌≤◌, ◌<◌, ◌+◌, ℕ, length, IfOk, is_ok, if◌then◌else◌};
ghost use Rattle.std.specs.Io.KnownBytes.{WriteAppends};

use crate::failures::Failures;
use http_wire::{Failed, Sink};
use std::io::{ErrorKind, Write};
use std::sync::ledger::{Blank, Ledger};

/// The sink over a writer. A write that a signal interrupts is no failure: it is tried again. A write that
/// accepts none of some bytes is one.
#[derive(Drop)]
pub struct Writing<W: Write + Drop, L: Ledger> {
    /// The writer.
    pub writer: W,
    /// How many writes failed.
    pub failures: Failures<L>,
}

impl<W: Write + Drop, L: Ledger> Writing<W, L> {
    /// Makes the sink, with no failure. The ledger is the blank's, and has a part or more.
    pub fn new(writer: W, blank: Blank) -> Writing<W, L>
        requires name { blank.name ≡ L.name }
        requires parts { blank.parts ≡ L.parts }
        requires some { 0 < blank.parts }
        ensures writer { result.writer ≡ writer }
        ensures failures { result.failures ≡ 0 }
    {
        Writing {
            writer,
            failures: Failures::none(blank),
        }
    }
}

// Writes once, and tries again if a signal interrupts it.
fn write_once<W: Write>(writer: &mut W, bytes: &[u8]) -> Result<usize, Failed>
    ensures bound { IfOk result (λ count. count ≤ length bytes.now) }
    ensures some { IfOk result (λ count. 0 < length bytes.now → 0 < count) }
    ensures bytes { WriteAppends (W.contents writer.old) (W.contents writer.new) result bytes.now }
{
    for _ in 0..u64::MAX {
        match writer.write(bytes) {
            Ok(0) if !bytes.is_empty() => return Err(Failed),
            Ok(count) => return Ok(count),
            Err(error) if error.kind() == ErrorKind::Interrupted => {}
            Err(_) => return Err(Failed),
        }
    }
    Err(Failed)
}

impl<W: Write + Drop, L: Ledger> Sink for Writing<W, L> {
    ghost contents = { λ sink. W.contents sink.writer };

    ghost failures = { λ sink. sink.failures };

    fn write(&mut self, bytes: &[u8]) -> Result<usize, Failed> {
        match write_once(&mut self.writer, bytes) {
            Ok(count) => Ok(count),
            Err(failed) => {
                self.failures.count();
                Err(failed)
            }
        }
    }
}
