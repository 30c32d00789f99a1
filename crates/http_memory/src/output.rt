ghost use Rattle.std.specs.Prelude.{◌≡◌, ◌+◌, ◌≤◌, ◌<◌, [], Some, None, length, IfOk, is_ok, if◌then◌else◌};
ghost use Rattle.std.specs.Io.KnownBytes.{WriteAppends};
ghost use Rattle.http_memory.specs.Calls.{Accepts};

use crate::calls::{is_failing, piece_of};
use crate::failures::Failures;
use http_wire::{Failed, Sink};
use std::alloc::Global;

/// A sink that keeps what is written in memory.
///
/// A write accepts as many bytes as there are, but at most a piece. It fails if no more calls are to succeed, or
/// memory ran out, and then keeps nothing of it.
#[derive(Drop)]
pub struct Output {
    /// What was written.
    pub bytes: Vec<u8>,
    /// The length of a piece; 0 counts as 1.
    pub piece: usize,
    /// How many more calls succeed before one fails; `None` if all do. Running out of memory isn't one of these failures.
    pub fails_after: Option<usize>,
    /// How many calls succeeded, up to `usize::MAX`.
    pub calls: usize,
    /// How many calls failed.
    pub failures: Failures,
}

impl Output {
    /// Makes a sink to which nothing was written, whose calls all succeed while there is memory.
    pub fn new(alloc: Global, piece: usize) -> Output
        ensures bytes { result.bytes.items ≡ [] }
        ensures piece { result.piece ≡ piece }
        ensures fails { result.fails_after ≡ None }
        ensures counts { (result.calls ≡ 0) × (result.failures ≡ 0) }
    {
        Output {
            bytes: Vec::new(alloc),
            piece,
            fails_after: None,
            calls: 0,
            failures: Failures::none(),
        }
    }
}

impl Sink for Output {
    ghost contents = { λ output. Some output.bytes.items };

    ghost failures = { λ output. output.failures };

    fn write(&mut self, bytes: &[u8]) -> Result<usize, Failed>
        ensures accepts { Accepts self.old self.new bytes.now result }
        ensures bound { IfOk result (λ count. count ≤ length bytes.now) }
        ensures some { IfOk result (λ count. 0 < length bytes.now → 0 < count) }
        ensures bytes { WriteAppends (Some self.old.bytes.items) (Some self.new.bytes.items) result bytes.now }
        ensures failed { self.new.failures ≡ self.old.failures + (if is_ok result then 0 else 1) }
    {
        if is_failing(&mut self.fails_after) {
            self.failures.count();
            return Err(Failed);
        }
        let count = piece_of(self.piece, bytes.len(), bytes.len());
        match self.bytes.extend_from_slice(&bytes[..count]) {
            Ok(()) => {
                self.calls = self.calls.saturating_add(1);
                Ok(count)
            }
            Err(_) => {
                self.failures.count();
                Err(Failed)
            }
        }
    }
}
