ghost use Rattle.std.specs.Prelude.{◌≡◌, ◌+◌, ◌<◌, ◌≤◌, ℕ, List, Option, length, IfOk, is_ok, if◌then◌else◌};
ghost use Rattle.std.specs.Io.KnownBytes.{ReadConsumes, WriteAppends};

use values::Failed;

/// Gives bytes in pieces.
pub trait Source {
    ghost remaining: { Self → Option (List ℕ) };

    ghost failures: { Self → ℕ };

    /// Reads some bytes into the front of `into`, and returns how many; 0 only at the end.
    fn read(&mut self, into: &mut [u8]) -> Result<usize, Failed>
        ensures bound { IfOk result (λ count. count ≤ length into.new) }
        ensures bytes { ReadConsumes (remaining self.old) (remaining self.new) result into.new }
        ensures failed { failures self.new ≡ failures self.old + (if is_ok result then 0 else 1) };
}

/// Takes bytes in pieces.
pub trait Sink {
    ghost contents: { Self → Option (List ℕ) };

    ghost failures: { Self → ℕ };

    /// Writes a first part of the bytes, and returns how many: one or more, if there are any.
    fn write(&mut self, bytes: &[u8]) -> Result<usize, Failed>
        ensures bound { IfOk result (λ count. count ≤ length bytes.now) }
        ensures some { IfOk result (λ count. 0 < length bytes.now → 0 < count) }
        ensures bytes { WriteAppends (contents self.old) (contents self.new) result bytes.now }
        ensures failed { failures self.new ≡ failures self.old + (if is_ok result then 0 else 1) };
}
