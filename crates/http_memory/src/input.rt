ghost use Rattle.std.specs.Prelude.{◌≡◌, ◌+◌, ◌≤◌, Some, None, length, IfOk, is_ok, if◌then◌else◌};
ghost use Rattle.std.specs.Io.KnownBytes.{ReadConsumes};
ghost use Rattle.http_memory.specs.Calls.{Gives};

use crate::calls::{is_failing, piece_of};
use crate::failures::Failures;
use http_wire::{Failed, Source};

/// A source of bytes in memory.
///
/// A read gives as many of the bytes that are left as fit, but at most a piece. It fails if no more calls are to
/// succeed, and then gives nothing; the reads after that one succeed.
#[derive(Drop)]
pub struct Input<'a> {
    /// The bytes that are left.
    pub left: &'a [u8],
    /// The length of a piece; 0 counts as 1.
    pub piece: usize,
    /// How many more calls succeed before one fails; `None` if all do.
    pub fails_after: Option<usize>,
    /// How many calls failed.
    pub failures: Failures,
}

impl<'a> Input<'a> {
    /// Makes the source of these bytes, whose calls all succeed.
    pub fn new(bytes: &'a [u8], piece: usize) -> Input<'a>
        ensures left { result.left.now ≡ bytes.now }
        ensures piece { result.piece ≡ piece }
        ensures fails { result.fails_after ≡ None }
        ensures failures { result.failures ≡ 0 }
    {
        Input {
            left: bytes,
            piece,
            fails_after: None,
            failures: Failures::none(),
        }
    }
}

impl Source for Input<'_> {
    ghost remaining = { λ input. Some input.left.now };

    ghost failures = { λ input. input.failures };

    fn read(&mut self, into: &mut [u8]) -> Result<usize, Failed>
        ensures gives { Gives self.old self.new into.old into.new result }
        ensures bound { IfOk result (λ count. count ≤ length into.new) }
        ensures bytes { ReadConsumes (Some self.old.left.now) (Some self.new.left.now) result into.new }
        ensures failed { self.new.failures ≡ self.old.failures + (if is_ok result then 0 else 1) }
    {
        if is_failing(&mut self.fails_after) {
            self.failures.count();
            return Err(Failed);
        }
        let count = piece_of(self.piece, self.left.len(), into.len());
        into[..count].copy_from_slice(&self.left[..count]);
        self.left = &self.left[count..];
        Ok(count)
    }
}
