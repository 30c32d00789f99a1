ghost use Rattle.std.specs.Prelude.{◌≡◌, ◌+◌, ◌<◌, ◌≤◌, ◌++◌, [], length, take, min, IfOk, is_ok, if◌then◌else◌};
ghost use Rattle.update_client.specs.Bodies.{PartRead, left_of, waiting};

use crate::body::Body;
use http_wire::{Failed, Source};
use std::alloc::Global;

impl Body {
    /// Makes a body of no bytes.
    pub fn empty(alloc: Global) -> Body
        ensures left { left_of result ≡ 0 }
        ensures waiting { waiting result ≡ [] }
    {
        Body {
            held: Vec::new(alloc),
            at: 0,
            left: 0,
        }
    }

    // How many bytes may be handed on into so much room.
    fn most(&self, room: usize) -> usize
        ensures { result ≡ min room (left_of self.now) }
    {
        room.min(self.left as usize)
    }

    // Hands on bytes that came with the head, as many as fit.
    fn take_waiting(&mut self, into: &mut [u8]) -> usize
        requires { length into.old ≤ left_of self.old }
        ensures count { result ≡ min (length (waiting self.old)) (length into.old) }
        ensures bytes { waiting self.old ≡ take result into.new ++ waiting self.new }
        ensures left { left_of self.old ≡ left_of self.new + result }
    {
        let waiting = &self.held[self.at..];
        let count = waiting.len().min(into.len());
        into[..count].copy_from_slice(&waiting[..count]);
        self.at += count;
        self.left -= count as u64;
        count
    }

    // rule: Body that a link hands on
    /// Reads some bytes into the front of `into`, and returns how many: first those that came with the head,
    /// and never more than the head announced. Returns 0 if all were handed on, or if the input ended before;
    /// then nothing more comes.
    ///
    /// A failed read leaves the body unchanged.
    pub fn read<S: Source>(&mut self, source: &mut S, into: &mut [u8]) -> Result<usize, Failed>
        ensures bound { IfOk result (λ count. count ≤ length into.new) }
        ensures part { PartRead (S.remaining source.old) (S.remaining source.new) self.old self.new into.new result }
        ensures end { IfOk result (λ count. 0 < length into.new → count ≡ 0 → left_of self.new ≡ 0) }
        ensures failed { S.failures source.new ≡ S.failures source.old + (if is_ok result then 0 else 1) }
    {
        let room = self.most(into.len());
        if room == 0 {
            return Ok(0);
        }
        if self.at < self.held.len() {
            return Ok(self.take_waiting(&mut into[..room]));
        }
        match source.read(&mut into[..room]) {
            Ok(0) => {
                self.left = 0;
                Ok(0)
            }
            Ok(count) => {
                self.left -= count as u64;
                Ok(count)
            }
            Err(failed) => Err(failed),
        }
    }
}
