ghost use Rattle.std.specs.Prelude.{◌≡◌, ℕ, ◌+◌, ◌<◌, ◌≤◌, List, length, vec_len, drop, IfErr, IfOk};
ghost use Rattle.http_wire.specs.Devices.{Given};
ghost use Rattle.update_client.specs.Reads.{IsBroken, failed_reads};

use crate::chunked::reading::read_more;
use crate::heads::LinkFault;
use http_wire::Source;
use std::marker::Model;

/// The bytes that were read and not yet used.
pub(crate) struct Waiting {
    held: Vec<u8>,
    at: usize,
}

// Written out, so that no caller proves again how each part is dropped.
impl Drop for Waiting {
    fn drop(self) {
        let Waiting { held: _, at: _ } = self;
    }
}

impl Model for Waiting {
    ghost Value = { List ℕ };

    ghost view = { λ w. drop w.at w.held.items };

    ghost invariant = { λ w. w.at ≤ vec_len w.held };
}

impl Waiting {
    /// Makes them of the bytes that are held, from one of them on.
    pub(crate) fn new(held: Vec<u8>, at: usize) -> Waiting
        requires { at ≤ vec_len held }
        ensures { result ≡ drop at held.items }
    {
        Waiting { held, at }
    }

    /// Returns the bytes.
    pub(crate) fn bytes(&self) -> &[u8]
        ensures { result.now ≡ self.now }
    {
        &self.held[self.at..]
    }

    /// Drops the first `count` bytes, of which there are as many.
    pub(crate) fn discard(&mut self, count: usize)
        requires { count ≤ length self.old }
        ensures { self.new ≡ drop count self.old }
    {
        self.at += count;
    }

    // Frees the room of the bytes that were used.
    fn settle(&mut self)
        ensures { self.new ≡ self.old }
    {
        if self.at > 0 {
            let left = self.held.len() - self.at;
            self.held.copy_within(self.at.., 0);
            self.held.truncate(left);
            self.at = 0;
        }
    }

    /// Reads once, after the bytes.
    pub(crate) fn fill<S: Source>(
        &mut self,
        source: &mut S,
        block: &mut [u8],
    ) -> Result<usize, LinkFault>
        requires { 0 < length block.old }
        ensures given { IfOk result (λ count. Given (S.remaining source.old) (S.remaining source.new) self.old self.new count) }
        ensures broken { IfErr result IsBroken }
        ensures failed { S.failures source.new ≡ S.failures source.old + failed_reads result }
        ensures block { length block.new ≡ length block.old }
    {
        self.settle();
        let room = block.len();
        read_more(source, &mut self.held, block, room)
    }
}
