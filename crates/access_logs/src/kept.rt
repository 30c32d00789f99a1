ghost use Rattle.std.specs.Prelude.{◌≡◌, ◌++◌, ◌≤◌, [], ℕ, IsFalse, List, length};
ghost use Rattle.access_logs.specs.Entries.{IsKept};

use std::alloc::Global;

/// The first of some bytes, up to so many: fewer if memory ran out.
pub(crate) struct Kept {
    /// What is kept.
    pub(crate) bytes: Vec<u8>,
    /// How many are kept at most.
    pub(crate) most: usize,
    /// Whether memory ran out.
    pub(crate) is_short: bool,
    ghost within: { length bytes.items ≤ most },
}

// Written out, so that no caller proves again how each part is dropped.
impl Drop for Kept {
    fn drop(self) {
        let Kept {
            bytes: _,
            most: _,
            is_short: _,
        } = self;
    }
}

impl Kept {
    /// Keeps up to so many of no bytes yet.
    pub(crate) fn new(alloc: Global, most: usize) -> Kept
        ensures kept { IsKept most result.is_short [] result.bytes.items }
        ensures most { result.most ≡ most }
        ensures whole { IsFalse result.is_short }
    {
        Kept {
            bytes: Vec::new(alloc),
            most,
            is_short: false,
        }
    }

    /// Adds bytes.
    pub(crate) fn add(&mut self, bytes: &[u8])
        ensures kept { (all : List ℕ) → IsKept self.old.most self.old.is_short all self.old.bytes.items
            → IsKept self.old.most self.new.is_short (all ++ bytes.now) self.new.bytes.items }
        ensures most { self.new.most ≡ self.old.most }
    {
        if !self.is_short {
            let room = self.most - self.bytes.len();
            let count = room.min(bytes.len());
            self.is_short = self.bytes.extend_from_slice(&bytes[..count]).is_err();
        }
    }

    /// Keeps nothing of them any more.
    pub(crate) fn clear(&mut self)
        ensures kept { IsKept self.old.most self.new.is_short [] self.new.bytes.items }
        ensures most { self.new.most ≡ self.old.most }
        ensures whole { IsFalse self.new.is_short }
    {
        self.bytes.clear();
        self.is_short = false;
    }
}
