// Slots that are to be reported, in the order in which they became ready.

ghost use Rattle.std.specs.Prelude.{◌≡◌};

use std::alloc::{AllocError, Global};

// What is kept of a slot that isn't in the list, and of the last one that is.
const ABSENT: usize = usize::MAX;

const END: usize = usize::MAX - 1;

/// A list of slots, each at most once. It takes memory when it is made, and no more.
#[derive(Drop)]
pub(crate) struct WaitingList {
    // the slot after each one
    after: Vec<usize>,
    first: usize,
    last: usize,
    length: usize,
}

impl WaitingList {
    /// Makes an empty list for so many slots.
    pub(crate) fn new(alloc: Global, slots: usize) -> Result<WaitingList, AllocError> {
        let after = vec![in alloc; ABSENT; slots]?;
        Ok(WaitingList {
            after,
            first: END,
            last: END,
            length: 0,
        })
    }

    /// How many slots are in the list.
    pub(crate) fn len(&self) -> usize {
        self.length
    }

    /// Puts a slot at the end, unless it is in the list.
    pub(crate) fn push(&mut self, slot: usize) {
        match self.after.get_mut(slot) {
            Some(after) if *after == ABSENT => *after = END,
            _ => return,
        }
        match self.after.get_mut(self.last) {
            Some(after) => *after = slot,
            None => self.first = slot,
        }
        self.last = slot;
        self.length = self.length.saturating_add(1);
    }

    /// Takes the first slot, if there is one.
    pub(crate) fn pop(&mut self) -> Option<usize> {
        let slot = self.first;
        let after = self.after.get_mut(slot)?;
        self.first = *after;
        *after = ABSENT;
        self.length = self.length.saturating_sub(1);
        if self.first == END {
            self.last = END;
        }
        Some(slot)
    }
}
