// How long connections wait, and which of them make room for one more.

ghost use Rattle.std.specs.Prelude.{IfSome};
ghost use Rattle.systems.specs.Rooms.{HasWaited, IsIdle, WaitsSince};

use http_ports::Terms;
use std::alloc::{AllocError, Global};

// How many milliseconds a connection waits before it makes room, unless it waits for its next message.
const WAIT: u64 = 1000;

/// What a connection waits for.
#[derive(Clone, Copy, Drop)]
pub(crate) enum Awaited {
    /// The first byte of its first message.
    First,
    /// The first byte of its next message: its last reply is sent.
    Next,
    /// The rest of a message.
    Rest,
    /// Room for the rest of a reply.
    Room,
}

/// What a connection has waited for.
#[derive(Clone, Copy, Drop)]
pub(crate) struct Wait {
    /// Since this millisecond.
    pub(crate) since: u64,
    /// For this.
    pub(crate) awaited: Awaited,
}

/// Since when the connection of each slot waits.
#[derive(Drop)]
pub(crate) struct Times {
    pub(crate) waits: Vec<Wait>,
    /// The present millisecond, from the start on, when the system was asked last.
    pub(crate) present: u64,
}

impl Wait {
    // Whether it waits for the first byte of a message.
    fn is_free(&self) -> bool {
        matches!(self.awaited, Awaited::First | Awaited::Next)
    }
}

impl Times {
    /// Makes the times of so many slots.
    pub(crate) fn new(alloc: Global, slots: usize) -> Result<Times, AllocError> {
        let none = Wait {
            since: 0,
            awaited: Awaited::First,
        };
        let waits = vec![in alloc; none; slots]?;
        Ok(Times { waits, present: 0 })
    }

    // Notes what the connection of a slot waits for, since this millisecond.
    fn set(&mut self, slot: usize, since: u64, awaited: Awaited) {
        if let Some(wait) = self.waits.get_mut(slot) {
            *wait = Wait { since, awaited };
        }
    }

    /// Notes that a connection was accepted at this millisecond.
    pub(crate) fn accepted(&mut self, slot: usize, now: u64) {
        self.set(slot, now, Awaited::First);
    }

    /// Notes that bytes were read at this millisecond: they begin a message, or go on with one.
    pub(crate) fn read(&mut self, slot: usize, now: u64) {
        let Some(wait) = self.waits.get(slot) else {
            return;
        };
        let since = match wait.awaited {
            Awaited::Next => now,
            _ => wait.since,
        };
        self.set(slot, since, Awaited::Rest);
    }

    /// Notes that bytes were written at this millisecond.
    pub(crate) fn written(&mut self, slot: usize, now: u64) {
        self.set(slot, now, Awaited::Next);
    }

    /// Notes that the peer takes no more of a reply at this millisecond.
    pub(crate) fn held(&mut self, slot: usize, now: u64) {
        let Some(wait) = self.waits.get(slot) else {
            return;
        };
        let since = match wait.awaited {
            Awaited::Room => wait.since,
            _ => now,
        };
        self.set(slot, since, Awaited::Room);
    }

    /// Whether the connection of a slot has waited for longer than the terms say.
    pub(crate) fn is_late(&self, slot: usize, terms: &Terms) -> bool {
        let Some(wait) = self.waits.get(slot) else {
            return false;
        };
        let limit = match wait.awaited {
            Awaited::Next => terms.idle,
            _ => terms.message,
        };
        self.present.saturating_sub(wait.since) > limit.saturating_mul(1000)
    }

    /// Whether no message of the connection of a slot has begun whose reply isn't sent.
    pub(crate) fn is_free(&self, slot: usize) -> bool {
        match self.waits.get(slot) {
            Some(wait) => wait.is_free(),
            None => false,
        }
    }

    /// Since when the connection of a slot has waited, if for a second.
    pub(crate) fn waiting_since(&self, slot: usize) -> Option<u64>
        ensures since { IfSome result (λ since. WaitsSince self.now.waits.items slot since) }
        ensures waited { IfSome result (λ _. HasWaited self.now.waits.items self.now.present slot) }
    {
        let wait = self.waits.get(slot)?;
        let has_waited = self.present.saturating_sub(wait.since) >= WAIT;
        if has_waited { Some(wait.since) } else { None }
    }

    /// Since when the connection of a slot has been idle, if it is: its last reply is sent, and no byte of another message
    /// has come; or it has sent no byte for a second.
    pub(crate) fn idle_since(&self, slot: usize) -> Option<u64>
        ensures since { IfSome result (λ since. WaitsSince self.now.waits.items slot since) }
        ensures idle { IfSome result (λ _. IsIdle self.now.waits.items self.now.present slot) }
    {
        let wait = self.waits.get(slot)?;
        match wait.awaited {
            Awaited::Next => Some(wait.since),
            Awaited::First => self.waiting_since(slot),
            _ => None,
        }
    }
}
