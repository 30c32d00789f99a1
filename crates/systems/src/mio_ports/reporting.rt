// What a port over sockets has to report without waiting.

ghost use Rattle.std.specs.Prelude.{◌≡◌, ◌⊎◌, ◌<◌, ◌+◌, ℕ, None, Some, true, IfNone, IfSome, IsFalse, IsSome, IsTrue, vec_len};
ghost use Rattle.http_ports.specs.Books.{accepted_in, slot_waits, slots_after};
ghost use Rattle.systems.specs.Polled.{MayReport, accepted_of};
ghost use Rattle.systems.specs.Rooms.{HasWaited, IsIdle, MakesRoom};

use crate::mio_ports::port::{CLIENTS, MioPort};
use http_ports::{Change, Event, Last};
use mio::net::TcpStream;
use mio::{Interest, Token};
use std::sync::Wait;
use std::time::Clock;

impl<R: Wait + Clock> MioPort<'_, R> {
    // The next slot that is ready and has a connection, if there is one.
    fn take_ready(&mut self) -> Option<usize>
        ensures book { self.new.book ≡ self.old.book }
        ensures open { IfSome result (λ slot. (slot < vec_len self.new.book.places)
            × IsSome (slot_waits (slots_after self.new.book.moves slot))) }
        ensures terms { self.new.terms ≡ self.old.terms }
    {
        for _ in 0..self.book.capacity() {
            let slot = self.lists.ready.pop()?;
            if slot < self.book.capacity() && self.book.waits(slot).is_some() {
                return Some(slot);
            }
        }
        None
    }

    // A slot without a connection, if there is one.
    fn take_free(&mut self) -> Option<usize>
        ensures book { self.new.book ≡ self.old.book }
        ensures free { IfSome result (λ slot. (slot < vec_len self.new.book.places)
            × (slot_waits (slots_after self.new.book.moves slot) ≡ None)) }
        ensures terms { self.new.terms ≡ self.old.terms }
    {
        for _ in 0..self.book.capacity() {
            let slot = self.lists.free.pop()?;
            if slot < self.book.capacity() && self.book.waits(slot).is_none() {
                return Some(slot);
            }
        }
        None
    }

    // Whether no slot has a connection.
    fn is_idle(&self) -> bool
        ensures { IsTrue result → (k : ℕ) → k < vec_len self.now.book.places
            → slot_waits (slots_after self.now.book.moves k) ≡ None }
    {
        for slot in 0..self.book.capacity() {
            if self.book.waits(slot).is_some() {
                return false;
            }
        }
        true
    }

    // Accepts a connection, and has it watched for a slot.
    fn accept_at(&mut self, slot: usize) -> Option<TcpStream>
        ensures book { self.new.book ≡ self.old.book }
        ensures terms { self.new.terms ≡ self.old.terms }
    {
        let (mut stream, peer) = self.door.accept()?;
        if let Some(address) = self.lists.peers.get_mut(slot) {
            *address = peer;
        }
        let both = Interest::READABLE | Interest::WRITABLE;
        let watched = self
            .poll
            .registry()
            .register(&mut stream, Token(slot), both);
        watched.ok().map(|()| stream)
    }

    // Reports the next slot that may be read or written, if its turn comes before the system is asked again.
    fn report_ready(&mut self) -> Option<Event>
        ensures reports { MayReport (vec_len self.old.book.places) result (slots_after self.old.book.moves) (slots_after self.new.book.moves) }
        ensures same { IfNone result (self.new.book ≡ self.old.book) }
        ensures capacity { vec_len self.new.book.places ≡ vec_len self.old.book.places }
        ensures accepted { accepted_in self.new.book.moves ≡ accepted_in self.old.book.moves + accepted_of result }
        ensures terms { self.new.terms ≡ self.old.terms }
    {
        if self.turns == 0 {
            return None;
        }
        self.turns -= 1;
        let slot = self.take_ready()?;
        self.book
            .change(slot, Change::Marked(Last::Reported), false);
        Some(Event::Ready(slot))
    }

    // How many milliseconds have passed since the start.
    pub(crate) fn present(&self) -> u64 {
        match self.start.elapsed(self.rt) {
            Ok(passed) => passed.as_millis().min(u128::from(u64::MAX)) as u64,
            Err(_) => self.lists.times.present,
        }
    }

    // Whether a connection may be accepted.
    pub(crate) fn may_accept(&self) -> bool
        ensures { IsTrue result → self.now.accepted < self.now.terms.limit }
    {
        self.door.is_open() && self.accepted < self.terms.limit
    }

    // Accepts a connection at a free slot, if there are both.
    fn report_accepted(&mut self) -> Option<Event>
        ensures reports { MayReport (vec_len self.old.book.places) result (slots_after self.old.book.moves) (slots_after self.new.book.moves) }
        ensures same { IfNone result (self.new.book ≡ self.old.book) }
        ensures capacity { vec_len self.new.book.places ≡ vec_len self.old.book.places }
        ensures accepted { accepted_in self.new.book.moves ≡ accepted_in self.old.book.moves + accepted_of result }
        ensures terms { self.new.terms ≡ self.old.terms }
    {
        if !self.may_accept() {
            return None;
        }
        let accepted = self.accepted.checked_add(1)?;
        let slot = self.take_free()?;
        match self.accept_at(slot) {
            Some(stream) => {
                let now = self.present();
                self.lists.times.accepted(slot, now);
                self.lists.drained.accepted(slot);
                self.book.accept(slot, stream);
                self.accepted = accepted;
                // no connection makes room for one that may not be there
                if self.lists.free.len() == 0 {
                    self.door.ask(self.poll.registry());
                }
                Some(Event::Accepted(slot))
            }
            None => {
                self.lists.free.push(slot);
                None
            }
        }
    }

    // Reports that the time of a slot's connection is up.
    fn report_expired(&mut self, slot: usize) -> Event
        requires within { slot < vec_len self.old.book.places }
        requires waits { slot_waits (slots_after self.old.book.moves slot) ≡ Some true }
        ensures reports { MayReport (vec_len self.old.book.places) (Some result) (slots_after self.old.book.moves) (slots_after self.new.book.moves) }
        ensures capacity { vec_len self.new.book.places ≡ vec_len self.old.book.places }
        ensures accepted { accepted_in self.new.book.moves ≡ accepted_in self.old.book.moves + accepted_of (Some result) }
        ensures terms { self.new.terms ≡ self.old.terms }
    {
        self.book.expire(slot);
        Event::Expired(slot)
    }

    // Whether the connection of a slot waits, and has waited for too long.
    fn is_late(&self, slot: usize) -> bool
        requires { slot < vec_len self.now.book.places }
        ensures { IsTrue result → slot_waits (slots_after self.now.book.moves slot) ≡ Some true }
    {
        match self.book.waits(slot) {
            Some(true) => {
                self.lists.times.is_late(slot, &self.terms)
                    || (self.door.is_ending && self.lists.times.is_free(slot))
            }
            _ => false,
        }
    }

    // Reports the next connection that is late; each is looked at once a second.
    fn report_late(&mut self) -> Option<Event>
        ensures reports { MayReport (vec_len self.old.book.places) result (slots_after self.old.book.moves) (slots_after self.new.book.moves) }
        ensures same { IfNone result (self.new.book ≡ self.old.book) }
        ensures capacity { vec_len self.new.book.places ≡ vec_len self.old.book.places }
        ensures accepted { accepted_in self.new.book.moves ≡ accepted_in self.old.book.moves + accepted_of result }
        ensures terms { self.new.terms ≡ self.old.terms }
    {
        for slot in self.looked..self.book.capacity() {
            if self.is_late(slot) {
                self.looked = slot + 1;
                return Some(self.report_expired(slot));
            }
        }
        self.looked = self.book.capacity();
        None
    }

    // Since when the connection of a slot waits, if it does and may make room: if it is idle, or has waited for a second.
    fn evictable_since(&self, slot: usize, is_idle: bool) -> Option<u64>
        requires within { slot < vec_len self.now.book.places }
        ensures waits { IfSome result (λ _. slot_waits (slots_after self.now.book.moves slot) ≡ Some true) }
        ensures idle { IfSome result (λ _. IsTrue is_idle → IsIdle self.now.lists.times.waits.items self.now.lists.times.present slot) }
        ensures waited { IfSome result (λ _. IsFalse is_idle
            → HasWaited self.now.lists.times.waits.items self.now.lists.times.present slot) }
    {
        if self.book.waits(slot) != Some(true) {
            return None;
        }
        if is_idle {
            self.lists.times.idle_since(slot)
        } else {
            self.lists.times.waiting_since(slot)
        }
    }

    // The slot of the connection that has waited for longest, of those that are idle, or have waited for a second.
    fn longest(&self, is_idle: bool) -> Option<usize>
        ensures waits { IfSome result (λ slot. (slot < vec_len self.now.book.places)
            × (slot_waits (slots_after self.now.book.moves slot) ≡ Some true)) }
        ensures idle { IfSome result (λ slot. IsTrue is_idle
            → IsIdle self.now.lists.times.waits.items self.now.lists.times.present slot) }
        ensures waited { IfSome result (λ slot. IsFalse is_idle
            → HasWaited self.now.lists.times.waits.items self.now.lists.times.present slot) }
    {
        let mut longest = None;
        let mut first = u64::MAX;
        for slot in 0..self.book.capacity() {
            if let Some(since) = self.evictable_since(slot, is_idle) {
                if since < first {
                    first = since;
                    longest = Some(slot);
                }
            }
        }
        longest
    }

    // rule: Room for one more
    // The slot of the connection that makes room for one more: that which has been idle for longest; if none is idle, the
    // operator's port has that which has waited for longest.
    fn room_maker(&self) -> Option<usize>
        ensures waits { IfSome result (λ slot. (slot < vec_len self.now.book.places)
            × (slot_waits (slots_after self.now.book.moves slot) ≡ Some true)) }
        ensures room { IfSome result (MakesRoom self.now.lists.times.waits.items self.now.lists.times.present self.now.terms.listener) }
    {
        let idle = self.longest(true);
        if idle.is_some() || self.terms.listener == CLIENTS {
            return idle;
        }
        self.longest(false)
    }

    // Whether one more connection could be accepted, and no slot is free.
    pub(crate) fn is_crowded(&self) -> bool {
        self.may_accept() && self.lists.free.len() == 0
    }

    // Reports the connection that makes room for one more, if no slot is free and one more waits.
    fn report_evicted(&mut self) -> Option<Event>
        ensures reports { MayReport (vec_len self.old.book.places) result (slots_after self.old.book.moves) (slots_after self.new.book.moves) }
        ensures same { IfNone result (self.new.book ≡ self.old.book) }
        ensures capacity { vec_len self.new.book.places ≡ vec_len self.old.book.places }
        ensures accepted { accepted_in self.new.book.moves ≡ accepted_in self.old.book.moves + accepted_of result }
        ensures terms { self.new.terms ≡ self.old.terms }
    {
        if !self.is_crowded() {
            return None;
        }
        let slot = self.room_maker()?;
        if !self.door.has_knocked() {
            // another port may have accepted it since
            self.door.ask(self.poll.registry());
            return None;
        }
        Some(self.report_expired(slot))
    }

    // Reports what there is without waiting.
    pub(crate) fn report(&mut self) -> Option<Event>
        ensures reports { MayReport (vec_len self.old.book.places) result (slots_after self.old.book.moves) (slots_after self.new.book.moves) }
        ensures same { IfNone result (self.new.book ≡ self.old.book) }
        ensures capacity { vec_len self.new.book.places ≡ vec_len self.old.book.places }
        ensures accepted { accepted_in self.new.book.moves ≡ accepted_in self.old.book.moves + accepted_of result }
        ensures terms { self.new.terms ≡ self.old.terms }
    {
        if let Some(event) = self.report_ready() {
            return Some(event);
        }
        if let Some(event) = self.report_accepted() {
            return Some(event);
        }
        if let Some(event) = self.report_late() {
            return Some(event);
        }
        self.report_evicted()
    }

    // Whether all connections were accepted, or the port is to end, and none is open or lingers.
    pub(crate) fn is_done(&self) -> bool
        ensures over { IsTrue result → (self.now.accepted ≡ self.now.terms.limit) ⊎ (self.now.door.is_ending ≡ true) }
        ensures idle { IsTrue result → (k : ℕ) → k < vec_len self.now.book.places
            → slot_waits (slots_after self.now.book.moves k) ≡ None }
    {
        let is_over = self.accepted == self.terms.limit || self.door.is_ending;
        is_over && self.lingering.is_empty() && self.is_idle()
    }
}
