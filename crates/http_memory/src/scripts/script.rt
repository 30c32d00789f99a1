// A port over peers in memory.

ghost use Rattle.std.specs.Prelude.{◌≡◌, ◌+◌, ◌<◌, ◌≤◌, ◌^◌, ℕ, IfNone, IfSome, IsSome, IsTrue, vec_len};
ghost use Rattle.http_ports.specs.Ports.{Reports, accepted_by};
ghost use Rattle.http_ports.specs.Traffic.{unused};
ghost use Rattle.http_memory.specs.Seats.{AreDone, IsOfSlot, IsQuietAt, accepted_in, peers_in, peers_of, slots_of, stopped_at};

use crate::scripts::seat::Seat;
use http_ports::{Event, Port, Received, Sent, Terms};
use std::net::IpAddr;

/// A port in memory: each slot has its peers, which connect one after the other.
///
/// Slots have their turns in the order of the script, and once that is used up, one after the other. A connection whose
/// peer stays silent, or takes no more, is late once no other connection can go on.
#[derive(Drop)]
pub struct Script {
    /// The slots.
    pub seats: Vec<Seat>,
    /// The slots whose turn is next, the next one last.
    pub turns: Vec<usize>,
    /// The slot that is looked at first once there are no more turns.
    pub next: usize,
    /// Its first timestamp, modulo 2^63.
    pub seconds: u64,
    /// How many seconds pass from one timestamp to the next.
    pub step: u64,
    // how many seconds have passed
    passed: u64,
    /// What it serves by: a place for each slot, and as many connections as there are peers.
    pub terms: Terms,
    ghost sized: { vec_len seats ≡ terms.capacity },
    ghost limited: { peers_in seats.items ≡ terms.limit },
    ghost still: { step ≡ 0 → passed ≡ 0 },
}

// How many peers there are, if they are fewer than 2^64.
fn count_peers(seats: &[Seat]) -> Option<u64>
    ensures some { IfSome result (λ count. count ≡ peers_in seats.now) }
    ensures none { IfNone result (2 ^ 64 ≤ peers_in seats.now) }
{
    let mut count = 0u64;
    for seat in seats {
        count = count.checked_add(seat.peers.len() as u64)?;
    }
    Some(count)
}

// Whether each peer has connected and ended.
fn all_done(seats: &[Seat]) -> bool
    ensures { IsTrue result → AreDone seats.now }
{
    for slot in 0..seats.len() {
        let seat = &seats[slot];
        if seat.is_open || seat.ended != seat.peers.len() {
            return false;
        }
    }
    true
}

impl Script {
    /// Makes the port of these slots, each of which begins with its first peer; `turns` has the first turn last.
    ///
    /// Returns `None` if there are 2^64 peers.
    pub fn new(seats: Vec<Seat>, turns: Vec<usize>) -> Option<Script>
        ensures fresh { IfSome result (λ script. (k : ℕ) → slots_of script.seats.items k ≡ unused) }
        ensures none { IfSome result (λ script. accepted_in script.seats.items ≡ 0) }
        ensures peers { IfSome result (λ script. peers_of script.seats.items ≡ peers_of seats.items) }
        ensures len { IfSome result (λ script. vec_len script.seats ≡ vec_len seats) }
        ensures some { peers_in seats.items < 2 ^ 64 → IsSome result }
    {
        let terms = Terms {
            listener: 0,
            capacity: seats.len(),
            limit: count_peers(&seats)?,
            message: 0,
            idle: 0,
        };
        Script::with_terms(seats, turns, terms)
    }

    /// Makes such a port that serves by terms.
    ///
    /// Returns `None` unless they have a place for each slot, and as many connections in all as there are peers.
    pub fn with_terms(seats: Vec<Seat>, turns: Vec<usize>, terms: Terms) -> Option<Script>
        ensures fresh { IfSome result (λ script. (k : ℕ) → slots_of script.seats.items k ≡ unused) }
        ensures none { IfSome result (λ script. accepted_in script.seats.items ≡ 0) }
        ensures peers { IfSome result (λ script. peers_of script.seats.items ≡ peers_of seats.items) }
        ensures len { IfSome result (λ script. vec_len script.seats ≡ vec_len seats) }
        ensures terms { IfSome result (λ script. script.terms ≡ terms) }
        ensures some { vec_len seats ≡ terms.capacity → peers_in seats.items ≡ terms.limit → IsSome result }
    {
        let limit = count_peers(&seats)?;
        if limit != terms.limit || seats.len() != terms.capacity {
            return None;
        }
        let mut seats = seats;
        for slot in 0..seats.len() {
            seats[slot].rewind();
        }
        Some(Script {
            seats,
            turns,
            next: 0,
            seconds: 0,
            step: 0,
            passed: 0,
            terms,
        })
    }

    // The first report of one of these slots; if `patient`, not that a connection waits for what never comes.
    fn report_of(&mut self, from: usize, to: usize, patient: bool) -> Option<Event>
        requires { to ≤ vec_len self.old.seats }
        ensures reports { IfSome result (λ event.
            Reports (vec_len self.old.seats) event (slots_of self.old.seats.items) (slots_of self.new.seats.items)) }
        ensures event { IfSome result IsOfSlot }
        ensures quiet { IfNone result ((k : ℕ) → from ≤ k → k < to → IsQuietAt patient self.old.seats.items k) }
        ensures same { IfNone result (self.new.seats.items ≡ self.old.seats.items) }
        ensures len { vec_len self.new.seats ≡ vec_len self.old.seats }
        ensures accepted { IfSome result (λ event.
            accepted_in self.new.seats.items ≡ accepted_in self.old.seats.items + accepted_by event) }
        ensures terms { self.new.terms ≡ self.old.terms }
        ensures stopped { stopped_at self.new.seconds self.new.step ≡ stopped_at self.old.seconds self.old.step }
    {
        for slot in from..to {
            if let Some(event) = self.seats[slot].report(slot, patient) {
                return Some(event);
            }
        }
        None
    }

    // The report of the next turn whose slot has one.
    fn next_turn(&mut self) -> Option<Event>
        ensures reports { IfSome result (λ event.
            Reports (vec_len self.old.seats) event (slots_of self.old.seats.items) (slots_of self.new.seats.items)) }
        ensures event { IfSome result IsOfSlot }
        ensures same { IfNone result (self.new.seats.items ≡ self.old.seats.items) }
        ensures len { vec_len self.new.seats ≡ vec_len self.old.seats }
        ensures accepted { IfSome result (λ event.
            accepted_in self.new.seats.items ≡ accepted_in self.old.seats.items + accepted_by event) }
        ensures terms { self.new.terms ≡ self.old.terms }
        ensures stopped { stopped_at self.new.seconds self.new.step ≡ stopped_at self.old.seconds self.old.step }
    {
        for _ in 0..self.turns.len() {
            let Some(slot) = self.turns.pop() else {
                return None;
            };
            if slot < self.seats.len() {
                if let Some(event) = self.report_of(slot, slot + 1, true) {
                    return Some(event);
                }
            }
        }
        None
    }

    // rule: End of a script
    // The next report: by the script, or else of the slot after the last one that had one; or of a connection that
    // waits for what never comes.
    fn next_report(&mut self) -> Option<Event>
        ensures reports { IfSome result (λ event.
            Reports (vec_len self.old.seats) event (slots_of self.old.seats.items) (slots_of self.new.seats.items)) }
        ensures event { IfSome result IsOfSlot }
        ensures done { IfNone result (AreDone self.new.seats.items) }
        ensures same { IfNone result (self.new.seats.items ≡ self.old.seats.items) }
        ensures len { vec_len self.new.seats ≡ vec_len self.old.seats }
        ensures accepted { IfSome result (λ event.
            accepted_in self.new.seats.items ≡ accepted_in self.old.seats.items + accepted_by event) }
        ensures terms { self.new.terms ≡ self.old.terms }
        ensures stopped { stopped_at self.new.seconds self.new.step ≡ stopped_at self.old.seconds self.old.step }
    {
        if let Some(event) = self.next_turn() {
            return Some(event);
        }
        let slots = self.seats.len();
        let next = self.next.min(slots);
        if let Some(event) = self.report_of(next, slots, true) {
            return Some(event);
        }
        if let Some(event) = self.report_of(0, next, true) {
            return Some(event);
        }
        self.report_of(0, slots, false)
    }
}

impl Port for Script {
    ghost use Rattle.std.specs.Prelude.{◌≡◌};
    ghost use Rattle.http_memory.specs.Seats.{AreDone, accepted_in, slots_of, stopped_at};

    type Own = ();

    ghost slots = { λ port. slots_of port.seats.items };

    ghost terms = { λ port. port.terms };

    // its first timestamp, if no time passes
    ghost stopped = { λ port. stopped_at port.seconds port.step };

    // it has nothing of its own
    ghost own = { λ _. tt };

    ghost accepted = { λ port. accepted_in port.seats.items };

    // each peer has connected and ended, and these were so many
    ghost is_over = { λ port. AreDone port.seats.items × (accepted_in port.seats.items ≡ port.terms.limit) };

    fn peer(&self, _slot: usize) -> Option<IpAddr> {
        None
    }

    fn terms(&self) -> Terms {
        self.terms
    }

    fn has_accepted_all(&self) -> bool {
        all_done(&self.seats)
    }

    fn wait(&mut self) -> Event {
        let Some(event) = self.next_report() else {
            return Event::Done;
        };
        match event {
            Event::Accepted(slot) => self.next = slot.saturating_add(1),
            Event::Ready(slot) => self.next = slot.saturating_add(1),
            Event::Expired(slot) => self.next = slot.saturating_add(1),
            Event::Done => {}
        }
        event
    }

    fn timestamp(&mut self, slot: usize, waiting: Option<&[u8]>) -> u64 {
        let seconds = self.seconds.wrapping_add(self.passed) % (1 << 63);
        self.passed = self.passed.wrapping_add(self.step);
        self.seats[slot].note_time(seconds, waiting);
        seconds
    }

    fn read(&mut self, slot: usize, into: &mut [u8]) -> Received {
        self.seats[slot].read(into)
    }

    fn write(&mut self, slot: usize, bytes: &[u8]) -> Sent {
        self.seats[slot].write(bytes)
    }

    fn again(&mut self, slot: usize) {
        self.seats[slot].yield_turn();
    }

    fn close(&mut self, slot: usize) {
        self.seats[slot].close();
    }
}
