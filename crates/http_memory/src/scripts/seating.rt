// What happens at a slot of a script.

ghost use Rattle.std.specs.Prelude.{◌≡◌, ◌<◌, ◌≤◌, ℕ, None, Some, false, length, option_map, IfNone, IfSome, vec_len};
ghost use Rattle.http_ports.specs.Ports.{accepted_by, expiring};
ghost use Rattle.http_ports.specs.Traffic.{IsOpen, Traffic, marked, no_traffic, timing, unused, with_ended, with_open};
ghost use Rattle.http_ports.specs.declared.last.Last.TheVariants.{Reported, Yields};
ghost use Rattle.http_memory.specs.Peers.{FitsRead, FitsWrite, after_read, after_write};
ghost use Rattle.http_memory.specs.Seats.{ChangesSeat, HasConnected, IsQuiet, ReportsSeat, connected_at, slot_of};

use crate::scripts::peer::Peer;
use crate::scripts::seat::Seat;
use http_ports::{Event, Received, Sent};

impl Seat {
    /// Makes a slot of peers, of which none has connected.
    pub fn new(peers: Vec<Peer>) -> Seat
        ensures peers { result.peers ≡ peers }
        ensures none { (result.ended ≡ 0) × (result.is_open ≡ false) }
    {
        Seat {
            peers,
            ended: 0,
            is_open: false,
        }
    }

    // Begins anew with the first peer.
    pub(crate) fn rewind(&mut self)
        ensures unused { slot_of self.new ≡ unused }
        ensures peers { self.new.peers.items ≡ self.old.peers.items }
        ensures none { connected_at self.new ≡ 0 }
    {
        self.is_open = false;
        self.ended = 0;
    }

    // Reads from the connected peer.
    pub(crate) fn read(&mut self, into: &mut [u8]) -> Received
        requires live { IsOpen (slot_of self.old) }
        requires room { 0 < length into.old }
        ensures fits { FitsRead result into.new }
        ensures changes { ChangesSeat (after_read result into.new) self.old self.new }
        ensures counts { HasConnected 0 self.old self.new }
    {
        self.peers[self.ended].read(into)
    }

    // Writes to the connected peer.
    pub(crate) fn write(&mut self, bytes: &[u8]) -> Sent
        requires live { IsOpen (slot_of self.old) }
        requires some { 0 < length bytes.now }
        ensures fits { FitsWrite result bytes.now }
        ensures changes { ChangesSeat (after_write result bytes.now) self.old self.new }
        ensures counts { HasConnected 0 self.old self.new }
    {
        self.peers[self.ended].write(bytes)
    }

    // The connection is given a timestamp.
    pub(crate) fn note_time(&mut self, seconds: u64, waiting: Option<&[u8]>)
        requires live { IsOpen (slot_of self.old) }
        ensures changes { ChangesSeat (timing seconds (option_map (λ bytes. bytes.now) waiting.entry)) self.old self.new }
        ensures counts { HasConnected 0 self.old self.new }
    {
        self.peers[self.ended].note_time(seconds, waiting);
    }

    // The connection is to be reported again.
    pub(crate) fn yield_turn(&mut self)
        requires live { IsOpen (slot_of self.old) }
        ensures changes { ChangesSeat (marked Yields) self.old self.new }
        ensures counts { HasConnected 0 self.old self.new }
    {
        self.peers[self.ended].yield_turn();
    }

    // rule: Slots of a script
    // The connection ends.
    pub(crate) fn close(&mut self)
        requires live { IsOpen (slot_of self.old) }
        ensures ends { (traffic : Traffic) → (slot_of self.old).current ≡ Some traffic
            → slot_of self.new ≡ with_ended (slot_of self.old) traffic }
        ensures counts { HasConnected 0 self.old self.new }
    {
        self.is_open = false;
        self.ended += 1;
    }

    // rule: Slots of a script
    // Connects the next peer.
    fn connect(&mut self)
        requires free { self.old.is_open ≡ false }
        requires more { self.old.ended < vec_len self.old.peers }
        ensures connects { slot_of self.new ≡ with_open (slot_of self.old) no_traffic }
        ensures counts { HasConnected 1 self.old self.new }
    {
        self.peers[self.ended].connect();
        self.is_open = true;
    }

    // What is to be reported of the seat of a slot; if `patient`, not that a connection waits for what never comes.
    pub(crate) fn report(&mut self, slot: usize, patient: bool) -> Option<Event>
        ensures reports { IfSome result (λ event. ReportsSeat slot event self.old self.new) }
        ensures counts { IfSome result (λ event. HasConnected (accepted_by event) self.old self.new) }
        ensures quiet { IfNone result (IsQuiet patient self.old × (self.new ≡ self.old)) }
    {
        if !self.is_open {
            if self.ended == self.peers.len() {
                return None;
            }
            self.connect();
            return Some(Event::Accepted(slot));
        }
        let peer = &mut self.peers[self.ended];
        if !peer.is_stuck() {
            peer.report();
            return Some(Event::Ready(slot));
        }
        if patient {
            return None;
        }
        peer.expire();
        Some(Event::Expired(slot))
    }
}
