ghost use Rattle.std.specs.Prelude.{◌≡◌, ◌<◌, ◌+◌, ℕ, IsTrue, Option, length, option_map};
ghost use Rattle.http_ports.specs.Ports.{Closes, IsDone, Reads, Reports, Rests, Writes, accepted_by};
ghost use Rattle.http_ports.specs.Traffic.{Changes, FitsClock, HasPassed, IsOpen, IsTime, Slot, marked, timing};
ghost use Rattle.http_ports.specs.declared.last.Last.TheVariants.{Yields};
ghost use Rattle.http_ports.specs.declared.terms.Terms.{Terms};

use crate::event::{Event, Received, Sent};
use crate::terms::Terms;
use std::net::IpAddr;

/// One worker's side of the network: connections, each at a slot, which has one after the other.
///
/// No call waits for a peer but `wait`. A read that gives nothing, or a write that takes nothing, has the connection
/// reported once its peer has gone on.
pub trait Port {
    /// What a port has of its own beside its terms and its clock, such as a log.
    type Own;

    // what passed at each slot
    ghost slots: { Self → ℕ → Slot };

    // what it serves by, which stays
    ghost terms: { Self → Terms };

    // the time at which its clock has stopped, if it has, which stays
    ghost stopped: { Self → Option ℕ };

    // what it has of its own, which stays
    ghost own: { Self → Self.Own };

    // how many connections were accepted
    ghost accepted: { Self → ℕ };

    // no connection is open, and no more will be accepted
    ghost is_over: { Self → Type 0 };

    /// Returns the address of a slot's peer, if it has a connection and the system gives its address.
    fn peer(&self, slot: usize) -> Option<IpAddr>;

    /// Returns what it serves by: the slots are those below its capacity.
    fn terms(&self) -> Terms
        ensures { result ≡ terms self.now };

    /// Whether as many connections were accepted as the terms say.
    fn has_accepted_all(&self) -> bool
        ensures { IsTrue result → accepted self.now ≡ (terms self.now).limit };

    // rule: Events of a port
    // rule: Rest of a connection
    /// Waits until something happens to a connection. Each open one waits for its peer, or is to be reported again.
    fn wait(&mut self) -> Event
        requires rests { (k : ℕ) → Rests (slots self.old k) }
        ensures reports { Reports (terms self.old).capacity result (slots self.old) (slots self.new) }
        ensures over { IsDone result → is_over self.new }
        ensures accepted { accepted self.new ≡ accepted self.old + accepted_by result }
        ensures terms { terms self.new ≡ terms self.old }
        ensures stopped { stopped self.new ≡ stopped self.old }
        ensures own { own self.new ≡ own self.old };

    // rule: Timestamp of a connection
    // rule: Clock of a port
    /// Returns how many seconds have passed since 1970, less than 2^63, as a timestamp of the connection of a slot. The
    /// bytes `waiting` wait, if a message may begin with them.
    fn timestamp(&mut self, slot: usize, waiting: Option<&[u8]>) -> u64
        requires live { IsOpen (slots self.old slot) }
        ensures time { IsTime result }
        ensures clock { FitsClock (stopped self.old) result }
        ensures noted { Changes slot (timing result (option_map (λ bytes. bytes.now) waiting.entry)) (slots self.old) (slots self.new) }
        ensures accepted { accepted self.new ≡ accepted self.old }
        ensures terms { terms self.new ≡ terms self.old }
        ensures stopped { stopped self.new ≡ stopped self.old }
        ensures own { own self.new ≡ own self.old };

    // rule: Reads of a port
    /// Reads what has come on the connection of a slot, into one cell or more.
    fn read(&mut self, slot: usize, into: &mut [u8]) -> Received
        requires live { IsOpen (slots self.old slot) }
        requires room { 0 < length into.old }
        ensures reads { Reads slot result into.new (slots self.old) (slots self.new) }
        ensures accepted { accepted self.new ≡ accepted self.old }
        ensures terms { terms self.new ≡ terms self.old }
        ensures stopped { stopped self.new ≡ stopped self.old }
        ensures own { own self.new ≡ own self.old };

    // rule: Writes of a port
    /// Writes a first part of the bytes, of which there is one or more, on the connection of a slot.
    fn write(&mut self, slot: usize, bytes: &[u8]) -> Sent
        requires live { IsOpen (slots self.old slot) }
        requires some { 0 < length bytes.now }
        ensures writes { Writes slot result bytes.now (slots self.old) (slots self.new) }
        ensures accepted { accepted self.new ≡ accepted self.old }
        ensures terms { terms self.new ≡ terms self.old }
        ensures stopped { stopped self.new ≡ stopped self.old }
        ensures own { own self.new ≡ own self.old };

    /// Has the connection of a slot, on which bytes have just passed, reported again.
    fn again(&mut self, slot: usize)
        requires passed { HasPassed (slots self.old slot) }
        ensures yields { Changes slot (marked Yields) (slots self.old) (slots self.new) }
        ensures accepted { accepted self.new ≡ accepted self.old }
        ensures terms { terms self.new ≡ terms self.old }
        ensures stopped { stopped self.new ≡ stopped self.old }
        ensures own { own self.new ≡ own self.old };

    /// Ends the connection of a slot, which is free then.
    fn close(&mut self, slot: usize)
        requires live { IsOpen (slots self.old slot) }
        ensures closes { Closes slot (slots self.old) (slots self.new) }
        ensures accepted { accepted self.new ≡ accepted self.old }
        ensures terms { terms self.new ≡ terms self.old }
        ensures stopped { stopped self.new ≡ stopped self.old }
        ensures own { own self.new ≡ own self.old };
}
