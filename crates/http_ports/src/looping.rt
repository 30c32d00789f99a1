// The connections of a port, each served as it becomes ready.

ghost use Rattle.std.specs.Prelude.{◌≡◌, ◌≢◌, ◌<◌, ◌+◌, ◌-◌, ◌^◌, ℕ, None, length, min, IfNone, IfSome};
ghost use Rattle.http_ports.specs.Loops.{HasServed, Works, all_rest, counts_of, kept_at, rest_but};
ghost use Rattle.http_ports.specs.Ports.{Closes, Rests};
ghost use Rattle.http_ports.specs.Speech.{one_if, speech_at};
ghost use Rattle.http_ports.specs.Steps.{GoesRound};
ghost use Rattle.http_ports.specs.Traffic.{IsOpen, unused};

use crate::event::Event;
use crate::port::Port;
use crate::protocol::Protocol;
use crate::serving::serve_out;
use crate::table::swap;
use http_desks::Desk;
use std::sync::Wait;

// Serves the connection of a slot until it rests or ends; whether memory ran out for one that ended.
fn serve_slot<P: Port, E: Protocol, D: Desk>(
    port: &mut P,
    slot: usize,
    protocol: &E,
    room: &mut E::Room,
    into: &mut [u8],
    conns: &mut [Option<E::Conn>],
    desk: &mut D,
) -> bool
    requires live { IsOpen (P.slots port.old slot) }
    requires room { 0 < length into.old }
    requires within { slot < length conns.old }
    requires many { length conns.old ≡ (P.terms port.old).capacity }
    ensures works { (start : _) (lost : ℕ)
        → Works (speech_at (P.stopped port.old) E.pending E.phase E.is_lost (E.so_far protocol.now) (D.path desk.old) (D.content_type desk.old))
        (rest_but slot) D.steps start desk.old (P.slots port.old) (kept_at conns.old)
        (counts_of (P.terms port.old).capacity (P.accepted port.old) lost)
        → Works (speech_at (P.stopped port.old) E.pending E.phase E.is_lost (E.so_far protocol.now) (D.path desk.old) (D.content_type desk.old))
        all_rest D.steps start desk.new (P.slots port.new) (kept_at conns.new)
        (counts_of (P.terms port.new).capacity (P.accepted port.new) (lost + one_if result)) }
    ensures many { length conns.new ≡ (P.terms port.new).capacity }
    ensures terms { P.terms port.new ≡ P.terms port.old }
    ensures stopped { P.stopped port.new ≡ P.stopped port.old }
    ensures own { P.own port.new ≡ P.own port.old }
    ensures path { D.path desk.new ≡ D.path desk.old }
    ensures content_type { D.content_type desk.new ≡ D.content_type desk.old }
{
    let Some(conn) = swap(conns, slot, None) else {
        return false;
    };
    match serve_out(port, slot, protocol, room, into, conn, desk) {
        Ok(left) => {
            let _ = swap(conns, slot, Some(left));
            false
        }
        Err(lost) => lost,
    }
}

// Closes the connection of a slot, whose time is up; whether memory ran out for it.
fn close_slot<P: Port, E: Protocol>(
    port: &mut P,
    slot: usize,
    protocol: &E,
    conns: &mut [Option<E::Conn>],
) -> bool
    requires live { IsOpen (P.slots port.old slot) }
    requires within { slot < length conns.old }
    ensures closes { Closes slot (P.slots port.old) (P.slots port.new) }
    ensures lost { IfSome (kept_at conns.old slot) (λ conn. result ≡ E.is_lost conn) }
    ensures free { kept_at conns.new slot ≡ None }
    ensures elsewhere { (k : ℕ) → k ≢ slot → kept_at conns.new k ≡ kept_at conns.old k }
    ensures len { length conns.new ≡ length conns.old }
    ensures accepted { P.accepted port.new ≡ P.accepted port.old }
    ensures terms { P.terms port.new ≡ P.terms port.old }
    ensures stopped { P.stopped port.new ≡ P.stopped port.old }
    ensures own { P.own port.new ≡ P.own port.old }
{
    port.close(slot);
    match swap(conns, slot, None) {
        Some(conn) => protocol.end(conn),
        None => false,
    }
}

// Waits for an event and serves it; whether memory ran out for a connection that ended, or none if there are no more
// events.
fn serve_next<P: Port, E: Protocol, D: Desk>(
    port: &mut P,
    protocol: &E,
    room: &mut E::Room,
    into: &mut [u8],
    conns: &mut [Option<E::Conn>],
    desk: &mut D,
) -> Option<bool>
    requires rests { (k : ℕ) → Rests (P.slots port.old k) }
    requires room { 0 < length into.old }
    requires many { length conns.old ≡ (P.terms port.old).capacity }
    ensures works { (start : _) (lost : ℕ)
        → Works (speech_at (P.stopped port.old) E.pending E.phase E.is_lost (E.so_far protocol.now) (D.path desk.old) (D.content_type desk.old))
        all_rest D.steps start desk.old (P.slots port.old) (kept_at conns.old)
        (counts_of (P.terms port.old).capacity (P.accepted port.old) lost)
        → GoesRound result
        (λ more. Works (speech_at (P.stopped port.old) E.pending E.phase E.is_lost (E.so_far protocol.now) (D.path desk.old) (D.content_type desk.old))
        all_rest D.steps start desk.new (P.slots port.new) (kept_at conns.new)
        (counts_of (P.terms port.new).capacity (P.accepted port.new) (lost + more)))
        (HasServed (speech_at (P.stopped port.old) E.pending E.phase E.is_lost (E.so_far protocol.now) (D.path desk.old) (D.content_type desk.old))
        D.steps start desk.new (P.slots port.new) (counts_of (P.terms port.new).capacity (P.accepted port.new) lost)) }
    ensures over { IfNone result (P.is_over port.new) }
    ensures many { length conns.new ≡ (P.terms port.new).capacity }
    ensures terms { P.terms port.new ≡ P.terms port.old }
    ensures stopped { P.stopped port.new ≡ P.stopped port.old }
    ensures own { P.own port.new ≡ P.own port.old }
    ensures path { D.path desk.new ≡ D.path desk.old }
    ensures content_type { D.content_type desk.new ≡ D.content_type desk.old }
{
    match port.wait() {
        Event::Accepted(slot) => {
            let peer = port.peer(slot);
            let _ = swap(conns, slot, Some(protocol.open(peer)));
            Some(serve_slot(port, slot, protocol, room, into, conns, desk))
        }
        Event::Ready(slot) => Some(serve_slot(port, slot, protocol, room, into, conns, desk)),
        Event::Expired(slot) => Some(close_slot(port, slot, protocol, conns)),
        Event::Done => None,
    }
}

// rule: Loop over a port
/// Serves the connections of a port, each as it becomes ready, until none will be accepted any more, and returns for how
/// many memory ran out, up to 2^64 - 1.
///
/// The port is a new one, and there is a place in `conns` for each of its slots, with nothing in it. `into`, of one cell
/// or more, is what is read into. What is sent on a connection is what the protocol and the desk make of what was
/// received there, all of it, or a first part if the peer takes no more in time or the connection fails.
pub fn run<P: Port, E: Protocol, D: Desk, W: Wait>(
    rt: &W,
    port: &mut P,
    protocol: &E,
    room: &mut E::Room,
    into: &mut [u8],
    conns: &mut [Option<E::Conn>],
    desk: &mut D,
) -> u64
    requires fresh { (k : ℕ) → P.slots port.old k ≡ unused }
    requires none { P.accepted port.old ≡ 0 }
    requires empty { (k : ℕ) → kept_at conns.old k ≡ None }
    requires many { length conns.old ≡ (P.terms port.old).capacity }
    requires room { 0 < length into.old }
    ensures served { (lost : ℕ) × (result ≡ min lost (2 ^ 64 - 1))
        × HasServed (speech_at (P.stopped port.old) E.pending E.phase E.is_lost (E.so_far protocol.now) (D.path desk.old) (D.content_type desk.old))
        D.steps desk.old desk.new (P.slots port.new) (counts_of (P.terms port.new).capacity (P.accepted port.new) lost) }
    ensures over { P.is_over port.new }
    ensures terms { P.terms port.new ≡ P.terms port.old }
    ensures stopped { P.stopped port.new ≡ P.stopped port.old }
    ensures own { P.own port.new ≡ P.own port.old }
{
    let mut lost = 0u64;
    for _ in rt.forever() {
        match serve_next(port, protocol, room, into, conns, desk) {
            Some(true) => lost = lost.saturating_add(1),
            Some(false) => {}
            None => return lost,
        }
    }
    unreachable!()
}
