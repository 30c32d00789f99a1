// One connection of a port, served until it rests or ends.

ghost use Rattle.std.specs.Prelude.{◌≡◌, ◌<◌, [], length};
ghost use Rattle.http_ports.specs.Speech.{Waiting, speech_at};
ghost use Rattle.http_ports.specs.Steps.{IsPassing, IsStep, Serves, ServesOut};
ghost use Rattle.http_ports.specs.Traffic.{Elsewhere, IsOpen};

use crate::event::{Received, Sent};
use crate::port::Port;
use crate::protocol::{Next, Protocol};
use http_desks::Desk;

// How many steps a connection makes before others have their turn.
const STEPS: usize = 4;

// What a step comes to.
#[derive(Clone, Copy, Drop)]
pub(crate) enum Step {
    // Bytes passed.
    Passed,
    // The connection waits for its peer.
    Waits,
    // It ends.
    Over,
}

// Sends a first part of the pending bytes.
fn push<P: Port, E: Protocol, D: Desk>(
    port: &mut P,
    slot: usize,
    protocol: &E,
    conn: &mut E::Conn,
    desk: &D,
) -> Step
    requires live { IsOpen (P.slots port.old slot) }
    requires some { 0 < length (E.pending conn.old) }
    ensures serves { Serves (speech_at (P.stopped port.old) E.pending E.phase E.is_lost (E.so_far protocol.now) (D.path desk.now) (D.content_type desk.now))
        D.steps (IsStep result) (P.slots port.old slot) conn.old desk.now (P.slots port.new slot) conn.new desk.now }
    ensures live { IsOpen (P.slots port.new slot) }
    ensures passing { IsPassing result (P.slots port.new slot) }
    ensures elsewhere { Elsewhere slot (P.slots port.old) (P.slots port.new) }
    ensures accepted { P.accepted port.new ≡ P.accepted port.old }
    ensures terms { P.terms port.new ≡ P.terms port.old }
    ensures stopped { P.stopped port.new ≡ P.stopped port.old }
    ensures own { P.own port.new ≡ P.own port.old }
{
    match port.write(slot, protocol.pending(conn)) {
        Sent::Bytes(count) => {
            protocol.sent(conn, count);
            Step::Passed
        }
        Sent::Nothing => Step::Waits,
        Sent::Failure => Step::Over,
    }
}

// Reads what has come.
fn pull<P: Port, E: Protocol, D: Desk>(
    port: &mut P,
    slot: usize,
    protocol: &E,
    into: &mut [u8],
    conn: &mut E::Conn,
    desk: &D,
) -> Step
    requires live { IsOpen (P.slots port.old slot) }
    requires room { 0 < length into.old }
    requires sent { E.pending conn.old ≡ [] }
    requires waits { E.phase conn.old ≡ Waiting }
    ensures serves { Serves (speech_at (P.stopped port.old) E.pending E.phase E.is_lost (E.so_far protocol.now) (D.path desk.now) (D.content_type desk.now))
        D.steps (IsStep result) (P.slots port.old slot) conn.old desk.now (P.slots port.new slot) conn.new desk.now }
    ensures live { IsOpen (P.slots port.new slot) }
    ensures passing { IsPassing result (P.slots port.new slot) }
    ensures elsewhere { Elsewhere slot (P.slots port.old) (P.slots port.new) }
    ensures accepted { P.accepted port.new ≡ P.accepted port.old }
    ensures terms { P.terms port.new ≡ P.terms port.old }
    ensures stopped { P.stopped port.new ≡ P.stopped port.old }
    ensures own { P.own port.new ≡ P.own port.old }
{
    match port.read(slot, into) {
        Received::Bytes(count) => {
            protocol.take(conn, &into[..count]);
            Step::Passed
        }
        Received::Nothing => Step::Waits,
        Received::End => Step::Over,
        Received::Failure => Step::Over,
    }
}

// rule: Close of a connection
// Makes one step of a connection: it sends if bytes are pending, else it goes on by the desk, at a time
// that the port gives for it, else it reads.
fn advance<P: Port, E: Protocol, D: Desk>(
    port: &mut P,
    slot: usize,
    protocol: &E,
    room: &mut E::Room,
    into: &mut [u8],
    conn: &mut E::Conn,
    desk: &mut D,
) -> Step
    requires live { IsOpen (P.slots port.old slot) }
    requires room { 0 < length into.old }
    ensures serves { Serves (speech_at (P.stopped port.old) E.pending E.phase E.is_lost (E.so_far protocol.now) (D.path desk.old) (D.content_type desk.old))
        D.steps (IsStep result) (P.slots port.old slot) conn.old desk.old (P.slots port.new slot) conn.new desk.new }
    ensures live { IsOpen (P.slots port.new slot) }
    ensures passing { IsPassing result (P.slots port.new slot) }
    ensures elsewhere { Elsewhere slot (P.slots port.old) (P.slots port.new) }
    ensures accepted { P.accepted port.new ≡ P.accepted port.old }
    ensures terms { P.terms port.new ≡ P.terms port.old }
    ensures stopped { P.stopped port.new ≡ P.stopped port.old }
    ensures own { P.own port.new ≡ P.own port.old }
    ensures path { D.path desk.new ≡ D.path desk.old }
    ensures content_type { D.content_type desk.new ≡ D.content_type desk.old }
{
    if !protocol.pending(conn).is_empty() {
        return push(port, slot, protocol, conn, desk);
    }
    let seconds = port.timestamp(slot, protocol.waiting(conn));
    match protocol.go_on(room, conn, desk, seconds) {
        Next::Made => push(port, slot, protocol, conn, desk),
        Next::Waits => pull(port, slot, protocol, into, conn, desk),
        Next::Over => Step::Over,
    }
}

// Makes steps of a connection until it waits, ends or has had its turn.
fn advance_far<P: Port, E: Protocol, D: Desk>(
    port: &mut P,
    slot: usize,
    protocol: &E,
    room: &mut E::Room,
    into: &mut [u8],
    conn: &mut E::Conn,
    desk: &mut D,
) -> Step
    requires live { IsOpen (P.slots port.old slot) }
    requires room { 0 < length into.old }
    ensures serves { Serves (speech_at (P.stopped port.old) E.pending E.phase E.is_lost (E.so_far protocol.now) (D.path desk.old) (D.content_type desk.old))
        D.steps (IsStep result) (P.slots port.old slot) conn.old desk.old (P.slots port.new slot) conn.new desk.new }
    ensures live { IsOpen (P.slots port.new slot) }
    ensures passing { IsPassing result (P.slots port.new slot) }
    ensures elsewhere { Elsewhere slot (P.slots port.old) (P.slots port.new) }
    ensures accepted { P.accepted port.new ≡ P.accepted port.old }
    ensures terms { P.terms port.new ≡ P.terms port.old }
    ensures stopped { P.stopped port.new ≡ P.stopped port.old }
    ensures own { P.own port.new ≡ P.own port.old }
    ensures path { D.path desk.new ≡ D.path desk.old }
    ensures content_type { D.content_type desk.new ≡ D.content_type desk.old }
{
    for _ in 1..STEPS {
        match advance(port, slot, protocol, room, into, conn, desk) {
            Step::Passed => {}
            Step::Waits => return Step::Waits,
            Step::Over => return Step::Over,
        }
    }
    advance(port, slot, protocol, room, into, conn, desk)
}

// rule: Connection of a port
// Serves a connection until it rests and is given back, or ends: then whether memory ran out for it.
pub(crate) fn serve_out<P: Port, E: Protocol, D: Desk>(
    port: &mut P,
    slot: usize,
    protocol: &E,
    room: &mut E::Room,
    into: &mut [u8],
    conn: E::Conn,
    desk: &mut D,
) -> Result<E::Conn, bool>
    requires live { IsOpen (P.slots port.old slot) }
    requires room { 0 < length into.old }
    ensures serves { ServesOut (speech_at (P.stopped port.old) E.pending E.phase E.is_lost (E.so_far protocol.now) (D.path desk.old) (D.content_type desk.old))
        D.steps (P.slots port.old slot) conn desk.old (P.slots port.new slot) result desk.new }
    ensures elsewhere { Elsewhere slot (P.slots port.old) (P.slots port.new) }
    ensures accepted { P.accepted port.new ≡ P.accepted port.old }
    ensures terms { P.terms port.new ≡ P.terms port.old }
    ensures stopped { P.stopped port.new ≡ P.stopped port.old }
    ensures own { P.own port.new ≡ P.own port.old }
    ensures path { D.path desk.new ≡ D.path desk.old }
    ensures content_type { D.content_type desk.new ≡ D.content_type desk.old }
{
    let mut conn = conn;
    match advance_far(port, slot, protocol, room, into, &mut conn, desk) {
        Step::Passed => {
            port.again(slot);
            Ok(conn)
        }
        Step::Waits => Ok(conn),
        Step::Over => {
            port.close(slot);
            Err(protocol.end(conn))
        }
    }
}
