// The connections of a port, served by a site's sessions.

ghost use Rattle.std.specs.Prelude.{◌≡◌, ◌<◌, ℕ, None, length, vec_len, IfOk};
ghost use Rattle.http_desks.specs.Uses.{IsUse};
ghost use Rattle.http_ports.specs.Loops.{kept_at};
ghost use Rattle.http_ports.specs.Traffic.{IsTime, unused};
ghost use Rattle.http_sessions.specs.Ports.{FitEnded, HasTalked};

use crate::buffers::Buffers;
use crate::talks::talks::Talks;
use crate::talks::watched::{Watched, WatchedTalks};
use http_desks::{Desk, Packages};
use http_ports::{Port, WatchEach, run};
use std::alloc::{AllocError, Global};
use std::marker::Model;
use std::sync::Wait;

// How many bytes are read at a time.
const READ: usize = 16384;

/// Room for the connections of a port, of which a watch keeps something; contracts see for how many.
#[derive(Drop)]
pub struct Connections<S: Drop> {
    room: Buffers,
    into: Vec<u8>,
    conns: Vec<Option<Watched<S>>>,
}

impl<S: Drop> Model for Connections<S> {
    ghost use Rattle.std.specs.Prelude.{◌≡◌, ◌<◌, ℕ, None, vec_len};
    ghost use Rattle.http_ports.specs.Loops.{kept_at};

    ghost Value = { ℕ };

    ghost view = { λ connections. vec_len connections.conns };

    ghost invariant = { λ connections. (0 < vec_len connections.into) × ((k : ℕ) → kept_at connections.conns.items k ≡ None) };
}

// Places without a connection.
fn free_places<S: Drop>(alloc: Global, count: usize) -> Result<Vec<Option<Watched<S>>>, AllocError>
    ensures many { IfOk result (λ conns. vec_len conns ≡ count) }
    ensures free { IfOk result (λ conns. (k : ℕ) → kept_at conns.items k ≡ None) }
{
    let mut conns = Vec::with_capacity(alloc, count)?;
    for _ in 0..count {
        conns.push(None)?;
    }
    Ok(conns)
}

impl<S: Drop> Connections<S> {
    /// Makes room for so many connections at once.
    pub fn new(alloc: Global, capacity: usize) -> Result<Connections<S>, AllocError>
        ensures capacity { IfOk result (λ connections. connections ≡ capacity) }
    {
        let room = Buffers::new(alloc)?;
        let into = vec![in alloc; 0; READ]?;
        let conns = free_places(alloc, capacity)?;
        Ok(Connections { room, into, conns })
    }
}

// rule: Timestamp of a reply
// rule: Begin of a message
// rule: Sessions of a port
/// Serves the connections of a port by a site's sessions, each as it becomes ready, until none will be accepted any more,
/// and returns for how many memory ran out, up to 2^64 - 1. The watch is shown each. The desk is asked at timestamps that the
/// port gives: for each message once it has come whole, and before the first byte of its reply is sent.
///
/// The port is a new one, and there is room for as many connections as it may hold. Serving takes memory for what a
/// connection waits to have whole and for its replies, and for nothing else.
pub fn serve_port<P: Port, Z: Packages, V: WatchEach, D: Desk, R: Wait + AllocGlobal>(
    rt: &R,
    port: &mut P,
    site: &Z,
    watch: &V,
    connections: Connections<V::Seen>,
    desk: &mut D,
) -> u64
    requires fresh { (k : ℕ) → P.slots port.old k ≡ unused }
    requires none { P.accepted port.old ≡ 0 }
    requires many { connections ≡ (P.terms port.old).capacity }
    ensures served { HasTalked (IsUse (D.path desk.old) IsTime (Z.sizes site.now) (Z.reads site.now)) (D.content_type desk.old) D.steps desk.old desk.new
        (record { terms = P.terms port.new; slots = P.slots port.new; accepted = P.accepted port.new; lost = result }) }
    ensures clock { (k : ℕ) → FitEnded (P.stopped port.old) (P.slots port.new k).ended }
    ensures over { P.is_over port.new }
    ensures terms { P.terms port.new ≡ P.terms port.old }
    ensures own { P.own port.new ≡ P.own port.old }
{
    let Connections { room, into, conns } = connections;
    let (mut room, mut into, mut conns) = (room, into, conns);
    let alloc = rt.alloc();
    let talks = WatchedTalks {
        talks: Talks { alloc, site },
        watch,
    };
    run(rt, port, &talks, &mut room, &mut into, &mut conns, desk)
}
