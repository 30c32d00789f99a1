// A server's system in memory.

ghost use Rattle.std.specs.Prelude.{◌≡◌, All, IfOk, IfSome, map};
ghost use Rattle.desk_rows.specs.NewScripts.{IsNewScript};

use http_desks::{Desk, Packages};
use http_memory::{Peer, Script, Seat};
use http_ports::{Port, Terms, WatchEach};
use http_sessions::{Connections, serve_port};
use http_wire::Failed;
use std::alloc::{AllocError, Global};
use std::fs::File;
use std::io;
use std::io::ErrorKind;
use std::sync::Wait;
use std::time::Clock;
use systems::{OpenError, System};

// No packages.
struct NoFiles;

impl Packages for NoFiles {
    ghost use Rattle.std.specs.Prelude.{⊤};

    ghost reads = { λ _ _ _ _ _. ⊤ };

    ghost sizes = { λ _ _ _. ⊤ };

    fn size(&self, _name: &[u8]) -> Option<u64> {
        None
    }

    fn read_at(&self, _name: &[u8], _at: u64, _into: &mut [u8]) -> Result<(), Failed> {
        Err(Failed)
    }
}

/// Ports in memory, a folder without files, and no log.
#[derive(Drop)]
pub(crate) struct Rooms<'a, R> {
    /// The runtime.
    pub(crate) rt: &'a R,
}

// What the peers of a port send, with a `|` between two: of the one of one connection, and of another one.
fn sent_at(terms: &Terms) -> &'static str {
    match terms.limit {
        1 => crate::served_tests::ASKS,
        _ => crate::served_tests::OTHERS,
    }
}

// A peer that sends this, in pieces of 100 bytes, and ends.
fn peer_of(alloc: Global, sent: &str) -> Option<Peer> {
    let input = Vec::from_slice(alloc, sent.as_bytes()).ok()?;
    Peer::new(alloc, input, 100, 5000).ok()
}

// So many slots without a peer.
fn free_seats(alloc: Global, count: usize) -> Option<Vec<Seat>> {
    let mut seats = Vec::new(alloc);
    for _ in 0..count {
        seats.push(Seat::new(Vec::new(alloc))).ok()?;
    }
    Some(seats)
}

// A port of these terms, all of whose peers are at its first slot.
fn open_one(alloc: Global, terms: Terms) -> Option<Script>
    ensures terms { IfSome result (λ script. script.terms ≡ terms) }
    ensures new { IfSome result IsNewScript }
{
    let mut seats = free_seats(alloc, terms.capacity)?;
    let first = seats.get_mut(0)?;
    for sent in sent_at(&terms).split('|') {
        first.peers.push(peer_of(alloc, sent)?).ok()?;
    }
    let mut script = Script::with_terms(seats, Vec::new(alloc), terms)?;
    script.seconds = 1767229261;
    Some(script)
}

// A port of each of these terms.
fn open_all(alloc: Global, terms: &[Terms]) -> Result<Vec<Script>, OpenError>
    ensures terms { IfOk result (λ ports. map (λ port. port.terms) ports.items ≡ terms.now) }
    ensures new { IfOk result (λ ports. All IsNewScript ports.items) }
{
    let mut ports = Vec::new(alloc);
    for each in terms {
        let Some(port) = open_one(alloc, *each) else {
            return Err(OpenError::Memory);
        };
        let Ok(()) = ports.push(port) else {
            return Err(OpenError::Memory);
        };
    }
    Ok(ports)
}

impl<R: Clock + Wait + AllocGlobal> System<Script> for Rooms<'_, R> {
    ghost use Rattle.std.specs.Prelude.{⊤};

    ghost edges = { λ _. record {
      holds = λ _ _ _. ⊤;
      listens = λ _ _. ⊤;
      folders = λ _. ⊤;
      sizes = λ _ _ _. ⊤;
      reads = λ _ _ _ _ _. ⊤;
      logs = λ _. ⊤;
    } };

    fn capacity(&self, _connections: u64, _ports: usize) -> usize {
        1
    }

    fn open_ports(&self, _address: &str, terms: &[Terms]) -> Result<Vec<Script>, OpenError> {
        open_all(self.rt.alloc(), terms)
    }

    fn address_of(
        &self,
        alloc: Global,
        _port: &Script,
        address: &str,
    ) -> Result<String, AllocError> {
        format!(in alloc; "{address}")
    }

    fn open_log(&self, _path: &str) -> io::Result<File> {
        Err(io::Error::from(ErrorKind::NotFound))
    }

    fn has_folder(&self, _path: &str) -> bool {
        true
    }

    fn package_size(&self, _folder: &str, _name: &[u8]) -> Option<u64> {
        None
    }

    fn serve_port<'f, Q: Port, D: Desk, V: WatchEach>(
        &'f self,
        _folder: &'f str,
        port: &mut Q,
        room: Connections<V::Seen>,
        desk: &mut D,
        watch: &V,
    ) -> u64 {
        serve_port(self.rt, port, &NoFiles, watch, room, desk)
    }
}
