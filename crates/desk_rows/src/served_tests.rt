// Every byte of a server's connections, over ports in memory. Its two workers wait for each other and for the test.

use crate::meetings::Meeting;
use crate::rooms::Rooms;
use http_memory::{Peer, Script};
use kept_records::Unkept;
use omaha_server::{Place, ServedPort, ServedPorts, serve};
use service_desks::{KeptService, Service, builtin_service};
use std::alloc::{AllocError, Global};
use std::io;
use std::sync::Wait;
use std::thread::{Threads, join};
use std::time::Clock;
use values::Text;

/// What the one client of the first worker sends: two update checks.
pub(crate) const ASKS: &str = "\
POST /service/update2/json HTTP/1.1\r\nContent-Length: 227\r\n\r\n\
{\"request\":{\"app\":[{\"appid\":\"mini\",\"cohort\":\"stable:0\",\"packages\":{\"package\":[{\"fp\":\"1.ba7816bf8f01cfea414140de5dae2223b00361a396177a9cb410ff61f20015ad\"}]},\"updatecheck\":{},\"version\":\"1.0\"}],\"protocol\":\"3.1\",\"sessionid\":\"abc\"}}\
POST /service/update2/json HTTP/1.1\r\nContent-Length: 227\r\n\r\n\
{\"request\":{\"app\":[{\"appid\":\"mini\",\"cohort\":\"stable:0\",\"packages\":{\"package\":[{\"fp\":\"1.ba7816bf8f01cfea414140de5dae2223b00361a396177a9cb410ff61f20015ad\"}]},\"updatecheck\":{},\"version\":\"1.0\"}],\"protocol\":\"3.1\",\"sessionid\":\"abc\"}}";

/// What the two clients of the second worker send, of which the first one goes in the middle of a message.
pub(crate) const OTHERS: &str = "\
POST /service/update2/json HTTP/1.1\r\nContent-Length: 100\r\n\r\n{\"request\"|\
GET /p/none.bin HTTP/1.1\r\n\r\n";

// What the first client gets: the release 2.0, twice.
const OFFERED: &str = "\
HTTP/1.1 200 OK\r\nContent-Type: application/json\r\nContent-Length: 499\r\n\r\n\
)]}'\n{\"response\":{\"app\":[{\"appid\":\"mini\",\"cohort\":\"stable:0\",\"cohortname\":\"stable\",\"status\":\"ok\",\"updatecheck\":{\"manifest\":{\"packages\":{\"package\":[{\"fp\":\"1.248d6a61d20638b8e5c026930c3e6039a33ce45964ff2167f6ecedd419db06c1\",\"hash_sha256\":\"248d6a61d20638b8e5c026930c3e6039a33ce45964ff2167f6ecedd419db06c1\",\"name\":\"mini-2.0.bin\",\"size\":56}]},\"version\":\"2.0\"},\"status\":\"ok\",\"urls\":{\"url\":[{\"codebase\":\"http://m0.example/p/\"}]}}}],\"daystart\":{\"elapsed_days\":6940,\"elapsed_seconds\":3661},\"protocol\":\"3.1\"}}\
HTTP/1.1 200 OK\r\nContent-Type: application/json\r\nContent-Length: 499\r\n\r\n\
)]}'\n{\"response\":{\"app\":[{\"appid\":\"mini\",\"cohort\":\"stable:0\",\"cohortname\":\"stable\",\"status\":\"ok\",\"updatecheck\":{\"manifest\":{\"packages\":{\"package\":[{\"fp\":\"1.248d6a61d20638b8e5c026930c3e6039a33ce45964ff2167f6ecedd419db06c1\",\"hash_sha256\":\"248d6a61d20638b8e5c026930c3e6039a33ce45964ff2167f6ecedd419db06c1\",\"name\":\"mini-2.0.bin\",\"size\":56}]},\"version\":\"2.0\"},\"status\":\"ok\",\"urls\":{\"url\":[{\"codebase\":\"http://m0.example/p/\"}]}}}],\"daystart\":{\"elapsed_days\":6940,\"elapsed_seconds\":3661},\"protocol\":\"3.1\"}}";

// What the other clients get.
const MISSING: &str = "\
|\
HTTP/1.1 404 Not Found\r\nContent-Length: 0\r\n\r\n";

fn strings_of(alloc: Global) -> Result<(Text, Text, Text), AllocError> {
    let address = Text::copy_of(alloc, "clients")?;
    let packages = Text::copy_of(alloc, ".")?;
    Ok((address, packages, Text::copy_of(alloc, "0.2.0")?))
}

// Two workers, which serve one connection and two.
fn place_of(alloc: Global) -> Result<Place, AllocError> {
    let (address, packages, version) = strings_of(alloc)?;
    Ok(Place {
        address,
        operator: None,
        packages,
        workers: 2,
        sessions: Some(3),
        edits: None,
        log: None,
        seconds: 1,
        idle: 1,
        connections: 2,
        pinned_tables: 0,
        packages_must_exist: false,
        named: None,
        version,
    })
}

// Whether the peers of a port got this, with a `|` between two.
fn have_got(served: &ServedPort<Script>, got: &str) -> Option<bool> {
    let seat = served.port.seats.get(0)?;
    let mut peers = seat.peers.iter();
    for each in got.split('|') {
        let peer: &Peer = peers.next()?;
        if peer.got.as_slice() != each.as_bytes() {
            return Some(false);
        }
    }
    Some(peers.next().is_none() && served.lost == 0)
}

// Whether all got what they should.
fn are_served(ports: &ServedPorts<Script>) -> Option<bool> {
    let first = have_got(ports.clients.get(0)?, OFFERED)?;
    let second = have_got(ports.clients.get(1)?, MISSING)?;
    Some(first && second && ports.clients.len() == 2)
}

// Whether a server whose gate is a meeting sends them that, and ends with the total of its one mirror.
fn is_served<R: Clock + Threads + Wait + Sync + AllocGlobal>(
    rt: &R,
    service: Service,
    place: &Place,
    meeting: &Meeting<'_, R>,
) -> bool {
    let rooms = Rooms { rt };
    let kept = KeptService {
        service,
        records: Unkept::new(),
    };
    let mut out = Vec::new(rt.alloc());
    let served = serve(rt, &rooms, kept, place, meeting, &mut out, &mut io::sink());
    let is_told = out.as_slice() == b"ready\nm0 112\n".as_slice();
    match served {
        Ok(ports) => is_told && are_served(&ports) == Some(true),
        Err(_) => false,
    }
}

fn serves<R: Clock + Threads + Wait + Sync + AllocGlobal>(
    rt: &R,
    meeting: &Meeting<'_, R>,
) -> Option<bool> {
    let service = builtin_service(rt.alloc()).ok()?;
    match place_of(rt.alloc()) {
        Ok(place) => Some(is_served(rt, service, &place, meeting)),
        Err(_) => None,
    }
}

// Whether it is so while the test meets the workers.
fn meets<R: Clock + Threads + Wait + Sync + AllocGlobal>(rt: &R) -> bool {
    let meeting = &Meeting::new(rt);
    let (is_served, ()) = join(rt, || serves(rt, meeting), || meeting.meet_workers());
    is_served == Some(true) && meeting.is_complete()
}

// rule: Clock of a port
// rule: Run of a server
// rule: Sessions of a server
#[test]
fn workers_begin_at_once_and_each_peer_gets_its_replies_byte_for_byte(rt: HostRuntime) {
    assert!(rt; meets(&rt));
}
