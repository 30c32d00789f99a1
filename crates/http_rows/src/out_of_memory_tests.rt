// A session that runs out of memory: it has read and written nothing then, and one with memory sends its package.
//
// In the gate no allocation fails. `make allocations` lets each one of a test fail in turn, so of two tries one fails at most;
// or it lets all fail from one on.

use crate::desks::FILES;
use crate::session_tests::serve_over;
use http_memory::Connection;

// Whether one of two tries came to what it should, and none to anything else; `None` is a try that ran out of memory.
fn are_right(first: Option<bool>, second: Option<bool>) -> bool {
    first != Some(false) && second != Some(false) && (first.is_some() || second.is_some())
}

const SENT: &[u8] = b"GET /p/mini-1.0.bin?x=1 HTTP/1.1\r\n\r\n";

const GOT: &[u8] =
    b"HTTP/1.1 200 OK\r\nContent-Type: application/octet-stream\r\nContent-Length: 3\r\n\r\nabc";

// Whether a session sends the package whole.
fn downloads(rt: &HostRuntime) -> Option<bool> {
    let mut connection = Connection::new(rt.alloc(), SENT, usize::MAX);
    connection.output.bytes.reserve(GOT.len()).ok()?;
    let ended = serve_over(rt, &FILES, &mut connection);
    let got = connection.output.bytes.as_slice();
    match ended {
        (1, "finished") => Some(got == GOT),
        (0, "out of memory") if got.is_empty() && connection.input.left == SENT => None,
        _ => Some(false),
    }
}

// rule: Session
#[test]
fn serve_without_memory(rt: HostRuntime) {
    assert!(rt; are_right(downloads(&rt), downloads(&rt)));
}

// rule: Session
// Once its buffers are made, a session needs no more memory.
#[test]
fn serve_once_memory_ran_out(rt: HostRuntime) {
    assert!(rt; downloads(&rt) != Some(false));
}
