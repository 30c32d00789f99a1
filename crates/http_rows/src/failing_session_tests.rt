// Sessions whose source, sink or packages fail at one call, whichever it is.

use crate::desks::{FILES, letters};
use crate::session_tests::serve_over;
use http_memory::{Connection, Input, Output, Shelf};

// A post that is echoed, whose body looks like a head, a download, and a message to no path.
const SENT: &[u8] =
    b"POST /echo HTTP/1.1\r\nContent-Length: 18\r\n\r\nGET /x HTTP/1.1\r\n\rGET /p/mini-1.0.bin HTTP/1.1\r\n\r\nGET / HTTP/1.1\r\n\r\n";

const WRITTEN: &[u8] =
    b"HTTP/1.1 200 OK\r\nContent-Type: text/plain\r\nContent-Length: 18\r\n\r\nGET /x HTTP/1.1\r\n\rHTTP/1.1 200 OK\r\nContent-Type: application/octet-stream\r\nContent-Length: 3\r\n\r\nabcHTTP/1.1 404 Not Found\r\nContent-Length: 0\r\n\r\n";

// Where each message ends, and its reply.
const ENDS: [(usize, usize); 3] = [(61, 83), (93, 164), (111, 209)];

// The replies to the messages that are whole in so many bytes.
fn replies_to(read: usize) -> &'static [u8] {
    let mut end = 0;
    for (message, reply) in ENDS {
        if message <= read {
            end = reply;
        }
    }
    WRITTEN.get(..end).unwrap_or(b"")
}

// How a session ends one of whose reads fails after so many; whether the connection gets the replies to what was read
// before. A read gives so many bytes.
fn fail_read(rt: &HostRuntime, piece: usize, good: usize) -> ((u32, &'static str), bool) {
    let mut input = Input::new(SENT, piece);
    input.fails_after = Some(good);
    let output = Output::new(rt.alloc(), 1000);
    let mut connection = Connection { input, output };
    let ended = serve_over(rt, &FILES, &mut connection);
    let read = SENT.len().saturating_sub(connection.input.left.len());
    (
        ended,
        connection.output.bytes.as_slice() == replies_to(read),
    )
}

// Lets each read of a session fail until none does, and returns how many there are; `None` if a connection gets anything
// but the replies to what was read before.
fn count_reads(rt: &HostRuntime, piece: usize) -> Option<usize> {
    for good in 0..1000 {
        match fail_read(rt, piece, good) {
            ((3, "finished"), true) => return Some(good),
            ((0, "read failed"), true) => {}
            _ => return None,
        }
    }
    None
}

// rule: Session
// The last read finds the end of the input.
#[test]
fn replies_to_whole_messages_before_each_failed_read(rt: HostRuntime) {
    let reads = (count_reads(&rt, 1), count_reads(&rt, 1000));
    assert!(rt; reads == (Some(112), Some(2)));
}

// How a session ends one of whose writes fails after so many; how many bytes the connection gets, if they are a first part
// of the replies. A write takes so many bytes.
fn fail_write(rt: &HostRuntime, piece: usize, good: usize) -> ((u32, &'static str), Option<usize>) {
    let mut output = Output::new(rt.alloc(), piece);
    output.fails_after = Some(good);
    let input = Input::new(SENT, 1000);
    let mut connection = Connection { input, output };
    let ended = serve_over(rt, &FILES, &mut connection);
    let written = &connection.output.bytes;
    let is_first = WRITTEN.starts_with(written) && connection.output.calls == good;
    (ended, is_first.then_some(written.len()))
}

// Lets each write of a session fail until none does, and returns how many there are; `None` if a connection gets anything
// but a first part of the replies.
fn count_writes(rt: &HostRuntime, piece: usize) -> Option<usize> {
    for good in 0..1000 {
        match fail_write(rt, piece, good) {
            ((3, "finished"), Some(209)) => return Some(good),
            ((0, "write failed"), Some(_)) => {}
            _ => return None,
        }
    }
    None
}

// rule: Head of a reply
// rule: Sending whole
// rule: Session
// A download has a write for its head and one for its bytes.
#[test]
fn writes_a_first_part_of_the_replies_before_each_failed_write(rt: HostRuntime) {
    let writes = (count_writes(&rt, 1), count_writes(&rt, 1000));
    assert!(rt; writes == (Some(209), Some(4)));
}

const DOWNLOAD: &[u8] = b"GET /p/letters.bin HTTP/1.1\r\n\r\nGET / HTTP/1.1\r\n\r\n";

const HEAD: &[u8] =
    b"HTTP/1.1 200 OK\r\nContent-Type: application/octet-stream\r\nContent-Length: 200000\r\n\r\n";

// How many letters `a` are written after the head, if nothing else is.
fn count_letters(written: &[u8]) -> Option<usize> {
    let letters = written.strip_prefix(HEAD)?;
    if letters.iter().all(|letter| *letter == b'a') {
        Some(letters.len())
    } else {
        None
    }
}

// How a session ends of whose download so many bytes can be read; how many letters the connection gets.
fn cut_download(rt: &HostRuntime, readable: u64) -> ((u32, &'static str), Option<usize>) {
    let files = [letters(b"letters.bin", 200_000, readable)];
    let packages = Shelf { files: &files };
    let mut connection = Connection::new(rt.alloc(), DOWNLOAD, usize::MAX);
    let ended = serve_over(rt, &packages, &mut connection);
    (ended, count_letters(&connection.output.bytes))
}

// Lets each block of a download be unreadable until none is, and returns how many there are; `None` if a connection gets
// anything but the blocks before.
fn count_blocks(rt: &HostRuntime) -> Option<usize> {
    for good in 0..100usize {
        match cut_download(rt, 65536 * good as u64) {
            ((2, "finished"), _) => return Some(good),
            ((1, "cut"), Some(count)) if count == 65536 * good => {}
            _ => return None,
        }
    }
    None
}

// rule: Download of a package
// rule: End of a session
// rule: File in memory
#[test]
fn sends_the_blocks_before_each_unreadable_one(rt: HostRuntime) {
    assert!(rt; count_blocks(&rt) == Some(4));
}
