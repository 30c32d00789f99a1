use crate::desks::{Echo, FILES};
use crate::lines::{columns, expand};
use crate::writers::STOPPED;
use http_memory::{Connection, Shelf};
use http_sessions::{End, Fault, Served, serve};

// A row is what a connection sends, and what it gets: the replies, how many were begun, and how the
// session ended. `~` is CR LF, `^` a lone LF, `@` NUL, and what is repeated is between two `$`.
const SESSIONS: &str = "\
GET / HTTP/1.1~~|HTTP/1.1 404 Not Found~Content-Length: 0~~|1|finished
GET /echo HTTP/1.1~~|HTTP/1.1 405 Method Not Allowed~Allow: POST~Content-Length: 0~~|1|finished
HEAD /p/mini-1.0.bin HTTP/1.1~~|HTTP/1.1 405 Method Not Allowed~Allow: GET~Content-Length: 0~~|1|finished
HEAD /p/none.bin HTTP/1.1~~|HTTP/1.1 404 Not Found~Content-Length: 0~~|1|finished
GET / HTTP/3.9~~|HTTP/1.1 400 Bad Request~Content-Length: 0~Connection: close~~|1|refused
POST / HTTP/1.1~Transfer-Encoding: chunked~~|HTTP/1.1 501 Not Implemented~Content-Length: 0~Connection: close~~|1|refused
POST / HTTP/1.1~Content-Length: 3~Transfer-Encoding: chunked~~abc|HTTP/1.1 501 Not Implemented~Content-Length: 0~Connection: close~~|1|refused
POST / HTTP/1.1~Content-Length: 3~Transfer-Encoding: chunked~Content-Length: 4~~abcd|HTTP/1.1 501 Not Implemented~Content-Length: 0~Connection: close~~|1|refused
POST / HTTP/1.1~Content-Length: 3~Content-Length: 3~~abc|HTTP/1.1 400 Bad Request~Content-Length: 0~Connection: close~~|1|refused
POST / HTTP/1.1~~|HTTP/1.1 411 Length Required~Content-Length: 0~Connection: close~~|1|refused
POST / HTTP/1.1~Content-Length: 5x~~|HTTP/1.1 400 Bad Request~Content-Length: 0~Connection: close~~|1|refused
POST / HTTP/1.1~Content-Length: 262145~~|HTTP/1.1 413 Content Too Large~Content-Length: 0~Connection: close~~|1|refused
POST / HTTP/1.1~Content-Length: 18446744073709551616~~|HTTP/1.1 413 Content Too Large~Content-Length: 0~Connection: close~~|1|refused
post /echo HTTP/1.1~~|HTTP/1.1 405 Method Not Allowed~Allow: POST~Content-Length: 0~~|1|finished
POST /echo HTTP/1.1~Content-Length: 1~~{|HTTP/1.1 400 Bad Request~Content-Length: 0~~|1|finished
POST /echo HTTP/1.1~Content-Length: 4~~base|HTTP/1.1 409 Conflict~Content-Type: text/plain~Content-Length: 8~~stale 2^|1|finished
POST /echo HTTP/1.1~Content-Length: 5~~fault|HTTP/1.1 422 Unprocessable Content~Content-Type: text/plain~Content-Length: 10~~refused 0^|1|finished
POST /echo HTTP/1.1~Content-Length: 6~~memory|HTTP/1.1 500 Internal Server Error~Content-Length: 0~Connection: close~~|1|refused
POST /echo HTTP/1.1~Content-Length: 6~~closedGET / HTTP/1.1~~|HTTP/1.1 500 Internal Server Error~Content-Length: 0~Connection: close~~|1|refused
POST /echo HTTP/1.1~Content-Length: 30~~{\"request\":{\"protocol\":\"3.1\"}}|HTTP/1.1 200 OK~Content-Type: text/plain~Content-Length: 95~~)]}'^{\"response\":{\"app\":[],\"daystart\":{\"elapsed_days\":0,\"elapsed_seconds\":0},\"protocol\":\"3.1\"}}|1|finished
POST /echo?x HTTP/1.1~Content-Length: 18~~GET / HTTP/1.1~~GET|HTTP/1.1 200 OK~Content-Type: text/plain~Content-Length: 18~~GET / HTTP/1.1~~|1|unfinished
GET /p/mini-1.0.bin?x=1 HTTP/1.1~~|HTTP/1.1 200 OK~Content-Type: application/octet-stream~Content-Length: 3~~abc|1|finished
GET /p/mini-1.0.bin?x=1 HTTP/1.0~~|HTTP/1.1 200 OK~Content-Type: application/octet-stream~Content-Length: 3~Connection: close~~abc|1|finished
GET /p/changed.bin HTTP/1.1~~|HTTP/1.1 200 OK~Content-Type: application/octet-stream~Content-Length: 3~~|1|cut
GET /p/short.bin HTTP/1.1~~GET / HTTP/1.1~~|HTTP/1.1 200 OK~Content-Type: application/octet-stream~Content-Length: 3~~|1|cut
GET /p/missing.bin HTTP/1.0~~|HTTP/1.1 200 OK~Content-Type: application/octet-stream~Content-Length: 3~Connection: close~~|1|cut
GET /p/a HTTP/1.1~Content-Length: 4~~{ ^~GET / HTTP/1.1~~|HTTP/1.1 200 OK~Content-Type: application/octet-stream~Content-Length: 3~~abcHTTP/1.1 404 Not Found~Content-Length: 0~~|2|finished
GET /page HTTP/1.1~~|HTTP/1.1 200 OK~Content-Type: text/plain; charset=utf-8~Content-Length: 3~~one|1|finished
GET /page?x HTTP/1.1~Host: localhost:8081~~|HTTP/1.1 200 OK~Content-Type: text/plain; charset=utf-8~Content-Length: 3~~one|1|finished
GET /page HTTP/1.1~host: LocalHost~Connection: close~~|HTTP/1.1 200 OK~Content-Type: text/plain; charset=utf-8~Content-Length: 3~Connection: close~~one|1|finished
GET /page HTTP/1.1~Host: 127.0.0.1:8081~~|HTTP/1.1 200 OK~Content-Type: text/plain; charset=utf-8~Content-Length: 3~~one|1|finished
GET /page HTTP/1.1~Host: [::1]:8081~~|HTTP/1.1 200 OK~Content-Type: text/plain; charset=utf-8~Content-Length: 3~~one|1|finished
GET /page HTTP/1.1~Host: ~~|HTTP/1.1 200 OK~Content-Type: text/plain; charset=utf-8~Content-Length: 3~~one|1|finished
GET /page HTTP/1.1~Host: example.com~~|HTTP/1.1 403 Forbidden~Content-Length: 0~~|1|finished
GET /page HTTP/1.1~Host: localhost.example:8081~~|HTTP/1.1 403 Forbidden~Content-Length: 0~~|1|finished
GET /page HTTP/1.1~Host: 127.0.0.1.example~~|HTTP/1.1 403 Forbidden~Content-Length: 0~~|1|finished
GET /page HTTP/1.1~Host: localhost~Host: example.com~~|HTTP/1.1 403 Forbidden~Content-Length: 0~~|1|finished
POST /page HTTP/1.1~Content-Length: 0~~|HTTP/1.1 405 Method Not Allowed~Allow: GET~Content-Length: 0~~|1|finished
HEAD /page HTTP/1.1~~|HTTP/1.1 405 Method Not Allowed~Allow: GET~Content-Length: 0~~|1|finished
GET /metrics HTTP/1.1~~|HTTP/1.1 200 OK~Content-Type: text/plain; version=0.0.4; charset=utf-8~Content-Length: 3~~two|1|finished
GET /html HTTP/1.1~~|HTTP/1.1 200 OK~Content-Type: text/html; charset=utf-8~Content-Security-Policy: default-src 'none'; style-src 'unsafe-inline'~Content-Length: 5~~three|1|finished
GET /memory HTTP/1.1~~|HTTP/1.1 500 Internal Server Error~Content-Length: 0~Connection: close~~|1|refused
GET / HTTP/1.1~Host: example.com~~|HTTP/1.1 404 Not Found~Content-Length: 0~~|1|finished
GET /p/mini-1.0.bin HTTP/1.1~Host: example.com~~|HTTP/1.1 200 OK~Content-Type: application/octet-stream~Content-Length: 3~~abc|1|finished
GET / HTTP/1.1~Connection: x, Close~~GET / HTTP/1.1~~|HTTP/1.1 404 Not Found~Content-Length: 0~Connection: close~~|1|finished
GET / HTTP/1.1~~~|HTTP/1.1 404 Not Found~Content-Length: 0~~|1|unfinished
GET / HTTP/1.1~~GET  / HTTP/1.1~~|HTTP/1.1 404 Not Found~Content-Length: 0~~HTTP/1.1 400 Bad Request~Content-Length: 0~Connection: close~~|2|refused
";

// The same of heads: which are none, how long the body is, and whether the connection ends. The length of a body is seen
// from the message after it.
const HEADS: &str = "\
GET / HTTP/1.1^^|HTTP/1.1 404 Not Found~Content-Length: 0~~|1|finished
~^GET / HTTP/1.1~~|HTTP/1.1 404 Not Found~Content-Length: 0~~|1|finished
GET / HTTP/1.0~~|HTTP/1.1 404 Not Found~Content-Length: 0~Connection: close~~|1|finished
GET / HTTP/1.0~Connection: keep-alive~~|HTTP/1.1 404 Not Found~Content-Length: 0~Connection: close~~|1|finished
GET / HTTP/1.1~Connection: close~~|HTTP/1.1 404 Not Found~Content-Length: 0~Connection: close~~|1|finished
GET / HTTP/1.1~connection:keep-alive ,\tCLOSE~~|HTTP/1.1 404 Not Found~Content-Length: 0~Connection: close~~|1|finished
GET / HTTP/1.1~Connection: closed, x close~~|HTTP/1.1 404 Not Found~Content-Length: 0~~|1|finished
GET / HTTP/1.1~Connection: upgrade~CONNECTION: close,~~|HTTP/1.1 404 Not Found~Content-Length: 0~Connection: close~~|1|finished
GET / HTTP/1.1~X: close~~|HTTP/1.1 404 Not Found~Content-Length: 0~~|1|finished
GET / HTTP/3.9~~|HTTP/1.1 400 Bad Request~Content-Length: 0~Connection: close~~|1|refused
GET / HTTP/2.0~~|HTTP/1.1 400 Bad Request~Content-Length: 0~Connection: close~~|1|refused
GET  / HTTP/1.1~~|HTTP/1.1 400 Bad Request~Content-Length: 0~Connection: close~~|1|refused
GET / HTTP/1.1~X : y~~|HTTP/1.1 400 Bad Request~Content-Length: 0~Connection: close~~|1|refused
GET / HTTP/1.1~X: y~ z~~|HTTP/1.1 400 Bad Request~Content-Length: 0~Connection: close~~|1|refused
GET / HTTP/1.1~: y~~|HTTP/1.1 400 Bad Request~Content-Length: 0~Connection: close~~|1|refused
GET / HTTP/1.1~X: @~~|HTTP/1.1 400 Bad Request~Content-Length: 0~Connection: close~~|1|refused
GET / HTTP/1.1~||0|unfinished
GET / HTTP/1.1~Content-Length: 5~||0|unfinished
~~||0|unfinished
POST / HTTP/1.1~~|HTTP/1.1 411 Length Required~Content-Length: 0~Connection: close~~|1|refused
post / HTTP/1.1~~|HTTP/1.1 404 Not Found~Content-Length: 0~~|1|finished
POST / HTTP/1.1~Content-Length: 5~~helloGET / HTTP/1.1~~|HTTP/1.1 404 Not Found~Content-Length: 0~~HTTP/1.1 404 Not Found~Content-Length: 0~~|2|finished
POST / HTTP/1.1~CONTENT-LENGTH:\t5 ~~helloGET / HTTP/1.1~~|HTTP/1.1 404 Not Found~Content-Length: 0~~HTTP/1.1 404 Not Found~Content-Length: 0~~|2|finished
POST / HTTP/1.1~Content-Length: 0000000000000000000000000000005~~helloGET / HTTP/1.1~~|HTTP/1.1 404 Not Found~Content-Length: 0~~HTTP/1.1 404 Not Found~Content-Length: 0~~|2|finished
POST / HTTP/1.1~Content-Length: 00~~|HTTP/1.1 404 Not Found~Content-Length: 0~~|1|finished
POST / HTTP/1.1~Content-Length: 262144~~||0|unfinished
POST / HTTP/1.1~Content-Length: 262145~~|HTTP/1.1 413 Content Too Large~Content-Length: 0~Connection: close~~|1|refused
GET / HTTP/1.1~Content-Length: 262145~~|HTTP/1.1 413 Content Too Large~Content-Length: 0~Connection: close~~|1|refused
POST / HTTP/1.1~Content-Length: 18446744073709551616~~|HTTP/1.1 413 Content Too Large~Content-Length: 0~Connection: close~~|1|refused
POST / HTTP/1.1~Content-Length: 18446744073709551621~~|HTTP/1.1 413 Content Too Large~Content-Length: 0~Connection: close~~|1|refused
POST / HTTP/1.1~Content-Length: 5x~~|HTTP/1.1 400 Bad Request~Content-Length: 0~Connection: close~~|1|refused
POST / HTTP/1.1~Content-Length: +5~~|HTTP/1.1 400 Bad Request~Content-Length: 0~Connection: close~~|1|refused
POST / HTTP/1.1~Content-Length: -1~~|HTTP/1.1 400 Bad Request~Content-Length: 0~Connection: close~~|1|refused
POST / HTTP/1.1~Content-Length: 5, 5~~|HTTP/1.1 400 Bad Request~Content-Length: 0~Connection: close~~|1|refused
POST / HTTP/1.1~Content-Length: 0x5~~|HTTP/1.1 400 Bad Request~Content-Length: 0~Connection: close~~|1|refused
POST / HTTP/1.1~Content-Length:~~|HTTP/1.1 400 Bad Request~Content-Length: 0~Connection: close~~|1|refused
POST / HTTP/1.1~Content-Length: 5~Content-Length: 5~~|HTTP/1.1 400 Bad Request~Content-Length: 0~Connection: close~~|1|refused
GET / HTTP/1.1~Content-Length: 5~content-length: 6~~|HTTP/1.1 400 Bad Request~Content-Length: 0~Connection: close~~|1|refused
POST / HTTP/1.1~Transfer-Encoding: chunked~~|HTTP/1.1 501 Not Implemented~Content-Length: 0~Connection: close~~|1|refused
POST / HTTP/1.1~Transfer-Encoding:~~|HTTP/1.1 501 Not Implemented~Content-Length: 0~Connection: close~~|1|refused
POST / HTTP/1.1~Content-Length: 5~Transfer-Encoding: identity~~|HTTP/1.1 501 Not Implemented~Content-Length: 0~Connection: close~~|1|refused
POST / HTTP/1.1~Content-Length: 5~Content-Length: 6~transfer-encoding: x~~|HTTP/1.1 501 Not Implemented~Content-Length: 0~Connection: close~~|1|refused";

// The same of targets. Each package is known but `none.bin`, and `a` has a file.
const TARGETS: &str = "\
GET /p/a? HTTP/1.1~~|HTTP/1.1 200 OK~Content-Type: application/octet-stream~Content-Length: 3~~abc|1|finished
GET /p/a#b HTTP/1.1~~|HTTP/1.1 200 OK~Content-Type: application/octet-stream~Content-Length: 3~~|1|cut
GET /p/a%2Db/c HTTP/1.1~~|HTTP/1.1 200 OK~Content-Type: application/octet-stream~Content-Length: 3~~|1|cut
GET /p/ HTTP/1.1~~|HTTP/1.1 200 OK~Content-Type: application/octet-stream~Content-Length: 3~~|1|cut
GET /p?/p/a HTTP/1.1~~|HTTP/1.1 404 Not Found~Content-Length: 0~~|1|finished
GET ?/p/a HTTP/1.1~~|HTTP/1.1 404 Not Found~Content-Length: 0~~|1|finished
GET //p/a HTTP/1.1~~|HTTP/1.1 404 Not Found~Content-Length: 0~~|1|finished
GET /P/a HTTP/1.1~~|HTTP/1.1 404 Not Found~Content-Length: 0~~|1|finished";

fn end_of(served: Result<Served, Fault>) -> (u32, &'static str) {
    match served {
        Ok(served) => match served.end {
            End::Finished => (served.requests, "finished"),
            End::Unfinished => (served.requests, "unfinished"),
            End::Refused => (served.requests, "refused"),
            End::Cut => (served.requests, "cut"),
        },
        Err(Fault::Read) => (0, "read failed"),
        Err(Fault::Write) => (0, "write failed"),
        Err(Fault::Memory) => (0, "out of memory"),
    }
}

/// Serves what the peer of a connection sends, and returns how many replies were begun and how the session ended.
pub(crate) fn serve_over<R: AllocGlobal>(
    rt: &R,
    packages: &Shelf<'_>,
    connection: &mut Connection<'_>,
) -> (u32, &'static str) {
    let mut desk = Echo { alloc: rt.alloc() };
    let Connection { input, output } = connection;
    end_of(serve(rt, input, output, &mut desk, packages, &STOPPED))
}

// How the session of a connection that gives and takes so many bytes a call ends, and whether it gets these replies.
fn serve_sent(
    rt: &HostRuntime,
    sent: &[u8],
    piece: usize,
    replies: &[u8],
) -> ((u32, &'static str), bool) {
    let mut connection = Connection::new(rt.alloc(), sent, piece);
    let ended = serve_over(rt, &FILES, &mut connection);
    (ended, connection.output.bytes.as_slice() == replies)
}

// Whether a connection gets what its row says.
fn is_served(rt: &HostRuntime, row: &str, piece: usize) -> Option<bool> {
    let [sent, replies, requests, how, _] = columns(row, '|');
    let requests = requests.parse().ok()?;
    let sent = expand(rt.alloc(), sent)?;
    let replies = expand(rt.alloc(), replies)?;
    Some(serve_sent(rt, sent, piece, replies) == ((requests, how), true))
}

// The first of rows that isn't so, if a connection gives and takes so many bytes a call; empty if there is none.
fn wrong_row(rt: &HostRuntime, rows: &'static str, piece: usize) -> &'static str {
    for row in rows.lines() {
        if is_served(rt, row, piece) != Some(true) {
            return row;
        }
    }
    ""
}

// Heads of 64 and 65 fields, and of 16384 and 16385 bytes; 999 messages, 1000, and 1001 of which the last gets no reply.
const LIMITS: &str = "\
GET / HTTP/1.1~$64*X: y~$~|HTTP/1.1 404 Not Found~Content-Length: 0~~|1|finished
GET / HTTP/1.1~$65*X: y~$~|HTTP/1.1 400 Bad Request~Content-Length: 0~Connection: close~~|1|refused
GET / HTTP/1.1~X: $16361*y$~~|HTTP/1.1 404 Not Found~Content-Length: 0~~|1|finished
GET / HTTP/1.1~X: $16362*y$~~|HTTP/1.1 431 Request Header Fields Too Large~Content-Length: 0~Connection: close~~|1|refused
GET / HTTP/1.1~$64*X: y~$X: $15978*y$~~|HTTP/1.1 431 Request Header Fields Too Large~Content-Length: 0~Connection: close~~|1|refused
$999*GET / HTTP/1.1~~$|$999*HTTP/1.1 404 Not Found~Content-Length: 0~~$|999|finished
$1000*GET / HTTP/1.1~~$|$999*HTTP/1.1 404 Not Found~Content-Length: 0~~$HTTP/1.1 404 Not Found~Content-Length: 0~Connection: close~~|1000|finished
$1001*GET / HTTP/1.1~~$|$999*HTTP/1.1 404 Not Found~Content-Length: 0~~$HTTP/1.1 404 Not Found~Content-Length: 0~Connection: close~~|1000|finished";

// Of each table: its rows, and how many bytes the connection gives and takes a call.
const TABLES: [(&str, &[usize]); 4] = [
    (SESSIONS, &[1, 7, 100_000]),
    (HEADS, &[1, 7, 100_000]),
    (TARGETS, &[1, 7, 100_000]),
    (LIMITS, &[1000]),
];

// The first row that isn't so over pieces of its table; empty if there is none.
fn wrong_in(rt: &HostRuntime, rows: &'static str, pieces: &[usize]) -> &'static str {
    for piece in pieces {
        let wrong = wrong_row(rt, rows, *piece);
        if !wrong.is_empty() {
            return wrong;
        }
    }
    ""
}

fn wrong_session(rt: &HostRuntime) -> &'static str {
    for (rows, pieces) in TABLES {
        let wrong = wrong_in(rt, rows, pieces);
        if !wrong.is_empty() {
            return wrong;
        }
    }
    ""
}

// rule: Body of a request
// rule: End of a connection
// rule: End of a session
// rule: Head of a request
// rule: Length of a body
// rule: Length of a message
// rule: Messages of a connection
// rule: Path of a package
// rule: Path of a target
// rule: Piece of a device in memory
// rule: Rejection of a message
// rule: Reply to a message
// rule: Route of a message
// rule: Session
// rule: Status lines
// rule: Use of a message
#[test]
fn serves_sessions_however_they_are_cut(rt: HostRuntime) {
    let wrong = wrong_session(&rt);
    assert!(rt; wrong.is_empty(), "{wrong}");
}
