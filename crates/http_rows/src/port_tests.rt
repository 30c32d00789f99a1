// What peers get. A row is the peers of two slots, with a bar between two: how each behaves, what it sends, how its
// connection ends and what it gets. `~` is CR LF, and `$3*ab$` is `ababab`.

use crate::ports::wrong_row;
use http_sessions::Buffers;
use std::alloc::AllocError;
use std::sync::Wait;

// Two messages, the first of which has come whole when the connection goes on for the second time.
const TIMES: &str =
    "quick;POST /echo HTTP/1.1~Content-Length: 6~~secondPOST /echo HTTP/1.1~Content-Length: 6~~second;ended;HTTP/1.1 200 OK~Content-Type: text/plain~Content-Length: 1~~1HTTP/1.1 200 OK~Content-Type: text/plain~Content-Length: 1~~2";

// Sessions, however they are cut.
const SESSIONS: &str = "\
;;ended;
;GET / HTTP/1.1~~;ended;HTTP/1.1 404 Not Found~Content-Length: 0~~
;GET /p/a.bin HTTP/1.1~~;ended;HTTP/1.1 200 OK~Content-Type: application/octet-stream~Content-Length: 3~~abc
;GET /p/cut.bin HTTP/1.1~~GET / HTTP/1.1~~;over;HTTP/1.1 200 OK~Content-Type: application/octet-stream~Content-Length: 3~~
;POST /echo HTTP/1.1~Content-Length: 3~Connection: close~~oneGET / HTTP/1.1~~;over;HTTP/1.1 200 OK~Content-Type: text/plain~Content-Length: 3~Connection: close~~one
;GET / HTTP/1.0~~GET / HTTP/1.1~~;over;HTTP/1.1 404 Not Found~Content-Length: 0~Connection: close~~
;GET / HTTP/1.1~~GET / HTTP/3.9~~GET / HTTP/1.1~~;over;HTTP/1.1 404 Not Found~Content-Length: 0~~HTTP/1.1 400 Bad Request~Content-Length: 0~Connection: close~~
;GET / HTTP/1.1~~GET / HTT;ended;HTTP/1.1 404 Not Found~Content-Length: 0~~
;POST /echo HTTP/1.1~Content-Length: 3~~on;ended;
broken;GET / HTTP/1.1~~GET / HTT;read failed;HTTP/1.1 404 Not Found~Content-Length: 0~~
room=20;GET / HTTP/1.1~~;write failed;HTTP/1.1 404 Not Fou
";

// In the first a peer is silent, in the second one stops within a head, and in the third one takes no more.
const BESIDE: &str = "\
silent;;late;|slot=1;POST /echo HTTP/1.1~Content-Length: 3~~one;ended;HTTP/1.1 200 OK~Content-Type: text/plain~Content-Length: 3~~one
silent;GET / HTTP/1.1~~GET / HTT;late;HTTP/1.1 404 Not Found~Content-Length: 0~~|slot=1;POST /echo HTTP/1.1~Content-Length: 3~~one;ended;HTTP/1.1 200 OK~Content-Type: text/plain~Content-Length: 3~~one
blocked room=20;GET / HTTP/1.1~~;late;HTTP/1.1 404 Not Fou|slot=1;POST /echo HTTP/1.1~Content-Length: 3~~one;ended;HTTP/1.1 200 OK~Content-Type: text/plain~Content-Length: 3~~one
blocked room=20;GET / HTTP/1.1~~;late;HTTP/1.1 404 Not Fou|slot=1 silent;GET /;late;|;GET / HTTP/1.1~~;ended;HTTP/1.1 404 Not Found~Content-Length: 0~~
";

// Peers of one slot, one after the other, with some of another.
const QUEUES: &str = "\
;GET / HTTP/1.1~~;ended;HTTP/1.1 404 Not Found~Content-Length: 0~~|broken;;read failed;|;POST /echo HTTP/1.1~Content-Length: 3~Connection: close~~one;over;HTTP/1.1 200 OK~Content-Type: text/plain~Content-Length: 3~Connection: close~~one|silent;G;late;|;POST /echo HTTP/1.1~Content-Length: 3~~two;ended;HTTP/1.1 200 OK~Content-Type: text/plain~Content-Length: 3~~two|slot=1;GET / HTTP/3.9~~;over;HTTP/1.1 400 Bad Request~Content-Length: 0~Connection: close~~|slot=1 room=0;GET / HTTP/1.1~~;write failed;
";

// A head of 16384 bytes and one of 16385; 999 messages, and 1001 of which the last gets no reply; the same from a peer
// that never pauses, beside another one.
const LIMITS: &str = "\
;GET / HTTP/1.1~X: $16361*y$~~;ended;HTTP/1.1 404 Not Found~Content-Length: 0~~
;GET / HTTP/1.1~X: $16362*y$~~;over;HTTP/1.1 431 Request Header Fields Too Large~Content-Length: 0~Connection: close~~
;$999*GET / HTTP/1.1~~$;ended;$999*HTTP/1.1 404 Not Found~Content-Length: 0~~$
;$1001*GET / HTTP/1.1~~$;over;$999*HTTP/1.1 404 Not Found~Content-Length: 0~~$HTTP/1.1 404 Not Found~Content-Length: 0~Connection: close~~
quick;$1001*GET / HTTP/1.1~~$;over;$999*HTTP/1.1 404 Not Found~Content-Length: 0~~$HTTP/1.1 404 Not Found~Content-Length: 0~Connection: close~~|slot=1;GET / HTTP/1.1~~;ended;HTTP/1.1 404 Not Found~Content-Length: 0~~
";

// One peer: packages of three and of two blocks, and beside others one of no bytes; and packages that are cut, since the
// digest differs, a block can't be read, or the file has another size.
const DOWNLOADS: &str = "\
room=300000;GET /p/long.bin HTTP/1.1~~;ended;HTTP/1.1 200 OK~Content-Type: application/octet-stream~Content-Length: 131073~~$8192*aaaaaaaaaaaaaaaa$a
room=300000;GET /p/even.bin HTTP/1.1~~GET /p/empty.bin HTTP/1.1~~POST /echo HTTP/1.1~Content-Length: 3~~one;ended;HTTP/1.1 200 OK~Content-Type: application/octet-stream~Content-Length: 131072~~$8192*bbbbbbbbbbbbbbbb$HTTP/1.1 200 OK~Content-Type: application/octet-stream~Content-Length: 0~~HTTP/1.1 200 OK~Content-Type: text/plain~Content-Length: 3~~one
room=300000;POST /echo HTTP/1.1~Content-Length: 3~~oneGET /p/long.bin HTTP/1.1~~POST /echo HTTP/1.1~Content-Length: 3~~twoGET /p/a.bin HTTP/1.1~~;ended;HTTP/1.1 200 OK~Content-Type: text/plain~Content-Length: 3~~oneHTTP/1.1 200 OK~Content-Type: application/octet-stream~Content-Length: 131073~~$8192*aaaaaaaaaaaaaaaa$aHTTP/1.1 200 OK~Content-Type: text/plain~Content-Length: 3~~twoHTTP/1.1 200 OK~Content-Type: application/octet-stream~Content-Length: 3~~abc
room=300000;GET /p/long.bin HTTP/1.1~Connection: close~~POST /echo HTTP/1.1~Content-Length: 3~~two;over;HTTP/1.1 200 OK~Content-Type: application/octet-stream~Content-Length: 131073~Connection: close~~$8192*aaaaaaaaaaaaaaaa$a
room=300000;GET /p/other.bin HTTP/1.1~~POST /echo HTTP/1.1~Content-Length: 3~~two;over;HTTP/1.1 200 OK~Content-Type: application/octet-stream~Content-Length: 131073~~$8192*cccccccccccccccc$
room=300000;GET /p/torn.bin HTTP/1.1~~POST /echo HTTP/1.1~Content-Length: 3~~two;over;HTTP/1.1 200 OK~Content-Type: application/octet-stream~Content-Length: 131073~~$4096*aaaaaaaaaaaaaaaa$
room=300000;GET /p/grown.bin HTTP/1.1~~POST /echo HTTP/1.1~Content-Length: 3~~two;over;HTTP/1.1 200 OK~Content-Type: application/octet-stream~Content-Length: 131073~~
room=300000;GET /p/none.bin HTTP/1.1~~GET /p/a.bin HTTP/1.1~~;ended;HTTP/1.1 404 Not Found~Content-Length: 0~~HTTP/1.1 200 OK~Content-Type: application/octet-stream~Content-Length: 3~~abc
room=300000;POST /p/long.bin HTTP/1.1~Content-Length: 3~~oneGET /p/a.bin HTTP/1.1~~;ended;HTTP/1.1 405 Method Not Allowed~Allow: GET~Content-Length: 0~~HTTP/1.1 200 OK~Content-Type: application/octet-stream~Content-Length: 3~~abc
";

// Two peers at once that download, of which one may take only a part.
const SIDE: &str = "\
room=300000;GET /p/long.bin HTTP/1.1~~;ended;HTTP/1.1 200 OK~Content-Type: application/octet-stream~Content-Length: 131073~~$8192*aaaaaaaaaaaaaaaa$a|slot=1 room=300000;GET /p/even.bin HTTP/1.1~~;ended;HTTP/1.1 200 OK~Content-Type: application/octet-stream~Content-Length: 131072~~$8192*bbbbbbbbbbbbbbbb$
room=300000 quick;GET /p/long.bin HTTP/1.1~~GET /p/even.bin HTTP/1.1~~;ended;HTTP/1.1 200 OK~Content-Type: application/octet-stream~Content-Length: 131073~~$8192*aaaaaaaaaaaaaaaa$aHTTP/1.1 200 OK~Content-Type: application/octet-stream~Content-Length: 131072~~$8192*bbbbbbbbbbbbbbbb$|slot=1 room=300000;POST /echo HTTP/1.1~Content-Length: 3~~oneGET /p/even.bin HTTP/1.1~~POST /echo HTTP/1.1~Content-Length: 3~~two;ended;HTTP/1.1 200 OK~Content-Type: text/plain~Content-Length: 3~~oneHTTP/1.1 200 OK~Content-Type: application/octet-stream~Content-Length: 131072~~$8192*bbbbbbbbbbbbbbbb$HTTP/1.1 200 OK~Content-Type: text/plain~Content-Length: 3~~two
room=70000;GET /p/long.bin HTTP/1.1~~;write failed;HTTP/1.1 200 OK~Content-Type: application/octet-stream~Content-Length: 131073~~$4369*aaaaaaaaaaaaaaaa$aaaaaaaaaaaaa|slot=1 room=300000;GET /p/even.bin HTTP/1.1~~;ended;HTTP/1.1 200 OK~Content-Type: application/octet-stream~Content-Length: 131072~~$8192*bbbbbbbbbbbbbbbb$|;POST /echo HTTP/1.1~Content-Length: 3~~one;ended;HTTP/1.1 200 OK~Content-Type: text/plain~Content-Length: 3~~one
room=70000 blocked;GET /p/long.bin HTTP/1.1~~;late;HTTP/1.1 200 OK~Content-Type: application/octet-stream~Content-Length: 131073~~$4369*aaaaaaaaaaaaaaaa$aaaaaaaaaaaaa|slot=1 room=300000;GET /p/even.bin HTTP/1.1~~;ended;HTTP/1.1 200 OK~Content-Type: application/octet-stream~Content-Length: 131072~~$8192*bbbbbbbbbbbbbbbb$|slot=1 room=300000;GET /p/long.bin HTTP/1.1~~;ended;HTTP/1.1 200 OK~Content-Type: application/octet-stream~Content-Length: 131073~~$8192*aaaaaaaaaaaaaaaa$a
room=300000;GET /p/other.bin HTTP/1.1~~;over;HTTP/1.1 200 OK~Content-Type: application/octet-stream~Content-Length: 131073~~$8192*cccccccccccccccc$|slot=1 room=300000;GET /p/long.bin HTTP/1.1~~;ended;HTTP/1.1 200 OK~Content-Type: application/octet-stream~Content-Length: 131073~~$8192*aaaaaaaaaaaaaaaa$a|room=300000;GET /p/torn.bin HTTP/1.1~~;over;HTTP/1.1 200 OK~Content-Type: application/octet-stream~Content-Length: 131073~~$4096*aaaaaaaaaaaaaaaa$
";

// Of each table: its rows, and the lengths of pieces and the orders of turns over which it is so.
const TABLES: [(&str, &[(usize, u32)]); 7] = [
    (TIMES, &[(1000, 0)]),
    (SESSIONS, &[(1, 0), (7, 0), (4096, 0)]),
    (
        BESIDE,
        &[(1, 0), (7, 0b101010101010), (4096, 0), (4096, 0xfff)],
    ),
    (
        QUEUES,
        &[(1, 0), (7, 0b101010101010), (4096, 0), (4096, 0xfff)],
    ),
    (LIMITS, &[(500, 0), (4096, 0)]),
    (DOWNLOADS, &[(4096, 0), (40_000, 0), (300_000, 0)]),
    (
        SIDE,
        &[(40_000, 0), (65_536, 0b101010101010), (300_000, 0xfff)],
    ),
];

// The first of rows that is wrong over pieces of one of these lengths and turns in its order; empty if there is none.
fn wrong_run<R: Wait + AllocGlobal>(
    rt: &R,
    room: &mut Buffers,
    runs: &[(usize, u32)],
    rows: &'static str,
) -> &'static str {
    for (piece, order) in runs {
        let wrong = wrong_row(rt, room, *piece, *order, rows);
        if !wrong.is_empty() {
            return wrong;
        }
    }
    ""
}

// rule: Begin of a message
// rule: Block of a package
// rule: Close of a connection
// rule: Connection of a port
// rule: End of a script
// rule: Reply that is begun
// rule: Rest of a connection
// rule: Session over a port
// rule: Timestamp of a connection
// rule: Timestamp of a reply
#[test]
fn serves_each_peer_whole_beside_others(rt: HostRuntime) -> Result<(), AllocError> {
    let mut room = Buffers::new(rt.alloc())?;
    for (rows, runs) in TABLES {
        let wrong = wrong_run(&rt, &mut room, runs, rows);
        assert!(rt; wrong.is_empty(), "{wrong}");
    }
    Ok(())
}

const PAIR: &str =
    ";POST /echo HTTP/1.1~Content-Length: 3~~onePOST /echo HTTP/1.1~Content-Length: 4~~four;ended;HTTP/1.1 200 OK~Content-Type: text/plain~Content-Length: 3~~oneHTTP/1.1 200 OK~Content-Type: text/plain~Content-Length: 4~~four";

// rule: Part of a message
// rule: Peer of a script
// rule: Reads of a port
// rule: Session over a port
// rule: Writes of a port
#[test]
fn serves_pipelined_messages_in_pieces_of_any_length(rt: HostRuntime) -> Result<(), AllocError> {
    let mut room = Buffers::new(rt.alloc())?;
    for piece in 1..92usize {
        let wrong = wrong_row(&rt, &mut room, piece, 0, PAIR);
        assert!(rt; wrong.is_empty(), "{wrong}, {piece} a call");
    }
    Ok(())
}

// Each connection has six turns: its peer sends 50 bytes and then 40, and takes each reply in two pieces.
const TWO: &str =
    ";POST /echo HTTP/1.1~Content-Length: 3~~onePOST /echo HTTP/1.1~Content-Length: 3~~two;ended;HTTP/1.1 200 OK~Content-Type: text/plain~Content-Length: 3~~oneHTTP/1.1 200 OK~Content-Type: text/plain~Content-Length: 3~~two|slot=1;POST /echo HTTP/1.1~Content-Length: 3~~redPOST /echo HTTP/1.1~Content-Length: 3~~sky;ended;HTTP/1.1 200 OK~Content-Type: text/plain~Content-Length: 3~~redHTTP/1.1 200 OK~Content-Type: text/plain~Content-Length: 3~~sky";

// rule: Events of a port
// rule: Loop over a port
// rule: Slots of a script
#[test]
fn gives_each_connection_its_own_replies_in_every_order(rt: HostRuntime) -> Result<(), AllocError> {
    let mut room = Buffers::new(rt.alloc())?;
    for order in 0..4096u32 {
        if order.count_ones() == 6 {
            let wrong = wrong_row(&rt, &mut room, 50, order, TWO);
            assert!(rt; wrong.is_empty(), "{wrong}, in order {order}");
        }
    }
    Ok(())
}
