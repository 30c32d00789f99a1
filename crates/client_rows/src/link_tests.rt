// Posts and downloads whose replies come in pieces (RFC 9112, sections 6.1, 6.3 and 7.1).

use crate::lines::expand;
use crate::links::read_reply;
use std::alloc::Global;

// Whether a row is so if the reply comes so many bytes a read: the reply after this head, and what it comes to.
fn is_so(alloc: Global, kind: &str, head: &str, row: &str, piece: usize) -> Option<bool> {
    let (reply, wanted) = row.rsplit_once('|')?;
    let reply = expand(alloc, head, reply)?;
    let (body, wanted) = match wanted.strip_prefix('=') {
        Some(body) => (body, "whole"),
        None => ("", wanted),
    };
    let body = expand(alloc, body, "")?;
    Some(read_reply(alloc, kind, reply, piece, body) == wanted)
}

// The first of rows that is wrong, in pieces of each of these lengths; empty if there is none.
fn wrong_row<'a>(
    alloc: Global,
    kind: &str,
    head: &str,
    rows: &'a str,
    pieces: [usize; 3],
) -> &'a str {
    for row in rows.lines() {
        for piece in pieces {
            if is_so(alloc, kind, head, row, piece) != Some(true) {
                return row;
            }
        }
    }
    ""
}

// A row is a reply, and what a post comes to: the bytes of the body after a `=`, or a fault. `~` is CR LF, and what is
// repeated is between two `%`.
const REPLIES: &str = "\
HTTP/1.1 200 OK~Content-Length: 5~~hello|=hello
HTTP/1.0 200 OK~content-length: 5~~hello|=hello
HTTP/1.1 200 OK~Content-Length: 0~~|=
HTTP/1.1 200 OK~Content-Length: 5~~hello, world|=hello
HTTP/1.1 500 Error~Content-Length: 5~~hello|=hello
HTTP/1.1 200 OK~~hello|no length
HTTP/1.1 100 Continue~~HTTP/1.1 200 OK~Content-Length: 5~~hello|no length
HTTP/1.1 200 OK~Content-Length: 5~Content-Length: 5~~hello|two lengths
HTTP/1.1 200 OK~Content-Length: 5, 5~~hello|bad length
HTTP/1.1 200 OK~Content-Length: +5~~hello|bad length
HTTP/1.1 200 OK~Content-Length: 18446744073709551616~~hello|bad length
HTTP/1.1 200 OK~Content-Length: 20~~hello, hello, hello!|=hello, hello, hello!
HTTP/1.1 200 OK~Content-Length: 21~~hello, hello, hello!|long
HTTP/1.1 200 OK~Part: %16000*x%~Content-Length: 5~~hello|=hello
HTTP/1.1 200 OK~Part: %17000*x%~Content-Length: 5~~hello|no head
HTTP/1.1 200 OK~Content-Length: 6~~hello|ended
HTTP/1.1 200 OK~Content-Len|ended
NO HTTP~~|no head
|ended
HTTP/1.1 200 OK~Transfer-Encoding: chunked~~5~hello~0~~|=hello
HTTP/1.1 200 OK~transfer-encoding:\tChunKED ~~5~hello~0~~|=hello
HTTP/1.1 500 Error~Transfer-Encoding: chunked~~5~hello~0~~|=hello
HTTP/1.1 200 OK~Transfer-Encoding: chunked~Content-Length: 15~~5~hello~0~~|two framings
HTTP/1.1 200 OK~Content-Length: 15~Transfer-Encoding: chunked~~5~hello~0~~|two framings
HTTP/1.1 200 OK~Transfer-Encoding: chunked~Content-Length: 5~Content-Length: 6~~5~hello~0~~|two framings
HTTP/1.0 200 OK~Transfer-Encoding: chunked~~5~hello~0~~|transfer coding
HTTP/1.1 200 OK~Transfer-Encoding: gzip, chunked~~5~hello~0~~|transfer coding
HTTP/1.1 200 OK~Transfer-Encoding: gzip~Transfer-Encoding: chunked~~5~hello~0~~|transfer coding
HTTP/1.1 200 OK~Transfer-Encoding: chunked~Transfer-Encoding: chunked~~5~hello~0~~|transfer coding
HTTP/1.1 200 OK~Transfer-Encoding: chunked, chunked~~5~hello~0~~|transfer coding
HTTP/1.1 200 OK~Transfer-Encoding: chunked;a=b~~5~hello~0~~|transfer coding
HTTP/1.1 200 OK~Transfer-Encoding: chunk~~5~hello~0~~|transfer coding
HTTP/1.1 200 OK~Transfer-Encoding:~~5~hello~0~~|transfer coding
HTTP/1.1 200 OK~Transfer-Encoding: identity~Content-Length: 5~~hello|transfer coding
HTTP/1.1 200 OK~Content-Length: 5~~5~hello~0~~|=5~he";

// The head of a chunked reply.
const CHUNKED: &str = "HTTP/1.1 200 OK~Transfer-Encoding: chunked~~";

// The same of a body after that head. A size of more than 16 digits is rejected, whatever it is.
const BODIES: &str = "\
0~~|=
5~hello~0~~|=hello
5~hello~7~, world~0~~|=hello, world
1~h~1~e~1~l~1~l~1~o~0~~|=hello
2~~~0~~|=~
5~hello~0~~HTTP/1.1 500 Error~~|=hello
A~0123456789~0~~|=0123456789
a~0123456789~0~~|=0123456789
0000000000000005~hello~0~~|=hello
005~hello~000~~|=hello
5;a~hello~0~~|=hello
5;a=b;c=d~hello~0;e~~|=hello
5;a=\"; b\"~hello~0~~|=hello
5 ; a = b~hello~0~~|=hello
5~hello~0~A: b~~|=hello
5~hello~0~A: b~C: d~~|=hello
14~%20*x%~0~~|=xxxxxxxxxxxxxxxxxxxx
%20*1~x~%0~~|=xxxxxxxxxxxxxxxxxxxx
15~|long
A~0123456789~B~|long
%20*1~x~%1~|long
7fffffffffffffff~|long
FFFFFFFFFFFFFFFF~|long
5~hello~ffffffffffffffff~|long
10000000000000000~|bad chunk
00000000000000005~hello~0~~|bad chunk
5~hello0~~|bad chunk
4~hello~0~~|bad chunk
6~hello~0~~|bad chunk
~hello~0~~|bad chunk
;a~hello~0~~|bad chunk
g~|bad chunk
0x5~hello~0~~|bad chunk
-5~hello~0~~|bad chunk
+5~hello~0~~|bad chunk
 5~hello~0~~|bad chunk
5 5~hello~0~~|bad chunk
5~hello~hello|bad chunk
5;%252*x%~hello~0~~|=hello
5;%253*x%~hello~0~~|long chunk line
5~hello~0;%253*x%~~|long chunk line
5;%253*x%|ended
5;%254*x%|long chunk line
5%255* %|long chunk line
0~%100*a:~%~|=
0~%101*a:~%~|long trailer
0~: b~~|bad trailer
0~a b: c~~|bad trailer
0~A: b~C~~|bad trailer
0~hello~~|bad trailer
|ended
5|ended
5~hello~0~|ended
5~hello~0~A: b~|ended";

// The same, with much after the last chunk.
const TRAILERS: &str = "\
0~a:%16378*x%~~|=
0~a:%16379*x%~~|long trailer
0~%16383*x%|ended
0~%16384*x%|long trailer
0~%20000*x%~~|long trailer
5~hello~0~a:%16378*x%~~|=hello";

// A row is a reply, and what a download comes to: the bytes that it hands on after a `=`, or a fault.
const DOWNLOADS: &str = "\
HTTP/1.1 200 OK~Content-Length: 12~~hello, world|=hello, world
HTTP/1.1 200 OK~Content-Length: 20~~hello, world|=hello, world
HTTP/1.1 200 OK~Content-Length: 3~~hello, world|=hel
HTTP/1.1 200 OK~Content-Length: 0~~hello, world|=
HTTP/1.1 404 Not Found~Content-Length: 0~~|status
HTTP/1.1 301 Moved Permanently~Location: http://localhost/~Content-Length: 0~~|status
HTTP/1.1 200 OK~~hello, world|no length
HTTP/1.1 200 OK~Transfer-Encoding: chunked~~5~hello~0~~|transfer coding";

// Of each table: what is asked, the head before its rows, its rows, and how many bytes come a read.
const TABLES: [(&str, &str, &str, [usize; 3]); 4] = [
    ("post", "", REPLIES, [1, 7, 100_000]),
    ("post", CHUNKED, BODIES, [1, 7, 100_000]),
    ("post", CHUNKED, TRAILERS, [1000, 16_384, 100_000]),
    ("download", "", DOWNLOADS, [1, 7, 100_000]),
];

// rule: Body that a link hands on
// rule: Body that a link opens
// rule: Chunked body
// rule: Chunked body that is rejected
// rule: Head of a reply that is read
// rule: Length of a reply
// rule: Reply that a link reads
#[test]
fn a_link_reads_replies_however_they_are_cut(rt: HostRuntime) {
    for (kind, head, rows, pieces) in TABLES {
        let wrong = wrong_row(rt.alloc(), kind, head, rows, pieces);
        assert!(rt; wrong.is_empty(), "{wrong}");
    }
}
