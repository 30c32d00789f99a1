// Posts and downloads whose source or sink fails at one call, whichever it is.

use crate::links::{ask, request_of};
use http_memory::{Input, Output};
use std::alloc::Global;

const REPLY: &[u8] = b"HTTP/1.1 200 OK\r\nContent-Length: 5\r\n\r\nhello";

// A chunked reply with an extension and a trailer.
const CHUNKED: &[u8] = b"HTTP/1.1 200 OK\r\nTransfer-Encoding: chunked\r\n\r\n\
    5;a=b\r\nhello\r\n7\r\n, world\r\n0\r\nA: b\r\n\r\n";

// What a post or a download comes to one of whose reads fails after so many, and whether its request was sent. A read gives
// so many bytes.
fn fail_read(
    alloc: Global,
    kind: &str,
    reply: &[u8],
    body: &[u8],
    piece: usize,
    good: usize,
) -> (&'static str, bool) {
    let mut source = Input::new(reply, piece);
    source.fails_after = Some(good);
    let mut sink = Output::new(alloc, 1000);
    let came = ask(alloc, kind, &mut source, &mut sink, body);
    (came, sink.bytes.as_slice() == request_of(kind))
}

// Lets each read fail until none does, and returns how many there are; `None` if one comes to anything else.
fn count_reads(
    alloc: Global,
    kind: &str,
    reply: &[u8],
    body: &[u8],
    piece: usize,
) -> Option<usize> {
    for good in 0..1000 {
        match fail_read(alloc, kind, reply, body, piece, good) {
            ("whole", true) => return Some(good),
            ("read failed", true) => {}
            _ => return None,
        }
    }
    None
}

// What is asked, the reply, the bytes of its body, how many bytes come a read, and how many reads there are.
const READS: [(&str, &[u8], &[u8], usize, usize); 8] = [
    ("post", REPLY, b"hello", 1, 43),
    ("post", REPLY, b"hello", 7, 7),
    ("post", REPLY, b"hello", 1000, 1),
    ("download", REPLY, b"hello", 1, 43),
    ("download", REPLY, b"hello", 7, 7),
    ("download", REPLY, b"hello", 1000, 1),
    ("post", CHUNKED, b"hello, world", 1, CHUNKED.len()),
    ("post", CHUNKED, b"hello, world", 1000, 1),
];

// rule: Body that a link hands on
// rule: Body that a link opens
// rule: Reply that a link reads
#[test]
fn a_link_reports_each_failed_read(rt: HostRuntime) {
    for (kind, reply, body, piece, reads) in READS {
        let count = count_reads(rt.alloc(), kind, reply, body, piece);
        assert!(rt; count == Some(reads), "{kind}, {piece} bytes a read");
    }
}

// What a post or a download comes to one of whose writes fails after so many, how much of the reply is left, and whether
// the write failed after a first part of the request. A write takes so many bytes.
fn fail_write(
    alloc: Global,
    kind: &str,
    piece: usize,
    good: usize,
) -> Option<(&'static str, usize, bool)> {
    let mut source = Input::new(REPLY, 1000);
    let mut sink = Output::new(alloc, piece);
    sink.fails_after = Some(good);
    let came = ask(alloc, kind, &mut source, &mut sink, b"hello");
    let is_first = request_of(kind).starts_with(&sink.bytes) && sink.calls == good;
    is_first.then_some((came, source.left.len(), sink.fails_after.is_none()))
}

// Lets each write fail until none does, and returns how many there are; `None` if one comes to anything else. The reply to
// a post is read all the same.
fn count_writes(alloc: Global, kind: &str, piece: usize) -> Option<usize> {
    for good in 0..1000 {
        match (kind, fail_write(alloc, kind, piece, good)?) {
            (_, ("whole", _, false)) => return Some(good),
            ("post", ("whole", 0, true)) => {}
            ("download", ("write failed", left, true)) if left == REPLY.len() => {}
            _ => return None,
        }
    }
    None
}

// What is asked, how many bytes a write takes, and how many writes there are.
const WRITES: [(&str, usize, usize); 6] = [
    ("post", 1, 125),
    ("post", 7, 18),
    ("post", 1000, 1),
    ("download", 1, 62),
    ("download", 7, 9),
    ("download", 1000, 1),
];

// rule: Post whose reply comes early
// rule: Request of a post
// rule: Request that a link writes
#[test]
fn a_link_reads_the_reply_to_a_post_after_each_failed_write(rt: HostRuntime) {
    for (kind, piece, writes) in WRITES {
        let count = count_writes(rt.alloc(), kind, piece);
        assert!(rt; count == Some(writes), "{kind}, {piece} bytes a write");
    }
}

// Replies to a post whose fourth write fails, how many reads of them succeed, and what the post comes to.
const EARLY: [(&[u8], usize, &str); 8] = [
    (REPLY, 1, "whole"),
    (REPLY, 0, "write failed"),
    (b"", 1000, "write failed"),
    (b"HTTP/1.1 200 OK\r\n", 1000, "write failed"),
    (
        b"HTTP/1.1 200 OK\r\nContent-Length: 5\r\n\r\nhell",
        1000,
        "write failed",
    ),
    (
        b"HTTP/1.1 200 OK\r\nContent-Length: 21\r\n\r\nhello, hello, hello!!",
        1000,
        "write failed",
    ),
    (b"HTTP/1.1 200 OK\r\n\r\nhello", 1000, "write failed"),
    (b"hello", 1000, "write failed"),
];

// What a post comes to whose fourth write fails, and of whose reply so many reads succeed.
fn cut_post(alloc: Global, reply: &[u8], good: usize) -> &'static str {
    let mut source = Input::new(reply, 1000);
    source.fails_after = Some(good);
    let mut sink = Output::new(alloc, 10);
    sink.fails_after = Some(3);
    let came = ask(alloc, "post", &mut source, &mut sink, b"hello");
    if sink.fails_after.is_none() && sink.bytes.len() == 30 {
        came
    } else {
        "not cut"
    }
}

// rule: Post whose reply comes early
#[test]
fn a_cut_post_without_a_whole_reply_is_a_failed_write(rt: HostRuntime) {
    for (reply, good, wanted) in EARLY {
        let came = cut_post(rt.alloc(), reply, good);
        assert!(rt; came == wanted, "{came}");
    }
}
